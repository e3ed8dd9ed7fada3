// The records of a whole function as numbers, record after record, in the caller's list.
ghost use Rattle.std.specs.Prelude.{◌≡◌, ◌+◌, ◌*◌, ◌<◌, ◌≤◌, length};
ghost use Rattle.common.specs.Limits.{most_words};
ghost use Rattle.common.specs.Lists.{put};
ghost use Rattle.lifted.specs.Record.{
  list_numbers,
  head_numbers,
  numbers_of,
  records_numbers,
  record_length,
};

use numbered::{Flat, FlatPair, FlatSlot};
use records::inner::lift_at;
use values::few::Few;
use values::ir::SemanticInstruction;
use values::model::Prototype;

// Numbers in a record.
pub const RECORD_LENGTH: usize = 53;

#[tactic(auto, unfolding(common::specs::Lists::put))]
fn put<const N: usize>(numbers: &mut [u64], at: usize, some: [u64; N])
    requires { at + N ≤ length numbers.old }
    ensures { numbers.new ≡ put numbers.old at some.entry }
{
    numbers[at..at + N].copy_from_slice(&some);
}

// How many a list has, and its places.
fn put_list<T: Flat, const N: usize>(numbers: &mut [u64], at: usize, list: Few<T, N>)
    requires { at + (1 + 4 * N) ≤ length numbers.old }
    ensures { numbers.new ≡ put numbers.old at (list_numbers T.flat T.filler N list) }
{
    put(numbers, at, [list.count() as u64]);
    for k in 0..N {
        let slot = list.place(k).flat();
        put(
            numbers,
            at + (1 + 4 * k),
            [slot.kind, slot.first, slot.second, slot.third],
        );
    }
}

// What stands before the lists, each number in its place.
#[tactic(auto, unfolding(crate::specs::Record::head_numbers))]
fn head(i: SemanticInstruction) -> [u64; 14]
    ensures { result ≡ head_numbers i }
{
    let jump_target = FlatPair::from(i.jump_target.map(|pc| pc as u64));
    let companion_pc = FlatPair::from(i.companion_pc.map(|pc| pc as u64));
    let fallback = FlatPair::from(i.metamethod_fallback.map(u64::from));
    let effect = FlatSlot::from(i.implicit_effect);
    [
        i.pc as u64,
        u64::from(i.raw_word),
        u64::from(i.opcode),
        i.confidence as u64,
        jump_target.kind,
        jump_target.value,
        companion_pc.kind,
        companion_pc.value,
        fallback.kind,
        fallback.value,
        effect.kind,
        effect.first,
        effect.second,
        effect.third,
    ]
}

fn put_record(numbers: &mut [u64], at: usize, i: SemanticInstruction)
    requires { at + record_length ≤ length numbers.old }
    ensures { numbers.new ≡ put numbers.old at (numbers_of i) }
{
    let operands = i.operands;
    let reads = i.reads;
    let writes = i.writes;
    put(numbers, at, head(i));
    put_list(numbers, at + 14, operands);
    put_list(numbers, at + 31, reads);
    put_list(numbers, at + 44, writes);
}

// The numbers of one record, by value.
pub fn numbers_of(i: SemanticInstruction) -> [u64; RECORD_LENGTH]
    ensures { result ≡ numbers_of i }
{
    let mut numbers = [0u64; RECORD_LENGTH];
    put_record(&mut numbers, 0, i);
    numbers
}

// The records of the first n words. Those of the words behind them are read, but not put.
pub fn put_records(proto: &Prototype<'_>, n: usize, numbers: &mut [u64])
    requires few { 0 < n → length proto.now.words.now ≤ most_words }
    requires within { n ≤ length proto.now.words.now }
    requires room { record_length * n ≤ length numbers.old }
    ensures { numbers.new ≡ put numbers.old 0 (records_numbers proto.now.words.now proto.now.tags.now
        proto.now.payloads.now proto.now.names.now n) }
{
    for pc in 0..n {
        put_record(numbers, RECORD_LENGTH * pc, lift_at(proto, pc));
    }
}
