// Sets of registers: those of a block, from register r on, as the bits of a number. The highest bit is no
// register's.
ghost use Rattle.std.specs.Prelude.{◌≡◌, ◌≤◌, ◌<◌, ltb};
ghost use Rattle.blocks.specs.Uses.{in_range, in_ranges, end_of, sets_by};
ghost use Rattle.common.specs.Limits.{most_registers};
ghost use Rattle.blocks.specs.Blocks.{next_register, next_in, HoldsBits};

use common::limits::MOST_REGISTERS;
use locations::answer::{Range, Touches};

// So many registers a block has.
pub(crate) const BLOCK: usize = 63;

// All registers of a block.
const ALL: u64 = 9223372036854775807;

// The registers below one.
fn below(r: usize, end: usize) -> u64
    ensures { HoldsBits r (λ s. ltb s end) result }
{
    let count = end.saturating_sub(r);
    if count < BLOCK { (1 << count) - 1 } else { ALL }
}

fn in_range(r: usize, x: Range) -> u64
    ensures { HoldsBits r (λ s. in_range s x) result }
{
    below(r, x.last as usize + 1) & (ALL - below(r, x.first as usize))
}

pub(crate) fn in_ranges(r: usize, ranges: &[Range]) -> u64
    ensures { HoldsBits r (λ s. in_ranges s ranges.now) result }
{
    let mut all = 0;
    for x in ranges {
        all |= in_range(r, *x);
    }
    all
}

// The registers that a word that touches t sets on the step to q.
pub(crate) fn set_by(r: usize, t: &Touches, q: usize) -> u64
    ensures { HoldsBits r (sets_by t.now q) result }
{
    let always = in_ranges(r, t.writes.as_slice());
    if q == t.edge {
        return always | in_ranges(r, t.edge_writes.as_slice());
    }
    always
}

// The lowest register from r on in a range, past all registers if there is none.
// Kept: (d) no Option, since the least of them is wanted, and past all is the greatest.
fn next_of(x: Range, r: usize) -> usize
    ensures { (result ≡ next_register r x) × (x.last < most_registers) }
{
    let first = (x.first as usize).max(r);
    if first <= x.last as usize {
        first
    } else {
        MOST_REGISTERS
    }
}

// The same in one of several; and none of them goes past all registers, by the width of its numbers.
pub(crate) fn next_in(ranges: &[Range], r: usize) -> usize
    ensures { (result ≡ next_in r ranges.now) × (end_of ranges.now ≤ most_registers) }
{
    let mut next = MOST_REGISTERS;
    for x in ranges {
        next = next.min(next_of(*x, r));
    }
    next
}
