// The loaders that lundump.c is made of: each gives what it read and the position past it, and the first
// refusal met in reading order is the answer.
ghost use Rattle.std.specs.Prelude.{◌≡◌, ◌+◌, ◌≤◌, length, IfOk};
ghost use Rattle.loaders.specs.Loaders.{load_byte, load_unsigned, load_block, load_int};
ghost use Rattle.loaders.specs.Reading.{past_of};

use common::Refusal;
use common::limits::INT_MAX;

// What was read, and the position past it.
pub type Read<T> = Result<(T, usize), Refusal>;

// loadByte
#[tactic(auto, unfolding(crate::specs::Loaders::load_byte))]
pub fn byte(chunk: &[u8], at: usize) -> Read<u8>
    ensures { result ≡ load_byte chunk.now at }
{
    match chunk.get(at) {
        Some(&b) => Ok((b, at + 1)),
        None => Err(Refusal::MalformedChunk),
    }
}

// loadUnsigned: seven bits a byte, the highest first; the last byte has its top bit set.
// The limit is tried before the shift.
#[tactic(auto, using(crate::proofs::Unsigned::read), unfolding(crate::specs::Loaders::load_unsigned))]
pub(crate) fn unsigned_at(chunk: &[u8], from: usize, limit: usize) -> Read<usize>
    ensures { result ≡ load_unsigned limit chunk.now from }
{
    let top = limit / 128;
    let mut x: usize = 0;
    for at in from..chunk.len() {
        if top <= x {
            return Err(Refusal::MalformedChunk);
        }
        let b = usize::from(chunk[at]);
        x = x * 128 + b % 128;
        if 128 <= b {
            return Ok((x, at + 1));
        }
    }
    Err(Refusal::MalformedChunk)
}

// loadInt
pub fn int(chunk: &[u8], at: usize) -> Read<usize>
    ensures { result ≡ load_int chunk.now at }
{
    unsigned_at(chunk, at, INT_MAX)
}

// loadBlock, of so many bytes: the position past them
#[tactic(auto, unfolding(crate::specs::Loaders::load_block))]
pub fn block(chunk: &[u8], at: usize, size: usize) -> Result<usize, Refusal>
    ensures value { result ≡ past_of (load_block size chunk.now at) }
    ensures inside { IfOk result (λ past. (past ≡ at + size) × (past ≤ length chunk.now)) }
{
    match at.checked_add(size) {
        Some(past) if past <= chunk.len() => Ok(past),
        _ => Err(Refusal::MalformedChunk),
    }
}
