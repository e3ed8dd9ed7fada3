// The parts of a function, but for the functions within it: what they come to, and the position past them.
ghost use Rattle.std.specs.Prelude.{◌≡◌, ℕ, length, ◌≤◌, IfOk};
ghost use Rattle.loaders.specs.Reading.{Reader, past_of, read_as};
ghost use Rattle.lundump.specs.Lundump.{
  load_vector,
  load_head,
  load_code,
  load_constants,
  load_upvalues,
  load_lines,
  load_names,
  load_items,
};
ghost use Rattle.lundump.specs.Limited.{count_of, load_count, Reads};

use crate::items::{abs_line, items, loc_var};
use common::Refusal;
use common::limits::{INT_MAX, MOST_CONSTANTS, MOST_NAMES, MOST_WORDS};
use loaders::Read;
use loaders::inner::{block, byte, constant_at, int, string};

// A count of at most so many.
#[tactic(auto, unfolding(crate::specs::Limited::load_count))]
fn count(chunk: &[u8], at: usize, most: usize) -> Read<usize>
    ensures value { result ≡ load_count most chunk.now at }
    ensures few { IfOk result (λ r. r.0 ≤ most) }
{
    let (n, past) = int(chunk, at)?;
    if most < n {
        return Err(Refusal::MalformedChunk);
    }
    Ok((n, past))
}

// A count of at most so many, and so many bytes for each.
#[tactic(auto, using(crate::proofs::Limited::vector_by_count))]
fn vector(chunk: &[u8], at: usize, most: usize, each: usize) -> Read<usize>
    requires { (each ≤ 4) × (most ≤ 2147483647) }
    ensures { result ≡ read_as count_of (load_vector most each chunk.now at) }
{
    let (n, start) = count(chunk, at, most)?;
    let past = block(chunk, start, each * n)?;
    Ok((n, past))
}

// A count of at most so many, and so many items.
#[tactic(auto, using(crate::proofs::Limited::items_by_count, crate::proofs::Repeats::all_of))]
fn counted<T: Drop, F: Fn(&[u8], usize, usize) -> Read<T>>(
    chunk: &[u8],
    at: usize,
    most: usize,
    item: F,
) -> Read<usize>
    ghost reader: { ℕ → Reader T }
    requires callable { F.IsAlwaysCallable item }
    requires reads { Reads (F.post item) reader }
    ensures { result ≡ read_as length (load_items most reader chunk.now at) }
{
    let (n, start) = count(chunk, at, most)?;
    let past = items(chunk, start, n, item)?;
    Ok((n, past))
}

// Source, lines, parameters, variable arguments, stack size.
#[tactic(auto, unfolding(crate::specs::Lundump::load_head))]
pub fn head(chunk: &[u8], at: usize) -> Read<u8>
    ensures { result ≡ load_head chunk.now at }
{
    let (_, at) = string(chunk, at)?;
    let (_, at) = int(chunk, at)?;
    let (_, at) = int(chunk, at)?;
    let (_, at) = byte(chunk, at)?;
    let (_, at) = byte(chunk, at)?;
    byte(chunk, at)
}

#[tactic(auto, using(crate::proofs::Words::code_by_vector))]
pub fn code(chunk: &[u8], at: usize) -> Read<usize>
    ensures { result ≡ read_as length (load_code chunk.now at) }
{
    vector(chunk, at, MOST_WORDS, 4)
}

pub fn constants(chunk: &[u8], at: usize) -> Read<usize>
    ensures { result ≡ read_as length (load_constants chunk.now at) }
{
    counted(
        chunk,
        at,
        MOST_CONSTANTS,
        |chunk, at, i| constant_at(chunk, at, i),
    )
}

#[tactic(auto, unfolding(crate::specs::Lundump::load_upvalues))]
pub fn upvalues(chunk: &[u8], at: usize) -> Read<usize>
    ensures { result ≡ load_upvalues chunk.now at }
{
    vector(chunk, at, MOST_NAMES, 3)
}

// loadDebug, up to the names of upvalues
#[tactic(auto, unfolding(crate::specs::Lundump::load_lines, crate::specs::Lundump::load_abs_line, crate::specs::Lundump::load_loc_var))]
pub fn lines(chunk: &[u8], at: usize) -> Result<usize, Refusal>
    ensures { result ≡ past_of (load_lines chunk.now at) }
{
    let (_, at) = vector(chunk, at, INT_MAX, 1)?;
    let (_, at) = counted(chunk, at, INT_MAX, |chunk, at, _| abs_line(chunk, at))?;
    let (_, at) = counted(chunk, at, INT_MAX, |chunk, at, _| loc_var(chunk, at))?;
    Ok(at)
}

// loadDebug, the names: one for each upvalue, whatever their count says, unless it is 0
#[tactic(auto, unfolding(crate::specs::Lundump::load_names, crate::specs::Lundump::names_from))]
pub fn names(chunk: &[u8], at: usize, upvalues: usize) -> Result<usize, Refusal>
    ensures { result ≡ past_of (load_names upvalues chunk.now at) }
{
    let (n, at) = int(chunk, at)?;
    if n == 0 {
        return Ok(at);
    }
    items(chunk, at, upvalues, |chunk, at, _| string(chunk, at))
}
