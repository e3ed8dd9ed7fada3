// The line of each word, as luaG_getfuncline of ldebug.c gives it, one after another: so each byte and each
// absolute line is read once.
ghost use Rattle.std.specs.Prelude.{◌≡◌, ◌+◌, ◌≤◌, length, IfOk};
ghost use Rattle.common.specs.Limits.{most_words, int_max};
ghost use Rattle.loaders.specs.Reading.{read_as, and_then};
ghost use Rattle.loaders.specs.Loaders.{load_int, load_string_n};
ghost use Rattle.lines.specs.Ldebug.{line_moved, lines_from, lines_of};
ghost use Rattle.lines.specs.Lines.{
  defined_at,
  read_abs,
  read_info,
  span_of,
  abs_from,
  line_info_at,
  lines_in,
  next_abs,
  Placed,
  LineTurns,
};
ghost use Rattle.lundump.specs.Chunk.{counts_of, after, words_room};
ghost use Rattle.lines.specs.Choices.{filled_by};

use crate::choosing::Choice;
use crate::words::located_in;
use loaders::Read;
use loaders::inner::{block, int, string};
use lundump::Counts;

// lobject.h's AbsLineInfo: an instruction that has its line of its own.
#[derive(Clone, Copy)]
pub struct AbsLine {
    pub pc: usize,
    pub line: usize,
}

// The absolute lines that are left: where they start, and how many.
#[derive(Clone, Copy)]
pub struct AbsLeft {
    pub at: usize,
    pub left: usize,
}

// A function's line information: the bytes of lineinfo, and the absolute lines.
#[derive(Clone, Copy)]
pub struct LinePlaces<'a> {
    pub lineinfo: &'a [u8],
    pub abs: AbsLeft,
}

// A line moved by a signed byte, 0 where it would go below.
#[tactic(auto, unfolding(crate::specs::Ldebug::line_moved))]
fn move_line(line: usize, b: u8) -> usize
    requires { line ≤ 4294967295 }
    ensures { result ≡ line_moved line b }
{
    if b < 128 {
        line + usize::from(b)
    } else {
        line.saturating_sub(256 - usize::from(b))
    }
}

#[tactic(auto, unfolding(crate::specs::Lines::read_abs))]
fn abs_line(chunk: &[u8], at: usize) -> Read<AbsLine>
    ensures { result ≡ read_abs chunk.now at }
{
    let (pc, at) = int(chunk, at)?;
    let (line, at) = int(chunk, at)?;
    Ok((AbsLine { pc, line }, at))
}

// The next absolute line, and the position past it.
#[tactic(auto, using(crate::proofs::Infos::none_left, crate::proofs::Infos::some_left))]
fn first_of(chunk: &[u8], abs: AbsLeft) -> Option<(AbsLine, usize)>
    ensures { result ≡ next_abs abs.left chunk.now abs.at }
{
    if abs.left == 0 {
        return None;
    }
    abs_line(chunk, abs.at).ok()
}

// The line of word i, which has byte b, where the one before has `line`; and the absolute lines that are left
// then.
#[tactic(auto, using(crate::proofs::Infos::turn_own, crate::proofs::Infos::turn_move, crate::proofs::Infos::turn_end, crate::proofs::Infos::next_some))]
fn next_line(chunk: &[u8], b: u8, i: usize, line: usize, abs: AbsLeft) -> (usize, AbsLeft)
    requires { line ≤ 4294967295 }
    ensures { LineTurns chunk.now b line i abs result }
{
    let moved = (move_line(line, b), abs);
    let Some((own, at)) = first_of(chunk, abs) else {
        return moved;
    };
    if own.pc != i {
        return moved;
    }
    let left = abs.left - 1;
    (own.line, AbsLeft { at, left })
}

// A line for each word; a word that has no byte has none. One store for both: apart, the compiler makes a
// memset of the second, and libindex.a needs no symbol.
fn store_lines(chunk: &[u8], p: LinePlaces<'_>, defined: usize, lines: &mut [u32])
    requires { (defined ≤ int_max) × (length lines.old ≤ most_words) }
    ensures { lines.new ≡ lines_from (length lines.old) defined 0
        (abs_from p.entry.abs.left chunk.now p.entry.abs.at) p.entry.lineinfo.now }
{
    let mut line = defined;
    let mut abs = p.abs;
    for (i, shown) in lines.iter_mut().enumerate() {
        *shown = match p.lineinfo.get(i) {
            Some(b) => {
                let turn = next_line(chunk, *b, i, line, abs);
                line = turn.0;
                abs = turn.1;
                line as u32
            }
            None => 0,
        };
    }
}

// loadDebug again, its lineinfo: where its bytes start and how many they are, and the position past them.
#[tactic(auto, unfolding(crate::specs::Lines::read_info))]
fn line_bytes(chunk: &[u8], at: usize) -> Read<(usize, usize)>
    ensures value { result ≡ read_as span_of (read_info chunk.now at) }
    ensures inside { IfOk result (λ r. r.0.0 + r.0.1 ≤ length chunk.now) }
{
    let (n, start) = int(chunk, at)?;
    let past = block(chunk, start, n)?;
    Ok(((start, n), past))
}

// loadDebug again, its first two parts, at a position that the first pass kept.
fn places(chunk: &[u8], at: usize) -> LinePlaces<'_>
    ensures { Placed chunk.now at result }
{
    let Ok(((start, n), behind)) = line_bytes(chunk, at) else {
        return LinePlaces {
            lineinfo: &chunk[..0],
            abs: AbsLeft { at: 0, left: 0 },
        };
    };
    let (left, at) = int(chunk, behind).unwrap_or((0, 0));
    LinePlaces {
        lineinfo: &chunk[start..][..n],
        abs: AbsLeft { at, left },
    }
}

fn read_defined(chunk: &[u8], at: usize) -> Read<usize>
    ensures { result ≡ and_then load_string_n load_int chunk.now at }
{
    let (_, at) = string(chunk, at)?;
    int(chunk, at)
}

// The lines of the words of the function at these positions.
fn fill_lines(chunk: &[u8], first_at: usize, lines_at: usize, lines: &mut [u32])
    requires { length lines.old ≤ most_words }
    ensures { lines.new ≡ lines_of (line_info_at chunk.now first_at lines_at) (length lines.old) }
{
    let (defined, _) = read_defined(chunk, first_at).unwrap_or((0, 0));
    store_lines(chunk, places(chunk, lines_at), defined, lines);
}

// A line for each of its words, 0 where the chunk has none, as if there were room for all of its
// tags, payloads and names.
// Kept: (a) as lawendeb_chunk_lines and lawendeb_chunk_lines_at answer; `value` speaks of C's counts.
pub fn lines_by(chunk: &[u8], choice: Choice, lines: &mut [u32]) -> Counts
    ensures value { result ≡ counts_of (filled_by choice chunk.now (words_room (length lines.old))) }
    ensures lines_after { lines.new ≡ after (lines_in chunk.now) (filled_by choice
        chunk.now (words_room (length lines.old))) lines.old }
{
    let found = located_in(chunk, choice, lines.len());
    let Ok(f) = found else {
        return Counts::from(found);
    };
    fill_lines(chunk, f.first_at, f.lines_at, &mut lines[..f.words]);
    Counts::from(found)
}
