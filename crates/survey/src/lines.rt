// The line of a function.
ghost use Rattle.std.specs.Prelude.{◌≡◌, ◌+◌, ◌≤◌, length};
ghost use Rattle.common.specs.Lists.{put, Counted};
ghost use Rattle.sheet.specs.Rows.{cell_of};
ghost use Rattle.survey.specs.Lines.{line_head, tail_of, only_of, function_line};
ghost use Rattle.survey.specs.Claims.{line_length};

use crate::paper::{LINE, room};
use crate::run::run_of;
use common::Refusal;
use common::inner::put_text;
use common::limits::MOST_WORDS;
use lundump::Counts;
use runs::Longest;

fn put_cell(page: &mut [u8], at: usize, c: Option<usize>)
    requires { at + 6 ≤ length page.old }
    ensures { page.new ≡ put page.old at (cell_of c) }
{
    put_text(page, at, &sheet::column(c));
}

// The function's number, words, constants and names, from the page's start on.
#[tactic(auto, using(crate::proofs::Columns::head_put))]
fn put_head(page: &mut [u8], k: usize, c: Counts)
    requires { 24 ≤ length page.old }
    ensures { page.new ≡ put page.old 0 (line_head k c) }
{
    put_cell(page, 0, Some(k));
    put_cell(page, 6, Some(c.words as usize));
    put_cell(page, 12, Some(c.constants as usize));
    put_cell(page, 18, Some(c.names as usize));
}

// The run behind them; answers where the line ends.
fn put_tail(page: &mut [u8], run: Result<Longest, Refusal>) -> usize
    requires { line_length ≤ length page.old }
    ensures value { result ≡ 24 + length (tail_of run) }
    ensures page_after { page.new ≡ put page.old 24 (tail_of run) }
{
    match run {
        Ok(Longest { longest, first }) => {
            put_text(page, 24, &sheet::last_line(longest, first));
            37
        }
        Err(refusal) => {
            put_cell(page, 24, None);
            put_cell(page, 30, None);
            put_text(
                page,
                36,
                &sheet::refusal_line(refusal.number(), refusal.place()),
            );
            LINE
        }
    }
}

// The only line of a chunk that is refused; answers its length.
// Kept: (a) 0 for no line, which `line` promises (clause value), and the counts by their number, as
// `words_of` of crate chunk and lawendeb_chunk_words_at give them.
fn put_only(page: &mut [u8], k: usize, c: Counts) -> usize
    requires { (line_length ≤ length page.old) × (c.number ≤ 16) }
    ensures value { result ≡ length (only_of k c.number c.place) }
    ensures page_after { page.new ≡ put page.old 0 (only_of k c.number c.place) }
{
    if k != 0 {
        return 0;
    }
    put_text(
        page,
        0,
        &sheet::refusal_line(c.number as u8, c.place as usize),
    );
    13
}

// The line of function k, and its length.
fn put_line(bytes: &[u8], k: usize, page: &mut [u8]) -> usize
    requires { line_length ≤ length page.old }
    ensures value { result ≡ length (function_line k bytes.now) }
    ensures page_after { page.new ≡ put page.old 0 (function_line k bytes.now) }
{
    let mut words: [u32; MOST_WORDS] = room(0);
    let counts = chunk::words_of(bytes, k, &mut words);
    if counts.number != 0 {
        return put_only(page, k, counts);
    }
    let n = counts.words as usize;
    let run = run_of(&words[..n]);
    put_head(page, k, counts);
    put_tail(page, run)
}

// Puts the line of function k, counted from 0 by first byte, at the page's start and answers its length:
// 0 where there is no such function, but that the line of 0 says why a chunk is refused.
pub fn line(bytes: &[u8], k: usize, page: &mut [u8; LINE]) -> usize
    ensures value { result ≡ length (function_line k bytes.now) }
    ensures page_after { page.new ≡ put page.old 0 (function_line k bytes.now) }
    ensures counted { Counted result page.new }
{
    put_line(bytes, k, page)
}
