// The program's fixed work tables, of which the library is lent the parts that a sheet fills.
ghost use Rattle.std.specs.Prelude.{◌≡◌, ◌≤◌, length, take};
ghost use Rattle.common.specs.Limits.{most_lines};
ghost use Rattle.common.specs.Lists.{put, Counted};
ghost use Rattle.common.specs.Refusals.{refusal_number, refusal_place};
ghost use Rattle.sheet.specs.Rows.{refusal_line_of};
ghost use Rattle.listing.specs.Answer.{run_text, listing_answer};
ghost use Rattle.listing.specs.Claims.{page_length, EnoughRead};

use crate::paper::{BUFFER, PAGE};
use crate::rows::put_listing;
use common::Refusal;
use common::inner::put_text;
use common::limits::MOST_LINES;
use fields::version::Version;
use runs::Longest;
use runs::weighing::WEIGHTS;

// Puts the only line of a refusal, and answers how long it is.
fn put_refusal(refusal: Refusal, page: &mut [u8]) -> usize
    requires { 13 ≤ length page.old }
    ensures value { result ≡ 13 }
    ensures page_after { page.new
        ≡ put page.old 0 (refusal_line_of (refusal_number refusal) (refusal_place refusal)) }
{
    put_text(
        page,
        0,
        &sheet::refusal_line(refusal.number(), refusal.place()),
    );
    13
}

// Puts what is to be written for words, and answers how long it is. Of the run's refusals only 7
// and 8 can come: 4,096 words are below 32,768 (1), the parts that are lent have a place for each word
// (6), and no weight is 0 (18).
fn put_run(words: &[u32], page: &mut [u8]) -> usize
    requires { (length words.now ≤ most_lines) × (page_length ≤ length page.old) }
    ensures value { result ≡ length (run_text words.now) }
    ensures page_after { page.new ≡ put page.old 0 (run_text words.now) }
{
    let n = words.len();
    let mut marks = [0u8; MOST_LINES];
    let mut lengths = [0u32; MOST_LINES];
    let weights = [1u8; WEIGHTS];
    let run = runs::longest_run(
        Version::Lua54,
        words,
        &weights,
        &mut marks[..n],
        &mut lengths[..n],
    );
    match run {
        Ok(Longest { longest, first }) => put_listing(words, &lengths[..n], longest, first, page),
        Err(refusal) => put_refusal(refusal, page),
    }
}

// Puts what is to be written for a sheet's text, and answers how long it is.
fn put_answer(text: &[u8], page: &mut [u8]) -> usize
    requires { page_length ≤ length page.old }
    ensures value { result ≡ length (listing_answer text.now) }
    ensures page_after { page.new ≡ put page.old 0 (listing_answer text.now) }
{
    let mut words = [0u32; MOST_LINES];
    match sheet::read(text, &mut words) {
        Ok(n) => put_run(&words[..n], page),
        Err(refusal) => put_refusal(refusal, page),
    }
}

// Puts what is to be written for the first n bytes of a buffer, or for all of them if there are fewer.
fn put_held(buffer: &[u8], n: usize, page: &mut [u8]) -> usize
    requires { page_length ≤ length page.old }
    ensures value { result ≡ length (listing_answer (take n buffer.now)) }
    ensures page_after { page.new
        ≡ put page.old 0 (listing_answer (take n buffer.now)) }
{
    if n < buffer.len() {
        return put_answer(&buffer[..n], page);
    }
    put_answer(buffer, page)
}

// From what was read to what the program writes. The buffer is lent whole, so that its size is in the type,
// and n of its bytes were read: they decide, however long the input is (`EnoughRead`). What is to be written
// stands at the start of the page, and its count is answered.
pub fn answer(buffer: &[u8; BUFFER], n: usize, page: &mut [u8; PAGE]) -> usize
    ensures value { result ≡ length (listing_answer (take n buffer.now)) }
    ensures page_after { page.new
        ≡ put page.old 0 (listing_answer (take n buffer.now)) }
    ensures enough_read { EnoughRead buffer.now n }
    ensures counted { Counted result page.new }
{
    put_held(buffer, n, page)
}
