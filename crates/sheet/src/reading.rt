// Reading a sheet.
ghost use Rattle.std.specs.Prelude.{◌≡◌, ◌++◌, ℕ, ◌*◌, ◌≤◌, ◌<◌, length, drop};
ghost use Rattle.common.specs.Limits.{most_lines};
ghost use Rattle.sheet.specs.Format.{
  room_of,
  sheet_of,
  sheet_word_at,
  sheet_words,
  table_after,
};

use crate::lines::{LINE, is_line, value};
use common::Refusal;
use common::limits::MOST_LINES;

// How many words the text holds, where there is room for so many: of 12, a line that is no word's, counted
// from 1, and of 13, a line more than there is room for, the first met counts.
fn scan(text: &[u8], room: usize) -> Result<usize, Refusal>
    ensures { result ≡ sheet_of room text.now }
{
    for k in 0..room {
        if text.len() <= LINE * k {
            return Ok(k);
        }
        if !is_line(text, LINE * k) {
            return Err(Refusal::MalformedLine(k + 1));
        }
    }
    if LINE * room < text.len() {
        return Err(Refusal::TooManyLines);
    }
    Ok(room)
}

// The words of the first n lines.
fn fill(text: &[u8], words: &mut [u32], n: usize)
    requires { (n ≤ length words.old) × (11 * n ≤ length text.now)
        × ((k : ℕ) → k < n → sheet_word_at text.now k ≤ 4294967295) }
    ensures { words.new ≡ sheet_words text.now n ++ drop n words.old }
{
    for (k, word) in words[..n].iter_mut().enumerate() {
        *word = value(text, LINE * k) as u32;
    }
}

// Reads a sheet into the word table, and answers how many words it has. It is scanned whole before a word is
// stored, so that a refusal leaves the table as it was. A table of fewer than 4,096 places makes number 13
// come earlier: no word is dropped in silence.
pub fn read(text: &[u8], words: &mut [u32]) -> Result<usize, Refusal>
    ensures value { result ≡ sheet_of (room_of words.old) text.now }
    ensures words_after { words.new ≡ table_after text.now words.old }
{
    let n = scan(text, MOST_LINES.min(words.len()))?;
    fill(text, words, n);
    Ok(n)
}
