// What the opcode table says of a word's opcode, a column at a time.
ghost use Rattle.std.specs.Prelude.{◌≡◌, ◌+◌, ◌*◌, ◌<◌, get_or};
ghost use Rattle.fields.specs.lua54.Word.{opcode_of};
ghost use Rattle.fields.specs.lua54.Table.{
  opcode_table,
  mode_number,
  mode_of,
  class_number,
  class_of,
  companion_number,
  companion_of,
  fallback_number,
  fallback_of,
};

use crate::bits::byte;
use crate::lua54::packed::{companion_and_class, eight_fallbacks};
use crate::lua54::table::TABLE;

// By value: reading a constant array copies it, so a loop takes the table once and lends
// it to the functions below.
pub fn table() -> [u8; 512]
    ensures { result ≡ opcode_table }
{
    TABLE
}

// The column of a word's opcode in a lent table.
fn column(table: &[u8; 512], word: u32, j: usize) -> u8
    requires { j < 4 }
    ensures { result ≡ get_or table.now (opcode_of word * 4 + j) 0 }
{
    table[(word % 128) as usize * 4 + j]
}

// The columns that loops look up, in a table that the caller lends.

pub fn step_class_in(table: &[u8; 512], word: u32) -> u8
    ensures { result ≡ get_or table.now (opcode_of word * 4 + 1) 0 }
{
    column(table, word, 1)
}

pub fn companion_in(table: &[u8; 512], word: u32) -> u8
    ensures { result ≡ get_or table.now (opcode_of word * 4 + 2) 0 }
{
    column(table, word, 2)
}

// The columns of the opcode table, for single calls.

#[tactic(auto, using(crate::proofs::Entries::entry))]
pub fn mode(word: u32) -> u8
    ensures { result ≡ mode_number (mode_of (opcode_of word)) }
{
    let entries = table();
    column(&entries, word, 0)
}

#[tactic(auto, using(crate::proofs::Bytes::low_half))]
pub fn step_class(word: u32) -> u8
    ensures { result ≡ class_number (class_of (opcode_of word)) }
{
    companion_and_class(word) % 16
}

#[tactic(auto, using(crate::proofs::Bytes::high_half))]
pub fn companion(word: u32) -> u8
    ensures { result ≡ companion_number (companion_of (opcode_of word)) }
{
    companion_and_class(word) / 16
}

#[tactic(auto, using(crate::proofs::Bytes::rule_byte))]
pub fn fallback(word: u32) -> u8
    ensures { result ≡ fallback_number (fallback_of (opcode_of word)) }
{
    let opcode = word % 128;
    byte(eight_fallbacks(opcode / 8), opcode)
}
