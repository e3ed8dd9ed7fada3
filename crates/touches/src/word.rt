// What a word touches (document 02, C-14 and C-24).
ghost use Rattle.std.specs.Prelude.{◌≡◌, false, [], ◌∷◌, ◌+◌, ◌-◌, ◌/◌, ◌%◌, ◌^◌, ◌<◌, length, get_or};
ghost use Rattle.fields.specs.declared.version.Version.TheVariants.{Lua54, Lua53};
ghost use Rattle.touches.specs.Accesses.{edge_of};
ghost use Rattle.touches.specs.Operands.{location_of};
ghost use Rattle.touches.specs.Table.{
  access_table,
  operand_from,
  edge_from,
  touches_from,
  touches_lent,
  touches_with,
};
ghost use Rattle.touches.specs.Touches.{touches_by, touches_for, touches_of};

use crate::arguments::Around;
use crate::dialect::Dialect;
use crate::lua53::Dialect53;
use crate::lua53::table::ACCESSES_53;
use crate::lua54::Dialect54;
use crate::lua54::table::ACCESSES;
use crate::operands::*;
use fields::lua53::word::OFFSET_SBX;
use locations::answer::Touches;
use locations::lists::{constants_in, ranges_in, top_in, upvalues_in};
use locations::location::Location;

fn word_at(words: &[u32], i: usize) -> u32
    ensures { result ≡ get_or words.now i 0 }
{
    words.get(i).copied().unwrap_or(0)
}

#[tactic(auto, unfolding(crate::specs::Table::edge_from))]
fn edge_of(edge: u64, p: usize, bx: u32) -> usize
    requires { p < 2 ^ 62 }
    ensures { result ≡ edge_of (edge_from edge) p bx }
{
    match edge {
        NO_EDGE => 0,
        P_1 => p + 1,
        P_2 => p + 2,
        P_1_BX => (p + 1).saturating_sub(bx as usize),
        // P_1_SBX
        _ => (p + 1 + bx as usize).saturating_sub(OFFSET_SBX as usize),
    }
}

// The answer for what is read, written on every way on, and written over one edge only.
#[tactic(auto, unfolding(crate::specs::Touches::touches_by))]
fn listed(reads: [Location; 3], writes: [Location; 3], edge: usize, more: [Location; 3]) -> Touches
    ensures { result ≡ touches_by reads writes edge more }
{
    Touches {
        reads: ranges_in(reads),
        reads_to_top: top_in(reads),
        constants: constants_in(reads),
        upvalues: upvalues_in(reads),
        writes: ranges_in(writes),
        writes_to_top: top_in(writes),
        upvalue_writes: upvalues_in(writes),
        edge_writes: ranges_in(more),
        edge,
    }
}

#[tactic(auto, unfolding(crate::specs::Touches::touches_by, locations::specs::Lists::gather))]
fn nothing() -> Touches
    ensures { result ≡ touches_by [] [] 0 [] }
{
    let none = [Location::Nothing; 3];
    listed(none, none, 0, none)
}

impl Around {
    // What the operand at a digit of the row stands for. Most are nothing, which is seen without a jump.
    #[inline(always)]
    #[tactic(auto, unfolding(crate::specs::Table::operand_from))]
    fn at(&self, row: u64, unit: u64) -> Location
        requires { 0 < unit }
        ensures { result
            ≡ location_of (operand_from (row / unit % 32)) self.now.raw self.now.before self.now.after }
    {
        match row / unit % 32 {
            NOTHING => Location::Nothing,
            operand => self.location_of(operand),
        }
    }

    // The answer by a row of the table.
    #[tactic(auto, unfolding(crate::specs::Table::touches_from))]
    fn touches(&self, row: u64, p: usize) -> Touches
        requires { p < 2 ^ 62 }
        ensures { result ≡ touches_from row self.now.raw self.now.before self.now.after p }
    {
        listed(
            [
                self.at(row, READ),
                self.at(row, READ_2),
                self.at(row, READ_3),
            ],
            [
                self.at(row, WRITE),
                self.at(row, WRITE_2),
                self.at(row, WRITE_3),
            ],
            edge_of(row / EDGE % 32, p, self.raw.bx),
            [
                self.at(row, ON_EDGE),
                self.at(row, ON_EDGE_2),
                self.at(row, ON_EDGE_3),
            ],
        )
    }
}

fn row_at(rows: &[u64], opcode: usize) -> u64
    ensures { result ≡ get_or rows.now opcode 0 }
{
    rows.get(opcode).copied().unwrap_or(0)
}

// By the rows of a table that is lent.
fn touched<D: Dialect>(rows: &[u64], words: &[u32], p: usize) -> Touches
    ensures { result ≡ touches_lent D.version rows.now words.now p }
{
    if D::is_bad(words, p) {
        return nothing();
    }
    let word = words[p];
    let around = Around {
        raw: D::arguments(word),
        before: D::arguments(word_at(words, p.saturating_sub(1))).a,
        after: D::arguments(word_at(words, p + 1)).ax,
    };
    around.touches(row_at(rows, D::opcode(word)), p)
}

// The table of 5.4, by value.
pub fn access_table() -> [u64; 128]
    ensures { result ≡ access_table }
{
    ACCESSES
}

// By a table that the caller lends.
pub fn touches_in(rows: &[u64; 128], words: &[u32], p: usize) -> Touches
    ensures { result ≡ touches_with rows.now words.now p }
{
    touched::<Dialect54>(rows, words, p)
}

pub fn touches(words: &[u32], p: usize) -> Touches
    ensures { result ≡ touches_of words.now p }
{
    touched::<Dialect54>(&ACCESSES, words, p)
}

// The same of 5.3.
pub fn touches_53(words: &[u32], p: usize) -> Touches
    ensures { result ≡ touches_for Lua53 words.now p }
{
    touched::<Dialect53>(&ACCESSES_53, words, p)
}
