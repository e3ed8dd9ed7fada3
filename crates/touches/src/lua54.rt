// Lua 5.4.8.
ghost use Rattle.fields.specs.declared.version.Version.TheVariants.{Lua54};

pub(crate) mod table;

use crate::arguments::Arguments;
use crate::dialect::Dialect;
use steps::lua54::successors::successors;

pub(crate) struct Dialect54;

impl Dialect for Dialect54 {
    ghost version = { Lua54 };

    fn arguments(word: u32) -> Arguments {
        Arguments {
            a: (word / 128 % 256) as u8,
            k: (word / 32768 % 2) as u8,
            b: (word / 65536 % 256) as u16,
            c: (word / 16777216 % 256) as u16,
            bx: word / 32768 % 131072,
            ax: word / 128 % 33554432,
        }
    }

    fn opcode(word: u32) -> usize {
        (word % 128) as usize
    }

    fn is_bad(words: &[u32], p: usize) -> bool {
        successors(words, p).is_invalid()
    }
}
