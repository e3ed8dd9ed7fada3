// Lua 5.3.6.
ghost use Rattle.fields.specs.declared.version.Version.TheVariants.{Lua53};

pub(crate) mod table;

use crate::arguments::Arguments;
use crate::dialect::Dialect;
use steps::lua53::successors::successors;

pub(crate) struct Dialect53;

impl Dialect for Dialect53 {
    ghost version = { Lua53 };

    fn arguments(word: u32) -> Arguments {
        Arguments {
            a: (word / 64 % 256) as u8,
            k: 0,
            b: (word / 8388608 % 512) as u16,
            c: (word / 16384 % 512) as u16,
            bx: word / 16384 % 262144,
            ax: word / 64 % 67108864,
        }
    }

    fn opcode(word: u32) -> usize {
        (word % 64) as usize
    }

    fn is_bad(words: &[u32], p: usize) -> bool {
        successors(words, p).is_invalid()
    }
}
