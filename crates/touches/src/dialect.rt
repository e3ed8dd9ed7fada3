// What a version of Lua says of a word.
ghost use Rattle.std.specs.Prelude.{◌≡◌};
ghost use Rattle.fields.specs.declared.version.Version.{Version};
ghost use Rattle.sweep.specs.Steps.{is_invalid};
ghost use Rattle.runs.specs.Script.{steps_of};
ghost use Rattle.touches.specs.Words.{opcode_by, arguments_of};

use crate::arguments::Arguments;

pub(crate) trait Dialect {
    ghost version: { Version };

    fn arguments(word: u32) -> Arguments
        ensures { result ≡ arguments_of version word };

    fn opcode(word: u32) -> usize
        ensures { result ≡ opcode_by version word };

    fn is_bad(words: &[u32], p: usize) -> bool
        ensures { result ≡ is_invalid (steps_of version words.now p) };
}
