// The program's fixed tables, each from a function, so that its length is all that is known of it.
// All lie on the stack: 4 MiB for a file, 2 for two numbers of each of 131,072 functions;
// beside them half of one for a function's words, in crate `owner`.
ghost use Rattle.std.specs.Prelude.{◌≡◌, length};
ghost use Rattle.common.specs.Limits.{file_bytes, most_functions};

use common::limits::{FILE_BYTES, MOST_FUNCTIONS};

pub fn bytes() -> [u8; FILE_BYTES]
    ensures { file_bytes ≡ length result }
{
    [0; FILE_BYTES]
}

pub fn places() -> [u64; MOST_FUNCTIONS]
    ensures { most_functions ≡ length result }
{
    [0; MOST_FUNCTIONS]
}

// What each opcode weighs where nothing else is said.
pub fn weights() -> [u8; 128]
    ensures { 128 ≡ length result }
{
    [1; 128]
}
