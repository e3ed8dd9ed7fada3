// Strings: where their bytes lie.
ghost use Rattle.std.specs.Prelude.{◌≡◌, length, IfOk};
ghost use Rattle.loaders.specs.Loaders.{load_string_n};
ghost use Rattle.loaders.specs.Reading.{read_as};
ghost use Rattle.loaders.specs.Lent.{name_number, Inside, BytesBounded};

use crate::reading::{Read, block, unsigned_at};
use common::limits::SIZE_MAX;
use values::lookup::UNNAMED;

// Where a string's bytes start, and how many they are.
#[derive(Clone, Copy)]
pub struct Bytes {
    pub start: usize,
    pub size: usize,
}

// loadStringN
#[tactic(auto, unfolding(crate::specs::Loaders::load_string_n, crate::specs::Loaders::string_of))]
pub fn string(chunk: &[u8], at: usize) -> Read<Option<Bytes>>
    ensures value { result ≡ load_string_n chunk.now at }
    ensures inside { IfOk result (λ r. Inside (length chunk.now) r.0) }
{
    let (n, start) = unsigned_at(chunk, at, SIZE_MAX)?;
    if n == 0 {
        return Ok((None, start));
    }
    let size = n - 1;
    let past = block(chunk, start, size)?;
    Ok((Some(Bytes { start, size }), past))
}

// The string as a name's place.
pub fn name_at(chunk: &[u8], at: usize) -> Read<u64>
    requires { BytesBounded chunk.now }
    ensures { result ≡ read_as name_number (load_string_n chunk.now at) }
{
    let (name, past) = string(chunk, at)?;
    match name {
        None => Ok((UNNAMED, past)),
        Some(s) => Ok(((s.start + 4294967296 * s.size) as u64, past)),
    }
}
