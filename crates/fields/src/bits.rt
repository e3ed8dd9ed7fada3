// What the words of both versions are read by.
ghost use Rattle.std.specs.Prelude.{◌≡◌, ◌<◌, ◌^◌, pos, ◌-ℤ◌};
ghost use Rattle.fields.specs.Bits.{byte_of};

// A field read as a signed number: its value less an offset.
pub(crate) fn signed(field: u32, offset: u32) -> i32
    requires { (field < 2 ^ 31) × (offset < 2 ^ 31) }
    ensures { result ≡ pos field -ℤ pos offset }
{
    (field as i32) - (offset as i32)
}

// The byte of an opcode in the eight that it is one of.
pub(crate) fn byte(eight: u64, opcode: u32) -> u8
    ensures { result ≡ byte_of eight opcode }
{
    ((eight >> (opcode % 8 * 8)) % 256) as u8
}
