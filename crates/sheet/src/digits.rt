// A number's last digit as a byte of text.
ghost use Rattle.std.specs.Prelude.{◌≡◌};
ghost use Rattle.sheet.specs.Columns.{digit_of, glyph_of};

// The last digit of v.
pub(crate) fn digit(v: u64) -> u8
    ensures { result ≡ digit_of v }
{
    b'0' + (v % 10) as u8
}

// The last digit of v, or a blank where v is 0: what a column left of the last one shows.
pub(crate) fn glyph(v: u64) -> u8
    ensures { result ≡ glyph_of v }
{
    if v == 0 { b' ' } else { digit(v) }
}
