// The page on which an answer is written, before it goes out at once; and how large it
// and the input's buffer are.
ghost use Rattle.std.specs.Prelude.{◌≡◌, length};
ghost use Rattle.listing.specs.Claims.{page_length};

// Of an input 45,057 bytes decide, 4,096 lines of 11 and one byte more, so a longer
// one is not read to its end.
pub(crate) const BUFFER: usize = 65536;

// The longest answer: 4,096 lines of 31 bytes, and the last one of 13.
pub(crate) const PAGE: usize = 126989;

// A page for any answer.
pub fn page() -> [u8; PAGE]
    ensures { page_length ≡ length result }
{
    [0; PAGE]
}
