// The program's fixed tables, each from a function, so that its length is all that is known of it.
ghost use Rattle.std.specs.Prelude.{◌≡◌, length};
ghost use Rattle.survey.specs.Claims.{line_length};

// Bytes of the longest line.
pub(crate) const LINE: usize = 49;

// Room for N of a kind.
pub(crate) fn room<T: Copy, const N: usize>(empty: T) -> [T; N]
    ensures { N ≡ length result }
{
    [empty; N]
}

// Room for a chunk. What a longer input has past it is not read.
pub fn buffer() -> [u8; 262144]
    ensures { 262144 ≡ length result }
{
    room(0)
}

// Room for a line.
pub fn line_page() -> [u8; LINE]
    ensures { line_length ≡ length result }
{
    room(0)
}
