// Why a file is no chunk that is read here, for a program that says it in words. Numbers 14 and 15 do not
// tell a Lua of another version from a picture.
ghost use Rattle.std.specs.Prelude.{◌≡◌};
ghost use Rattle.headers.specs.Refusing.{why_refused};

use common::Refusal;
use lundump::inner::header;

#[derive(Drop)]
pub enum Why {
    // The file does not begin with LUA_SIGNATURE.
    NotLua,
    // A chunk of Lua 5.3.
    Lua53,
    // A chunk of a version that is neither 5.3 nor 5.4.
    OtherVersion,
    // A chunk of 5.4 with another format, byte order, or size of words or numbers.
    OtherNumbers,
    // The header is right as far as there are bytes: the bytes end early, or what follows is refused.
    Damaged,
}

// The reason, whatever the number is: of a chunk that is accepted it is `Damaged`, which says nothing then.
// The first four bytes are LUA_SIGNATURE, "\x1bLua".
#[tactic(auto, unfolding(crate::specs::Refusing::signed, crate::specs::Refusing::why_refused))]
pub fn why_refused(chunk: &[u8]) -> Why
    ensures { result ≡ why_refused chunk.now }
{
    match chunk {
        [27, 76, 117, 97] => Why::Damaged,
        [27, 76, 117, 97, 83, ..] => Why::Lua53,
        [27, 76, 117, 97, 84, ..] => match header(chunk) {
            Err(Refusal::HeaderDiffers) => Why::OtherNumbers,
            _ => Why::Damaged,
        },
        [27, 76, 117, 97, _, ..] => Why::OtherVersion,
        _ => Why::NotLua,
    }
}
