// What is asked of words in the same way in either version of Lua.
ghost use Rattle.std.specs.Prelude.{◌≡◌, Bool, ℕ, ◌+◌, ◌<◌, ◌^◌, pos, ◌+ℤ◌, ◌-ℤ◌, length, get_or};
ghost use Rattle.sweep.specs.Steps.{one, two, unless};

use sweep::edges::Successors;
use sweep::inner::one_of;

// Word i; past the end it is 0, a MOVE, which is no companion.
pub(crate) fn word_at(words: &[u32], i: usize) -> u32
    ensures { result ≡ get_or words.now i 0 }
{
    words.get(i).copied().unwrap_or(0)
}

// A step from the next word by a field whose lowest value is -offset.
pub(crate) fn away(n: usize, next: usize, field: u32, offset: usize) -> Successors
    requires { next < 2 ^ 62 }
    ensures { result ≡ one n (pos next +ℤ (pos field -ℤ pos offset)) }
{
    let to = next + field as usize;
    if to < offset {
        return Successors::Invalid;
    }
    one_of(n, to - offset)
}

// Both next words of a word that wants a companion between them, and how it is known. The farther step is
// asked for first: where it is a word, the companion is one too.
pub(crate) fn past_companion<F: Fn(u32) -> bool>(
    words: &[u32],
    p: usize,
    is_companion: F,
) -> Successors
    ghost stands: { Bool }
    requires callable { F.IsAlwaysCallable is_companion }
    requires stands { (b : Bool) → F.post is_companion (get_or words.now (p + 1) 0) b → b ≡ stands }
    requires inside { p < length words.now }
    ensures { result ≡ unless stands (two (length words.now) (pos (p + 1)) (pos (p + 2))) }
{
    if p + 2 < words.len() && is_companion(words[p + 1]) {
        Successors::Two(p + 1, p + 2)
    } else {
        Successors::Invalid
    }
}
