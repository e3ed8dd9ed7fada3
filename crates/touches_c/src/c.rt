// For C: the answer is numbers alone, so it leaves as it is.
ghost use Rattle.std.specs.Prelude.{◌≡◌};
ghost use Rattle.touches.specs.Touches.{touches_of};

use locations::answer::Touches;

#[unsafe(no_mangle)]
pub extern "C" fn lawendeb_touches(words: &[u32], p: usize) -> Touches
    ensures { result ≡ touches_of words.now p }
{
    touches::touches(words, p)
}
