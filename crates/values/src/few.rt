// Lists of at most N, as a record holds them: without the heap, copied with it.
ghost use Rattle.std.specs.Prelude.{◌≡◌, get_or, ⊤};
ghost use Rattle.values.specs.Few.{few};

use std::alloc::AllocError;

// What the places past a list's end hold.
pub trait Filler: Copy {
    ghost filler: { Self };

    fn filler() -> Self
        ensures { result ≡ filler };
}

// What stands past the count is the filler in a list that `of` made.
pub struct Few<T: Filler, const N: usize> {
    pub slots: [T; N],
    pub count: usize,
}

impl<T: Filler, const N: usize> Copy for Few<T, N> {}

impl<T: Filler, const N: usize> Clone for Few<T, N> {
    ghost is_clone = { λ x y. y ≡ x };

    ghost is_infallible = { λ _. ⊤ };

    fn clone(&self) -> Result<Self, AllocError> {
        Ok(*self)
    }
}

impl<T: Filler, const N: usize> Few<T, N> {
    // The first N items, of more.
    pub fn of<const M: usize>(items: [T; M]) -> Self
        ensures { result ≡ few N T.filler items }
    {
        let count = M.min(N);
        let mut slots = [T::filler(); N];
        // Kept: item by item. copy_from_slice copies bytes, more at once than were just stored, for which
        // compiled code waits: a lift took twice as long, and 8 kB of stack where it now takes less than 1
        // kB.
        for k in 0..count {
            slots[k] = items[k];
        }
        Few { slots, count }
    }

    pub fn count(&self) -> usize
        ensures { result ≡ self.now.count }
    {
        self.count
    }

    // What place k holds, in the list or not; the filler where there is no such place.
    pub fn place(&self, k: usize) -> T
        ensures { result ≡ get_or self.now.slots k T.filler }
    {
        if k < N { self.slots[k] } else { T::filler() }
    }
}
