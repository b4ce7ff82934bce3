// A list of at most `N` items, held in an array.
ghost use Rattle.std.specs.Prelude.{◌≡◌, ◌≤◌, length, ⊤};

use std::alloc::AllocError;

// The first `len` slots hold the items. What the others hold is of no account.
//
// It is `Copy`, so it has no model: one that forgets the unused slots could not be.
// Kept: an array and a length. A library has no heap, and a sheet has to be `Copy`, which the toolchain's `arrayvec` is not.
pub struct FixedList<T, const N: usize> {
    pub(crate) slots: [T; N],
    pub(crate) len: usize,
    ghost whole: { length slots ≡ N },
    ghost few: { len ≤ N },
}

// Kept: by hand. A generic struct with a ghost field derives no `Clone`.
impl<T: Copy, const N: usize> Clone for FixedList<T, N> {
    ghost is_clone = { λ list copy. copy ≡ list };

    ghost is_infallible = { λ _. ⊤ };

    fn clone(&self) -> Result<Self, AllocError> {
        Ok(*self)
    }
}

impl<T: Copy, const N: usize> Copy for FixedList<T, N> {}
