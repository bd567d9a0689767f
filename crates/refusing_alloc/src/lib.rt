//! An allocator for tests, which refuses one chosen allocation.
//!
//! A test makes its value over a `&` to a `RefusesNth`, for nth = 1, 2, .. until a run meets no refusal. So every growth
//! that its calls ask for is refused in turn, and the test sees that the call answers so and changes nothing.
#![tactic(auto)]

use std::alloc::{AllocError, Allocator};
use std::cell::Cell;

/// An allocator that refuses the nth allocation made of it, and has the inner allocator answer every other call.
///
/// Each growth of a collection is one allocation, and so is each shrinking: a block is resized by a new one in its
/// place. A refused call answers `AllocError` and leaves every block as it was; the same call made again is granted.
/// A `&` to this is an allocator too, and is `Copy`. It stays on one thread.
#[derive(Drop)]
pub struct RefusesNth<B: Allocator> {
    inner: B,
    // how many allocations are left up to the refused one, with it; 0 once it has come
    left: Cell<u64>,
    nth: u64,
}

impl<B: Allocator> RefusesNth<B> {
    /// Refuses the nth allocation from now on, counted from 1; at 0 it refuses none.
    pub fn new(inner: B, nth: u64) -> RefusesNth<B> {
        RefusesNth {
            inner,
            left: Cell::new(nth),
            nth,
        }
    }

    /// Whether the refusal has come.
    pub fn has_refused(&self) -> bool {
        self.nth > 0 && self.left.get() == 0
    }
}

// Counts an allocation, and says whether it is the one to refuse.
fn count_down_to_refusal(left: &Cell<u64>) -> bool {
    let count = left.get();
    left.set(count.saturating_sub(1));
    count == 1
}

unsafe impl<B: Allocator> Allocator for RefusesNth<B> {
    ghost dealloc_token = { λ heap ty ptr. B.dealloc_token heap.inner ty ptr };

    fn allocate(&self, size: usize, align: usize) -> Result<*mut u8, AllocError> {
        if count_down_to_refusal(&self.left) {
            return Err(AllocError);
        }
        self.inner.allocate(size, align)
    }

    unsafe fn deallocate(&self, ptr: *mut u8, size: usize, align: usize) {
        self.inner.deallocate(ptr, size, align);
    }
}
