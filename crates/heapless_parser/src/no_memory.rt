//! An allocator that has no memory.
ghost use Rattle.std.specs.Borrow.{ffalse};

use std::alloc::{AllocError, Allocator};

/// Refuses each request.
#[derive(Clone, Copy)]
pub struct NoMemory;

unsafe impl Allocator for NoMemory {
    ghost dealloc_token = { λ _ _ _. ffalse };

    fn allocate(&self, _size: usize, _align: usize) -> Result<*mut u8, AllocError> {
        Err(AllocError)
    }

    unsafe fn deallocate(&self, _ptr: *mut u8, _size: usize, _align: usize) {}
}
