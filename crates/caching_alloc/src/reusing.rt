ghost use Rattle.caching_alloc.specs.Ownership.{block_token};

use crate::pool::{LARGEST, Pool};
use std::alloc::{AllocError, Allocator};
use std::fmt;
use std::mem::size_of;

/// An allocator over another that keeps small blocks that were given back, and hands them out
/// again.
///
/// It is lent: `&Reusing<Global>` is an allocator and is `Copy`. A request for at most 1024 bytes
/// gets a block of 32, 64, 128, 256, 512 or 1024 bytes, whichever is the least that holds them. At
/// most four blocks of each of these sizes are kept, and if none is kept the inner allocator is
/// asked for one. It is asked for larger blocks each time, grows and shrinks them in its own way,
/// and has each back at once. A request that it refuses is refused here, and no other.
///
/// The blocks that are kept go back when the allocator is dropped.
pub struct Reusing<A: Allocator> {
    pool: Pool<A>,
}

impl<A: Allocator> Reusing<A> {
    /// Returns an allocator over `inner` that keeps nothing yet.
    pub fn new(inner: A) -> Reusing<A> {
        Reusing {
            pool: Pool::new(inner),
        }
    }

    /// Returns the inner allocator.
    pub fn inner(&self) -> &A {
        self.pool.inner()
    }
}

unsafe impl<A: Allocator> Allocator for Reusing<A> {
    ghost dealloc_token = { λ r. block_token (A.dealloc_token r.pool.inner) };

    #[inline]
    fn allocate(&self, size: usize, align: usize) -> Result<*mut u8, AllocError> {
        self.pool.allocate(size, align)
    }

    #[inline]
    unsafe fn deallocate(&self, ptr: *mut u8, size: usize, align: usize) {
        self.pool.deallocate(ptr, size, align);
    }

    unsafe fn grow<T>(
        &self,
        ptr: *mut T,
        len: usize,
        old_cap: usize,
        new_cap: usize,
    ) -> Result<*mut T, AllocError> {
        if old_cap * size_of::<T>() > LARGEST {
            return self.pool.inner.grow(ptr, len, old_cap, new_cap);
        }
        self.pool.grow(ptr, len, old_cap, new_cap)
    }

    unsafe fn shrink<T>(
        &self,
        ptr: *mut T,
        len: usize,
        old_cap: usize,
        new_cap: usize,
    ) -> Result<*mut T, AllocError> {
        if new_cap * size_of::<T>() > LARGEST {
            return self.pool.inner.shrink(ptr, len, old_cap, new_cap);
        }
        self.pool.shrink(ptr, len, old_cap, new_cap)
    }
}

impl<A: Allocator> fmt::Debug for Reusing<A> {
    fn fmt<W: fmt::Write>(&self, f: &mut fmt::Formatter<W>) -> fmt::Result {
        f.write_str("Reusing")
    }
}

impl<A: Allocator> Drop for Reusing<A> {
    fn drop(self) {
        let Reusing { pool } = self;
        drop(pool);
    }
}
