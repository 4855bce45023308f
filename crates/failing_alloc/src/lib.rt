//! The tools by which tests refuse: an allocator that refuses exactly one request, the one whose
//! number it is given, and a reader and a writer that are slow and fail at one call.
//!
//! A test runs its code once for each number from 1 on, until a run meets no refusal. So each place
//! that asks for memory is refused in turn, and the test sees which events the caller gets and
//! which state is left.
#![tactic(auto)]

pub mod byte_reader;
pub mod fixed_writer;
mod tally;

use crate::tally::Tally;
use std::alloc::{AllocError, Allocator};
use std::cell::Cell;

/// An allocator that passes each request on to another, and refuses the one request that
/// `refuse_at` names.
///
/// It is lent: `&Refusing<Global>` is an allocator and is `Copy`. A request is one for a block, for
/// a larger one or for a smaller one. Giving a block back is no request, and is never refused.
///
/// No contract can say which value a cell holds, so the number that is refused is tested, and not
/// proved.
pub struct Refusing<B: Allocator> {
    inner: B,
    tally: Cell<Tally>,
}

impl<B: Allocator> Refusing<B> {
    /// Returns an allocator over `inner` that refuses nothing.
    pub fn new(inner: B) -> Refusing<B> {
        Refusing {
            inner,
            tally: Cell::new(Tally::refusing(0)),
        }
    }

    /// Starts the count anew: the request with the number `at`, counted from 1 on from here, is
    /// refused, and every other one is passed on. No request has the number 0.
    pub fn refuse_at(&self, at: u64) {
        self.tally.set(Tally::refusing(at));
    }

    /// Has a request been refused since the count started?
    pub fn has_refused(&self) -> bool {
        self.tally.get().has_refused()
    }

    /// Returns the requests since the count started, the refused one among them.
    pub fn requests(&self) -> u64 {
        self.tally.get().requests()
    }
}

impl<B: Allocator> Drop for Refusing<B> {
    fn drop(self) {
        let Self { inner: _, tally: _ } = self;
    }
}

/// Counts one more request. Is it the one to refuse?
fn is_refused(tally: &Cell<Tally>) -> bool {
    let counted = tally.get().next();
    tally.set(counted);
    counted.is_refused()
}

unsafe impl<B: Allocator> Allocator for Refusing<B> {
    ghost dealloc_token = { λ heap ty ptr. B.dealloc_token heap.inner ty ptr };

    fn allocate(&self, size: usize, align: usize) -> Result<*mut u8, AllocError> {
        if is_refused(&self.tally) {
            return Err(AllocError);
        }
        self.inner.allocate(size, align)
    }

    unsafe fn deallocate(&self, ptr: *mut u8, size: usize, align: usize) {
        self.inner.deallocate(ptr, size, align);
    }
}
