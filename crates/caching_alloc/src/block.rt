// A block as the inner allocator sees it.
ghost use Rattle.std.specs.Prelude.{◌≡◌, ℕ, IfSome};
ghost use Rattle.std.specs.Allocator.{owned_block};
ghost use Rattle.caching_alloc.specs.Sizes.{IsBlockSize};
ghost use Rattle.caching_alloc.specs.Ownership.{units_of};

use std::alloc::Allocator;
use std::marker::{Model, PhantomData};

// Blocks are aligned to it, and their sizes are multiples of it.
pub(crate) const UNIT: usize = 16;

// A block of `size` bytes that `alloc` gave, in which nothing lies.
pub(crate) struct Block<A: Allocator> {
    pub(crate) ptr: *mut u8,
    pub(crate) marker: PhantomData<A>,
    ghost alloc: { A },
    ghost size: { ℕ },
}

impl<A: Allocator> Model for Block<A> {
    ghost also_owns = { λ b. owned_block (A.dealloc_token b.alloc) (units_of b.size) b.ptr };
}

impl<A: Allocator> Block<A> {
    pub(crate) fn new(alloc: &A, size: usize) -> Option<Block<A>>
        requires { IsBlockSize size }
        ensures { IfSome result (λ b. (b.alloc ≡ alloc.now) × (b.size ≡ size)) }
    {
        match alloc.allocate(size, UNIT) {
            Ok(ptr) => Some(Block {
                ptr,
                marker: PhantomData,
            }),
            Err(_) => None,
        }
    }

    pub(crate) fn free(self, alloc: &A, size: usize)
        requires { (self.alloc ≡ alloc.now) × (self.size ≡ size) × IsBlockSize size }
    {
        let Block { ptr, marker: _ } = self;
        unsafe { alloc.deallocate(ptr, size, UNIT) }
    }
}
