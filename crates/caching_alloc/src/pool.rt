ghost use Rattle.std.specs.Prelude.{◌≡◌, ◌≤◌, IfSome};
ghost use Rattle.caching_alloc.specs.Sizes.{block_size};
ghost use Rattle.caching_alloc.specs.Ownership.{block_token};

use crate::block::Block;
use crate::shelf::Shelf;
use std::alloc::{AllocError, Allocator};
use std::marker::PhantomData;

// The largest block that is kept.
pub(crate) const LARGEST: usize = 1024;

// The blocks that are kept, and the allocator that they come from. It grows a block as any
// allocator does: it takes another and gives the old one back.
pub(crate) struct Pool<A: Allocator> {
    pub(crate) inner: A,
    to_32: Shelf<A>,
    to_64: Shelf<A>,
    to_128: Shelf<A>,
    to_256: Shelf<A>,
    to_512: Shelf<A>,
    to_1024: Shelf<A>,
    ghost small: { (to_32.first ≡ (inner, 32)) × (to_64.first ≡ (inner, 64))
        × (to_128.first ≡ (inner, 128)) },
    ghost large: { (to_256.first ≡ (inner, 256)) × (to_512.first ≡ (inner, 512))
        × (to_1024.first ≡ (inner, 1024)) },
}

impl<A: Allocator> Pool<A> {
    pub(crate) fn new(inner: A) -> Pool<A> {
        let to_32 = Shelf::new(&inner, 32);
        let to_64 = Shelf::new(&inner, 64);
        let to_128 = Shelf::new(&inner, 128);
        let to_256 = Shelf::new(&inner, 256);
        let to_512 = Shelf::new(&inner, 512);
        let to_1024 = Shelf::new(&inner, 1024);
        Pool {
            inner,
            to_32,
            to_64,
            to_128,
            to_256,
            to_512,
            to_1024,
        }
    }

    pub(crate) fn inner(&self) -> &A
        ensures { result.now ≡ self.now.inner }
    {
        &self.inner
    }

    // Returns the blocks for requests of `size` bytes.
    #[inline]
    fn shelf(&self, size: usize) -> &Shelf<A>
        requires { size ≤ 1024 }
        ensures { result.now.first ≡ (self.now.inner, block_size size) }
    {
        if size <= 32 {
            &self.to_32
        } else if size <= 64 {
            &self.to_64
        } else if size <= 128 {
            &self.to_128
        } else if size <= 256 {
            &self.to_256
        } else if size <= 512 {
            &self.to_512
        } else {
            &self.to_1024
        }
    }

    #[inline]
    fn take(&self, size: usize) -> Option<Block<A>>
        requires { size ≤ 1024 }
        ensures { IfSome result (λ b. (b.alloc ≡ self.now.inner) × (b.size ≡ block_size size)) }
    {
        self.shelf(size).take(&self.inner)
    }

    #[inline]
    fn give(&self, block: Block<A>, size: usize)
        requires { (size ≤ 1024) × (block.alloc ≡ self.now.inner) × (block.size ≡ block_size size) }
    {
        self.shelf(size).give(&self.inner, block);
    }
}

unsafe impl<A: Allocator> Allocator for Pool<A> {
    ghost dealloc_token = { λ r. block_token (A.dealloc_token r.inner) };

    #[inline]
    fn allocate(&self, size: usize, align: usize) -> Result<*mut u8, AllocError> {
        if size > LARGEST {
            return self.inner.allocate(size, align);
        }
        match self.take(size) {
            Some(Block { ptr, marker: _ }) => Ok(ptr),
            None => Err(AllocError),
        }
    }

    #[inline(never)]
    unsafe fn deallocate(&self, ptr: *mut u8, size: usize, align: usize) {
        if size > LARGEST {
            self.inner.deallocate(ptr, size, align);
            return;
        }
        let marker = PhantomData;
        self.give(Block { ptr, marker }, size);
    }
}

impl<A: Allocator> Drop for Pool<A> {
    fn drop(self) {
        let Pool {
            inner,
            to_32,
            to_64,
            to_128,
            to_256,
            to_512,
            to_1024,
        } = self;
        to_32.empty(&inner);
        to_64.empty(&inner);
        to_128.empty(&inner);
        to_256.empty(&inner);
        to_512.empty(&inner);
        to_1024.empty(&inner);
    }
}
