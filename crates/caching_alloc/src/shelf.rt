// The blocks of one size that are kept: four at most.
ghost use Rattle.std.specs.Prelude.{◌≡◌, IfSome};
ghost use Rattle.caching_alloc.specs.Sizes.{IsBlockSize};

use crate::block::Block;
use crate::slot::Slot;
use std::alloc::Allocator;

// A block is put into the first slot, the block that was there into the second, and so on. So if
// blocks are held one after another, the first slot alone is used.
pub(crate) struct Shelf<A: Allocator> {
    size: usize,
    first: Slot<A>,
    second: Slot<A>,
    third: Slot<A>,
    fourth: Slot<A>,
    ghost fits: { IsBlockSize size },
    ghost sized: { first.1 ≡ size },
    ghost same: { (second ≡ first) × (third ≡ first) × (fourth ≡ first) },
}

impl<A: Allocator> Shelf<A> {
    pub(crate) fn new(alloc: &A, size: usize) -> Shelf<A>
        requires { IsBlockSize size }
        ensures { result.first ≡ (alloc.now, size) }
    {
        Shelf {
            size,
            first: Slot::new(alloc, size),
            second: Slot::new(alloc, size),
            third: Slot::new(alloc, size),
            fourth: Slot::new(alloc, size),
        }
    }

    // Returns a block that is kept, or a new one.
    #[inline]
    pub(crate) fn take(&self, alloc: &A) -> Option<Block<A>>
        requires { self.now.first.0 ≡ alloc.now }
        ensures { IfSome result (λ b. (b.alloc ≡ self.now.first.0) × (b.size ≡ self.now.first.1)) }
    {
        match self.first.replace(None) {
            Some(block) => Some(block),
            None => self.take_other(alloc),
        }
    }

    // Does the same, if the first slot is empty.
    #[inline(never)]
    fn take_other(&self, alloc: &A) -> Option<Block<A>>
        requires { self.now.first.0 ≡ alloc.now }
        ensures { IfSome result (λ b. (b.alloc ≡ self.now.first.0) × (b.size ≡ self.now.first.1)) }
    {
        if let Some(block) = self.second.replace(None) {
            return Some(block);
        }
        if let Some(block) = self.third.replace(None) {
            return Some(block);
        }
        match self.fourth.replace(None) {
            Some(block) => Some(block),
            None => Block::new(alloc, self.size),
        }
    }

    // Keeps the block. If four are kept already, the one that was kept first goes back.
    #[inline]
    pub(crate) fn give(&self, alloc: &A, block: Block<A>)
        requires { (self.now.first.0 ≡ alloc.now) × (block.alloc ≡ self.now.first.0)
            × (block.size ≡ self.now.first.1) }
    {
        if let Some(block) = self.first.replace(Some(block)) {
            self.give_other(alloc, block);
        }
    }

    // Does the same, past the first slot.
    #[inline(never)]
    fn give_other(&self, alloc: &A, block: Block<A>)
        requires { (self.now.first.0 ≡ alloc.now) × (block.alloc ≡ self.now.first.0)
            × (block.size ≡ self.now.first.1) }
    {
        let Some(block) = self.second.replace(Some(block)) else {
            return;
        };
        let Some(block) = self.third.replace(Some(block)) else {
            return;
        };
        if let Some(block) = self.fourth.replace(Some(block)) {
            block.free(alloc, self.size);
        }
    }

    // Gives all blocks back.
    pub(crate) fn empty(self, alloc: &A)
        requires { self.first.0 ≡ alloc.now }
    {
        let Shelf {
            size,
            first,
            second,
            third,
            fourth,
        } = self;
        empty_slot(first, alloc, size);
        empty_slot(second, alloc, size);
        empty_slot(third, alloc, size);
        empty_slot(fourth, alloc, size);
    }
}

fn empty_slot<A: Allocator>(slot: Slot<A>, alloc: &A, size: usize)
    requires { (slot.0 ≡ alloc.now) × (slot.1 ≡ size) × IsBlockSize size }
{
    if let Some(block) = slot.into_inner() {
        block.free(alloc, size);
    }
}
