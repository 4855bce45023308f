// A cell that holds a block of one allocator and one size, or nothing.
ghost use Rattle.std.specs.Prelude.{◌≡◌, ℕ, IfSome};
ghost use base.Fml.{fex, fsep, ftrue};
ghost use Rattle.caching_alloc.specs.Ownership.{behind_a_ref};

use crate::block::Block;
use std::alloc::Allocator;
use std::marker::{Move, Owns};

pub(crate) struct Slot<A: Allocator> {
    block: Option<Block<A>>,
}

// The allocator and the size.
impl<A: Allocator> Owns for Slot<A> {
    ghost Value = { A × ℕ };

    ghost shr_at = { λ s. behind_a_ref Fields
        (λ i. fex (IfSome i.block (λ b. (b.alloc ≡ s.0) × (b.size ≡ s.1))) (λ _. ftrue)) };
}

impl<A: Allocator> Move for Slot<A> {
    ghost own_val = { λ s vs. fex Inside (λ i. fsep (Fields.own_val i vs)
        (fex (IfSome i.block (λ b. (b.alloc ≡ s.0) × (b.size ≡ s.1))) (λ _. ftrue))) };
}

impl<A: Allocator> Slot<A> {
    pub(crate) fn new(_alloc: &A, _size: usize) -> Slot<A>
        ensures { (result.0 ≡ _alloc.now) × (result.1 ≡ _size) }
    {
        Slot { block: None }
    }

    pub(crate) fn replace(&self, block: Option<Block<A>>) -> Option<Block<A>>
        requires { IfSome block (λ b. (b.alloc ≡ self.now.0) × (b.size ≡ self.now.1)) }
        ensures { IfSome result (λ b. (b.alloc ≡ self.now.0) × (b.size ≡ self.now.1)) }
    {
        let place = &raw const self.block as *mut Option<Block<A>>;
        unsafe {
            let old = place.read();
            place.write(block);
            old
        }
    }

    pub(crate) fn into_inner(self) -> Option<Block<A>>
        ensures { IfSome result (λ b. (b.alloc ≡ self.0) × (b.size ≡ self.1)) }
    {
        let Slot { block } = self;
        block
    }
}
