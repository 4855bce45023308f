//! A hash table of places in a list: those of one slot are a chain, from the last one back.
ghost use Rattle.std.specs.Prelude.{◌≡◌, ◌≤◌, ◌<◌, ◌++◌, [], ◌∷◌, get_or, length, IfOk, OnErr, OnOk};
ghost use Rattle.esc_terminal.specs.Chains.{end_before};
ghost use Rattle.fallible_alloc.specs.Refusals.{Refused};

use std::alloc::{AllocError, Allocator, Global};
use std::marker::Model;

/// How many slots there are.
pub(crate) const SLOTS: usize = 0x400;

// A place: its slot, and the end of the chain before it.
#[derive(Clone, Copy)]
struct Link {
    slot: u16,
    before: u16,
}

/// The slots of a list's items. Contracts see these.
///
/// A chain ends at the place before its `end`, and there is none if that is 0.
#[derive(Drop)]
pub(crate) struct Chains<A: Allocator = Global> {
    ends: Vec<u16, A>,
    links: Vec<Link, A>,
}

impl<A: Allocator> Model for Chains<A> {
    ghost use Rattle.std.specs.Prelude.{ℕ, List};
    ghost use Rattle.esc_terminal.specs.Chains.{IsChained, slots_of};

    ghost Value = { List ℕ };

    ghost view = { λ p. slots_of p.links.items };

    ghost invariant = { λ p. IsChained p.ends.items p.links.items };
}

impl<A: Allocator + Copy> Chains<A> {
    /// No items.
    pub fn new(alloc: A) -> Result<Chains<A>, AllocError>
        ensures empty { IfOk result (λ p. p ≡ []) }
        ensures refused { OnErr result (Refused A) }
    {
        Ok(Chains {
            ends: fallible_alloc::copied(alloc, &[0; SLOTS])?,
            links: Vec::new(alloc),
        })
    }
}

impl<A: Allocator> Chains<A> {
    /// The end of the chain of a slot.
    #[inline]
    pub fn end(&self, slot: u16) -> usize
        requires { slot < 0x400 }
        ensures { result ≡ end_before slot self.now (length self.now) }
    {
        self.ends[slot as usize] as usize
    }

    /// The end of the chain of a place before it.
    #[inline]
    pub fn end_before(&self, place: usize) -> usize
        requires { place < length self.now }
        ensures { result ≡ end_before (get_or self.now place 0) self.now place }
    {
        self.links[place].before as usize
    }

    /// Adds an item of this slot.
    pub fn push(&mut self, slot: u16) -> Result<(), AllocError>
        requires { (slot < 0x400) × (length self.old < 0x1000) }
        ensures ok { OnOk result (self.new ≡ self.old ++ slot ∷ []) }
        ensures err { OnErr result (self.new ≡ self.old) }
        ensures refused { OnErr result (Refused A) }
    {
        let before = self.ends[slot as usize];
        fallible_alloc::push(&mut self.links, Link { slot, before })?;
        self.ends[slot as usize] = self.links.len() as u16;
        Ok(())
    }
}
