//! The looks of characters that lead somewhere.
ghost use Rattle.std.specs.Prelude.{◌≡◌, ◌<◌, [], ◌∷◌, ◌++◌, get_or, if◌then◌else◌, length, map, OnErr, OnOk, IfOk, Some};
ghost use Rattle.esc_terminal.specs.Links.{linked_number, linked_of, linked_place, same_linked, with_linked};
ghost use Rattle.esc_terminal.specs.Slots.{linked_slot};
ghost use Rattle.fallible_alloc.specs.Refusals.{Refused};

use crate::chains::Chains;
use crate::looks::MOST_LOOKS;
use crate::slots::linked_slot;
use crate::styles::Linked;
use std::alloc::{AllocError, Allocator, Global};
use std::marker::Model;

// How many of them are kept.
const MOST_LINKED: usize = 0x1000;

/// The looks of characters that lead somewhere, each once, in the order in which they came.
/// Contracts see these.
#[derive(Drop)]
pub(crate) struct LinkedLooks<A: Allocator = Global> {
    all: Vec<Linked, A>,
    // their slots
    places: Chains<A>,
}

impl<A: Allocator> Model for LinkedLooks<A> {
    ghost use Rattle.std.specs.Prelude.{◌≡◌, List, map};
    ghost use Rattle.esc_terminal.specs.Slots.{linked_slot};
    ghost use Rattle.esc_terminal.specs.declared.styles.Linked.{Linked as TheLinked};

    ghost Value = { List TheLinked };

    ghost view = { λ p. p.all.items };

    ghost invariant = { λ p. p.places ≡ map linked_slot p.all.items };
}

impl<A: Allocator + Copy> LinkedLooks<A> {
    /// None.
    pub fn new(alloc: A) -> Result<LinkedLooks<A>, AllocError>
        ensures none { IfOk result (λ p. p ≡ []) }
        ensures refused { OnErr result (Refused A) }
    {
        Ok(LinkedLooks {
            all: Vec::new(alloc),
            places: Chains::new(alloc)?,
        })
    }
}

impl<A: Allocator> LinkedLooks<A> {
    /// All of them.
    pub fn as_slice(&self) -> &[Linked]
        ensures { result.now ≡ self.now }
    {
        &self.all
    }

    /// The number of one, which is kept; that of its look, if there is no room for it.
    pub fn keep(&mut self, linked: Linked) -> Result<u16, AllocError>
        ensures number { IfOk result
            (λ n. n ≡ linked_number linked.look (Some linked.link) self.old) }
        ensures linked { OnOk result
            (self.new ≡ with_linked linked.look (Some linked.link) self.old) }
        ensures refused { OnErr result (Refused A) }
    {
        let place = linked_place(&self.all, &self.places, linked);
        if place >= MOST_LINKED {
            return Ok(linked.look);
        }
        if place == self.all.len() {
            self.add(linked)?;
        }
        Ok((MOST_LOOKS + place) as u16)
    }

    // Adds one.
    fn add(&mut self, linked: Linked) -> Result<(), AllocError>
        requires { length self.old < 0x1000 }
        ensures ok { OnOk result (self.new ≡ self.old ++ linked ∷ []) }
        ensures refused { OnErr result (Refused A) }
    {
        fallible_alloc::push(&mut self.all, linked)?;
        let result = self.places.push(linked_slot(linked));
        if result.is_err() {
            self.all.pop();
        }
        result
    }
}

// The place of one among these; if it is not among them, how many they are. The walk along the
// chain of its slot ends at the first place.
fn linked_place<A: Allocator>(all: &[Linked], places: &Chains<A>, linked: Linked) -> usize
    requires { places.now ≡ map linked_slot all.now }
    ensures { result ≡ linked_place linked all.now }
{
    let mut found = all.len();
    let mut end = places.end(linked_slot(linked));
    while 0 < end {
        found = chosen(all, end - 1, linked, found);
        end = places.end_before(end - 1);
    }
    found
}

// A place, if this one is there, and else the other place.
#[inline]
fn chosen(all: &[Linked], place: usize, linked: Linked, found: usize) -> usize
    requires { place < length all.now }
    ensures { result ≡ (if same_linked (get_or all.now place (linked_of 0 0)) linked
        then place else found) }
{
    if all[place].look == linked.look && all[place].link == linked.link {
        place
    } else {
        found
    }
}
