//! The links of a screen.
ghost use Rattle.std.specs.Prelude.{◌≡◌, ◌<◌, [], ◌∷◌, ◌++◌, get_or, if◌then◌else◌, length, map, OnErr, OnOk, IfOk};
ghost use Rattle.esc_terminal.specs.Links.{leads, link_place, same_target, target, target_number, with_target};
ghost use Rattle.esc_terminal.specs.Slots.{link_slot};
ghost use Rattle.fallible_alloc.specs.Refusals.{Refused};

use crate::chains::Chains;
use crate::slots::link_slot;
use esc_osc::Hyperlink;
use std::alloc::{AllocError, Allocator, Global};
use std::marker::Model;

// How many links are kept.
const MOST_LINKS: usize = 0x400;

// How many bytes of an address VTE and iTerm2 take.
const LONGEST_ADDRESS: usize = 2083;

/// The links that came, each once, in the order in which they came. Contracts see these.
#[derive(Drop)]
pub(crate) struct Links<A: Allocator = Global> {
    all: Vec<Hyperlink<A>, A>,
    // their slots
    places: Chains<A>,
}

impl<A: Allocator> Model for Links<A> {
    ghost use Rattle.std.specs.Prelude.{◌≡◌, List, map};
    ghost use Rattle.esc_links.specs.declared.hyperlink.Hyperlink.{Hyperlink as TheLink};
    ghost use Rattle.esc_terminal.specs.Slots.{link_slot};

    ghost Value = { List (TheLink A) };

    ghost view = { λ p. p.all.items };

    ghost invariant = { λ p. p.places ≡ map link_slot p.all.items };
}

impl<A: Allocator + Copy> Links<A> {
    /// No links.
    pub fn new(alloc: A) -> Result<Links<A>, AllocError>
        ensures none { IfOk result (λ p. p ≡ []) }
        ensures refused { OnErr result (Refused A) }
    {
        Ok(Links {
            all: Vec::new(alloc),
            places: Chains::new(alloc)?,
        })
    }
}

impl<A: Allocator> Links<A> {
    /// All of them.
    pub fn as_slice(&self) -> &[Hyperlink<A>]
        ensures { result.now ≡ self.now }
    {
        &self.all
    }

    /// The number of a link, which is kept, if there is room for it.
    #[tactic(auto, using(crate::proofs::LinksKept::link_kept, crate::proofs::LinksKept::link_same))]
    pub fn keep(&mut self, link: Hyperlink<A>) -> Result<Option<u16>, AllocError>
        ensures is { IfOk result (λ n. n ≡ target_number (target link) (map target self.old)) }
        ensures links { OnOk result (map target self.new
            ≡ with_target (target link) (map target self.old)) }
        ensures refused { OnErr result (Refused A) }
    {
        let place = link_place(&self.all, &self.places, &link);
        if place >= MOST_LINKS {
            return Ok(None);
        }
        if place != self.all.len() {
            return Ok(Some(place as u16));
        }
        self.add(link)?;
        Ok(Some(place as u16))
    }

    // Adds a link.
    fn add(&mut self, link: Hyperlink<A>) -> Result<(), AllocError>
        requires { length self.old < 0x400 }
        ensures ok { OnOk result (self.new ≡ self.old ++ link ∷ []) }
        ensures refused { OnErr result (Refused A) }
    {
        let slot = link_slot(&link);
        fallible_alloc::push(&mut self.all, link)?;
        let result = self.places.push(slot);
        if result.is_err() {
            self.all.pop();
        }
        result
    }
}

/// Whether characters after this link lead somewhere: it has an address, of no more bytes than
/// terminals take.
pub(crate) fn leads<A: Allocator>(link: &Hyperlink<A>) -> bool
    ensures { result ≡ leads (target link.now) }
{
    0 < link.uri.len() && link.uri.len() <= LONGEST_ADDRESS
}

// The place of a link among these; if it is not among them, how many they are. The walk along the
// chain of its slot ends at the first place.
fn link_place<A: Allocator>(
    links: &[Hyperlink<A>],
    places: &Chains<A>,
    link: &Hyperlink<A>,
) -> usize
    requires { places.now ≡ map link_slot links.now }
    ensures { result ≡ link_place (target link.now) (map target links.now) }
{
    let mut found = links.len();
    let mut end = places.end(link_slot(link));
    while 0 < end {
        found = chosen(links, end - 1, link, found);
        end = places.end_before(end - 1);
    }
    found
}

// A place, if the link is there, and else this one.
#[inline]
#[tactic(auto, using(crate::proofs::LinksKept::target_here, crate::proofs::LinksKept::length_targets))]
fn chosen<A: Allocator>(
    links: &[Hyperlink<A>],
    place: usize,
    link: &Hyperlink<A>,
    found: usize,
) -> usize
    requires { place < length links.now }
    ensures { result ≡ (if same_target (get_or (map target links.now) place ([], []))
        (target link.now) then place else found) }
{
    if is_same(&links[place], link) {
        place
    } else {
        found
    }
}

// Whether two links have the same parameters and the same address.
fn is_same<A: Allocator>(one: &Hyperlink<A>, other: &Hyperlink<A>) -> bool
    ensures { result ≡ same_target (target one.now) (target other.now) }
{
    one.params == other.params && one.uri == other.uri
}
