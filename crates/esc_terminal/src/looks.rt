//! The looks of a screen, which its cells have the numbers of.
ghost use Rattle.std.specs.Prelude.{◌≡◌, ◌<◌, [], ◌∷◌, ◌++◌, get_or, if◌then◌else◌, length, map, OnErr, OnOk, IfOk};
ghost use Rattle.esc_sgr.specs.Sgr.{same_look};
ghost use Rattle.esc_style.specs.Looks.{plain_look};
ghost use Rattle.esc_terminal.specs.Looks.{erased_look, look_at, number_in, place_of, with_look};
ghost use Rattle.esc_terminal.specs.Slots.{look_slot};
ghost use Rattle.fallible_alloc.specs.Refusals.{Refused};

use crate::chains::Chains;
use crate::slots::look_slot;
use esc_sequences::Underline;
use esc_sgr::is_same;
use esc_style::{Color, Look};
use std::alloc::{AllocError, Allocator, Global};
use std::marker::Model;

/// How many looks are kept.
pub(crate) const MOST_LOOKS: usize = 0x1000;

/// The looks that came, each once, in the order in which they came. Contracts see these.
#[derive(Drop)]
pub(crate) struct Looks<A: Allocator = Global> {
    all: Vec<Look, A>,
    // their slots
    places: Chains<A>,
}

impl<A: Allocator> Model for Looks<A> {
    ghost use Rattle.std.specs.Prelude.{◌≡◌, List, map};
    ghost use Rattle.esc_style.specs.declared.look.Look.{Look as TheLook};
    ghost use Rattle.esc_terminal.specs.Looks.{IsOnce};
    ghost use Rattle.esc_terminal.specs.Slots.{look_slot};

    ghost Value = { List TheLook };

    ghost view = { λ p. p.all.items };

    ghost invariant = { λ p. IsOnce p.all.items × (p.places ≡ map look_slot p.all.items) };
}

impl<A: Allocator + Copy> Looks<A> {
    /// The plain look alone.
    pub fn new(alloc: A) -> Result<Looks<A>, AllocError>
        ensures plain { IfOk result (λ p. p ≡ plain_look ∷ []) }
        ensures refused { OnErr result (Refused A) }
    {
        let plain = Look::plain();
        let mut all = Vec::new(alloc);
        fallible_alloc::push(&mut all, plain)?;
        let mut places = Chains::new(alloc)?;
        places.push(look_slot(&plain))?;
        Ok(Looks { all, places })
    }
}

impl<A: Allocator> Looks<A> {
    /// The look of a number.
    pub fn at(&self, number: u16) -> Look
        ensures { result ≡ look_at number self.now }
    {
        match self.all.get(number as usize) {
            Some(look) => *look,
            None => Look::plain(),
        }
    }

    /// The number of a look, which is kept.
    pub fn keep(&mut self, look: &Look) -> Result<u16, AllocError>
        ensures number { IfOk result (λ n. n ≡ number_in look.now self.old) }
        ensures looks { OnOk result (self.new ≡ with_look look.now self.old) }
        ensures refused { OnErr result (Refused A) }
    {
        let place = place_of(&self.all, &self.places, look);
        if place >= MOST_LOOKS {
            return Ok(0);
        }
        if place == self.all.len() {
            self.add(look)?;
        }
        Ok(place as u16)
    }

    // Adds a look that is not there.
    fn add(&mut self, look: &Look) -> Result<(), AllocError>
        requires new { place_of look.now self.old ≡ length self.old }
        requires room { length self.old < 0x1000 }
        ensures ok { OnOk result (self.new ≡ self.old ++ look.now ∷ []) }
        ensures refused { OnErr result (Refused A) }
    {
        fallible_alloc::push(&mut self.all, *look)?;
        let result = self.places.push(look_slot(look));
        if result.is_err() {
            self.all.pop();
        }
        result
    }
}

/// Returns the look of an erased cell if characters look so.
pub(crate) fn erased_look(look: &Look) -> Look
    ensures { result ≡ erased_look look.now }
{
    Look {
        bold: false,
        faint: false,
        italic: false,
        underline: Underline::None,
        blink: false,
        inverse: false,
        concealed: false,
        strikethrough: false,
        overline: false,
        foreground: Color::Default,
        background: look.background,
        underline_color: Color::Default,
    }
}

// The place of a look among these; if it is not among them, how many they are. It is compared with
// the first one, which is plain, before its slot is found.
fn place_of<A: Allocator>(looks: &[Look], places: &Chains<A>, look: &Look) -> usize
    requires { places.now ≡ map look_slot looks.now }
    ensures { result ≡ place_of look.now looks.now }
{
    match looks {
        [first, ..] if is_same(first, look) => 0,
        _ => place_in_slot(looks, places, look),
    }
}

// The same, by a walk along the chain of its slot, which ends at the first place.
fn place_in_slot<A: Allocator>(looks: &[Look], places: &Chains<A>, look: &Look) -> usize
    requires { places.now ≡ map look_slot looks.now }
    ensures { result ≡ place_of look.now looks.now }
{
    let mut found = looks.len();
    let mut end = places.end(look_slot(look));
    while 0 < end {
        found = chosen(looks, end - 1, look, found);
        end = places.end_before(end - 1);
    }
    found
}

// A place, if the look is there, and else this one.
#[inline]
fn chosen(looks: &[Look], place: usize, look: &Look, found: usize) -> usize
    requires { place < length looks.now }
    ensures { result ≡ (if same_look (get_or looks.now place plain_look) look.now
        then place else found) }
{
    if is_same(&looks[place], look) {
        place
    } else {
        found
    }
}
