//! The looks and links of characters, whose numbers the cells of a screen have.
ghost use Rattle.std.specs.Prelude.{◌≡◌, OnErr, OnOk, IfOk, map};
ghost use Rattle.std.specs.Option.{option_map};
ghost use Rattle.esc_terminal.specs.Links.{Known, first_known, known_look, known_of, known_target, lead_number, lead_of, link_number, linked_number, look_number, target, with_lead, with_linked};
ghost use Rattle.esc_terminal.specs.Looks.{number_in, with_look};
ghost use Rattle.fallible_alloc.specs.Refusals.{Refused};

use crate::linked::LinkedLooks;
use crate::links::{Links, leads};
use crate::looks::{Looks, MOST_LOOKS};
use esc_osc::Hyperlink;
use esc_style::Look;
use std::alloc::{AllocError, Allocator, Global};

/// A look of characters that lead somewhere: the numbers of a look and of a link.
#[derive(Clone, Copy)]
pub struct Linked {
    /// The number of the look.
    pub look: u16,
    /// The number of the link.
    pub link: u16,
}

/// The looks and links of the characters of a terminal: a cell has the number of both.
///
/// At most 4,096 looks are kept, and a further one is plain; 1,024 links; and 4,096 looks of
/// characters that lead somewhere: those of a further one lead nowhere. Each link is kept once.
#[derive(Drop)]
pub struct Styles<A: Allocator = Global> {
    pub(crate) looks: Looks<A>,
    pub(crate) links: Links<A>,
    pub(crate) linked: LinkedLooks<A>,
}

impl<A: Allocator + Copy> Styles<A> {
    /// The plain look alone.
    pub(crate) fn new(alloc: A) -> Result<Styles<A>, AllocError>
        ensures known { IfOk result (λ p. known_of p ≡ first_known) }
        ensures refused { OnErr result (Refused A) }
    {
        Ok(Styles {
            looks: Looks::new(alloc)?,
            links: Links::new(alloc)?,
            linked: LinkedLooks::new(alloc)?,
        })
    }
}

impl<A: Allocator> Styles<A> {
    /// The look of a number.
    pub fn look_at(&self, number: u16) -> Look
        ensures { result ≡ known_look number (known_of self.now) }
    {
        self.looks.at(self.look_number(number))
    }

    /// Returns the target of the cells of a number, if they have one.
    #[tactic(auto, using(crate::proofs::LinksKept::target_here, crate::proofs::LinksKept::length_targets))]
    pub fn link_at(&self, number: u16) -> Option<&Hyperlink<A>>
        ensures { option_map (λ h. target h.now) result ≡ known_target number (known_of self.now) }
    {
        let links = self.links.as_slice();
        match self.link_number(number) {
            Some(link) => {
                if (link as usize) < links.len() {
                    Some(&links[link as usize])
                } else {
                    None
                }
            }
            None => None,
        }
    }

    /// All links that are kept, in the order in which they came.
    pub fn links(&self) -> &[Hyperlink<A>]
        ensures { map target result.now ≡ (known_of self.now).links }
    {
        self.links.as_slice()
    }

    /// The place of the link of a number among those that are kept.
    pub fn link_number(&self, number: u16) -> Option<u16>
        ensures { result ≡ link_number number (known_of self.now).linked }
    {
        if (number as usize) < MOST_LOOKS {
            return None;
        }
        let linked = self.linked.as_slice();
        let place = number as usize - MOST_LOOKS;
        if place < linked.len() {
            Some(linked[place].link)
        } else {
            None
        }
    }

    // The number of the look of a number.
    pub(crate) fn look_number(&self, number: u16) -> u16
        ensures { result ≡ look_number number (known_of self.now).linked }
    {
        if (number as usize) < MOST_LOOKS {
            return number;
        }
        match self.linked.as_slice().get(number as usize - MOST_LOOKS) {
            Some(linked) => linked.look,
            None => 0,
        }
    }

    /// The number of a look that leads nowhere, which is kept.
    pub(crate) fn keep_look(&mut self, look: &Look) -> Result<u16, AllocError>
        ensures number { IfOk result (λ n. n ≡ number_in look.now (known_of self.old).looks) }
        ensures known { OnOk result (known_of self.new ≡ record (known_of self.old) {
          looks = with_look look.now (known_of self.old).looks;
        }) }
        ensures refused { OnErr result (Refused A) }
    {
        self.looks.keep(look)
    }

    /// Returns the number of a link, which is kept, if it leads somewhere.
    pub(crate) fn keep_link(
        &mut self,
        link: Option<Hyperlink<A>>,
    ) -> Result<Option<u16>, AllocError>
        ensures is { IfOk result (λ n. n ≡ lead_number (lead_of link) (known_of self.old).links) }
        ensures known { OnOk result (known_of self.new ≡ record (known_of self.old) {
          links = with_lead (lead_of link) (known_of self.old).links;
        }) }
        ensures refused { OnErr result (Refused A) }
    {
        match link {
            Some(link) => {
                if leads(&link) {
                    self.links.keep(link)
                } else {
                    Ok(None)
                }
            }
            None => Ok(None),
        }
    }

    /// The number of a look of characters that lead to this link, which is kept.
    pub(crate) fn keep_linked(&mut self, look: u16, link: Option<u16>) -> Result<u16, AllocError>
        ensures number { IfOk result (λ n. n ≡ linked_number look link (known_of self.old).linked) }
        ensures known { OnOk result (known_of self.new ≡ record (known_of self.old) {
          linked = with_linked look link (known_of self.old).linked;
        }) }
        ensures refused { OnErr result (Refused A) }
    {
        match link {
            Some(link) => self.linked.keep(Linked { look, link }),
            None => Ok(look),
        }
    }
}
