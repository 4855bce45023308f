//! Text that is made of rows.
ghost use Rattle.std.specs.Prelude.{◌≡◌, None, OnErr, OnOk, Some, map, true};
ghost use Rattle.std.specs.List.{list_all};
ghost use Rattle.std.specs.Option.{option_map};
ghost use Rattle.esc_terminal.specs.Links.{target};
ghost use Rattle.fallible_alloc.specs.Refusals.{Refused};
ghost use Rattle.screen_lines.specs.Written.{out_of, text_of};
ghost use Rattle.screen_lines.specs.Parts.{emptied_out, first_out, out_by, out_from};
ghost use Rattle.screen_lines.specs.Parts.Part.{Change, Character, Lead, LineEnd};
ghost use Rattle.screen_lines.specs.Runs.{is_plain_char};

use crate::ink::Ink;
use crate::leads::{append_lead, id_of, room_after};
use crate::spelling::Spelling;
use crate::state::State;
use esc_filter::Unicode;
use esc_links::Hyperlink;
use esc_sgr::{is_same, push_change};
use esc_style::Look;
use fallible_alloc::{push_char, push_str};
use std::alloc::{AllocError, Allocator, Global};
use unicode_visibility::number_text;

/// The text of the rows that it takes, one after another, with a line feed between lines. A row
/// that goes on in the next one, by a wrap, is one line with it. Once a request for memory is
/// refused, some of the text may be missing.
#[derive(Drop)]
pub struct Lines<A: Allocator = Global> {
    pub(crate) text: String<A>,
    pub(crate) ink: Ink,
    // whether a line feed comes before the next row
    pub(crate) gap: bool,
    pub(crate) characters: Unicode,
}

impl<A: Allocator> Lines<A> {
    /// No rows. Takes no memory.
    pub fn new(alloc: A, characters: Unicode) -> Lines<A>
        ensures { out_of result ≡ first_out characters }
    {
        Lines {
            text: String::new(alloc),
            ink: Ink::first(),
            gap: false,
            characters,
        }
    }

    /// The text of the rows since it was cleared.
    pub fn as_str(&self) -> &str
        ensures { result.now ≡ text_of self.now }
    {
        self.text.as_str()
    }

    /// The same, with no text.
    pub fn cleared(mut self) -> Lines<A>
        ensures { out_of result ≡ emptied_out (out_of self) }
    {
        self.text.clear();
        self
    }

    /// Its state for the next rows, without its text.
    pub fn state(&self) -> State
        ensures { (result.ink ≡ self.now.ink) × (result.gap ≡ self.now.gap) }
    {
        State {
            ink: self.ink,
            gap: self.gap,
        }
    }

    /// The same text, at this state for the next rows.
    pub fn back_at(mut self, state: State) -> Lines<A>
        ensures { out_of result
            ≡ record (out_of self) { ink = state.ink; gap = state.gap } }
    {
        self.ink = state.ink;
        self.gap = state.gap;
        self
    }

    // Adds a character.
    #[inline]
    pub(crate) fn push(&mut self, c: char) -> Result<(), AllocError>
        ensures ok { OnOk result (out_of self.new
            ≡ out_by (out_of self.old) (Character c)) }
        ensures refused { OnErr result (Refused A) }
    {
        match Spelling::of(self.characters, self.ink.last, c) {
            Spelling::AsItIs => {
                self.ink = self.ink.after(c);
                push_char(&mut self.text, c)
            }
            Spelling::ByNumber => {
                self.ink = self.ink.after('>');
                push_str(&mut self.text, number_text(c).as_str())
            }
            Spelling::Absent => Ok(()),
        }
    }

    // Adds characters from U+0020 to U+007E.
    #[tactic(auto, using(crate::proofs::Runs::text_added))]
    #[inline]
    pub(crate) fn push_plain_text(&mut self, text: &str) -> Result<(), AllocError>
        requires { list_all is_plain_char text.now ≡ true }
        ensures ok { OnOk result (out_of self.new
            ≡ out_from (out_of self.old) (map Character text.now)) }
        ensures refused { OnErr result (Refused A) }
    {
        self.ink = self.ink.after_all(text.as_bytes());
        push_str(&mut self.text, text)
    }

    // Ends the line.
    pub(crate) fn end_line(&mut self) -> Result<(), AllocError>
        ensures ok { OnOk result (out_of self.new
            ≡ out_by (out_of self.old) LineEnd) }
        ensures refused { OnErr result (Refused A) }
    {
        self.ink = self.ink.broken();
        push_str(&mut self.text, "\n")
    }

    // Adds the rendition that makes a look from another one: nothing, if they are the same.
    pub(crate) fn push_change(&mut self, from: &Look, to: &Look) -> Result<(), AllocError>
        ensures ok { OnOk result (out_of self.new
            ≡ out_by (out_of self.old) (Change from.now to.now)) }
        ensures refused { OnErr result (Refused A) }
    {
        if is_same(from, to) {
            return Ok(());
        }
        self.ink = self.ink.broken();
        push_change(&mut self.text, from, to)
    }

    // Begins a link, or ends one. A link that is not written is as none.
    pub(crate) fn push_lead<B: Allocator>(
        &mut self,
        link: Option<&Hyperlink<B>>,
    ) -> Result<(), AllocError>
        ensures ok { OnOk result (out_of self.new
            ≡ out_by (out_of self.old) (Lead (option_map (λ h. target h.now) link.entry))) }
        ensures refused { OnErr result (Refused A) }
    {
        match link {
            Some(link) => self.begin_link(link),
            None => self.end_link(),
        }
    }

    fn begin_link<B: Allocator>(&mut self, link: &Hyperlink<B>) -> Result<(), AllocError>
        ensures ok { OnOk result (out_of self.new
            ≡ out_by (out_of self.old) (Lead (Some (target link.now)))) }
        ensures refused { OnErr result (Refused A) }
    {
        match room_after(self.ink.room, link) {
            Some(room) => {
                self.ink = Ink::begun(room);
                append_lead(&mut self.text, id_of(link), link.uri.as_str())
            }
            None => self.end_link(),
        }
    }

    // Ends a link, if one is open.
    pub(crate) fn end_link(&mut self) -> Result<(), AllocError>
        ensures ok { OnOk result (out_of self.new
            ≡ out_by (out_of self.old) (Lead None)) }
        ensures refused { OnErr result (Refused A) }
    {
        if !self.ink.leads {
            return Ok(());
        }
        self.ink = self.ink.ended();
        append_lead(&mut self.text, None, "")
    }
}
