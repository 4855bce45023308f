//! Text that is made of characters that show, ends of lines, sequences that make looks, and links.
//! An error is that memory was refused.
ghost use Rattle.std.specs.Option.{option_map};
ghost use Rattle.std.specs.Prelude.{◌≡◌, ◌++◌, [], IsTrue, OnErr, OnOk, string_bytes, true};
ghost use Rattle.std.specs.Fmt.{decimal};
ghost use Rattle.esc_sgr.specs.Sgr.{change_text};
ghost use Rattle.esc_sheet.specs.Sheets.{IsSheet, is_character, is_fit, lead_text};
ghost use Rattle.esc_sheet.specs.Sheets.Part.{Lead};

use crate::leading::{append_lead, is_writable};
use esc_links::Hyperlink;
use esc_sgr::{is_same, push_change};
use esc_style::Look;
use std::alloc::{AllocError, Allocator, Global};
use unicode_visibility::{belongs, is_shown, number_text};

// Says how many bytes links take at most before any character, and for each character more: so a
// text with links is no longer than a multiple of what it shows.
const FIRST_ROOM: usize = 1 << 20;

const MORE_ROOM: usize = 64;

/// A sheet is a text. Each of its characters shows as itself, or belongs to the character before
/// it, as in emoji; or ends a line; or is of a sequence that makes a look, or of a link. Others are
/// spelled. Once a request for memory is refused, some of it may be missing.
#[derive(Drop)]
pub struct Sheet {
    text: String,
    // the last character, if it may have one that belongs to it
    last: Option<char>,
    // says whether a link is open
    leads: bool,
    // says how many bytes the next links may take
    room: usize,
    ghost safe: { ∥ IsSheet (string_bytes text) ∥₁ },
}

impl Sheet {
    /// Returns an empty text. Takes no memory.
    #[tactic(auto, using(crate::proofs::Sheets::no_sheet))]
    pub fn new(alloc: Global) -> Sheet {
        Sheet {
            text: String::new(alloc),
            last: None,
            leads: false,
            room: FIRST_ROOM,
        }
    }

    /// Returns the text.
    pub fn as_str(&self) -> &str
        ensures { ∥ IsSheet result.now ∥₁ }
    {
        self.text.as_str()
    }

    /// Adds a character: its number, as `<U+202E>`, if it does not show, and does not belong to the
    /// one before it.
    pub fn push(&mut self, c: char) -> Result<(), AllocError> {
        if self.shows(c) {
            self.push_char(c)
        } else {
            self.push_text(number_text(c).as_str())
        }
    }

    /// Adds the characters of a text that show; none other is in it.
    #[tactic(auto, using(crate::proofs::Sheets::shown_fits))]
    pub fn push_text(&mut self, text: &str) -> Result<(), AllocError> {
        for c in text.chars() {
            if is_shown(c) {
                self.push_char(c)?;
            }
        }
        Ok(())
    }

    /// Adds a number in decimal.
    pub fn push_number(&mut self, number: u64) -> Result<(), AllocError> {
        self.last = None;
        append_number(&mut self.text, number)
    }

    /// Ends the line.
    pub fn end_line(&mut self) -> Result<(), AllocError> {
        self.last = None;
        fallible_alloc::push_str(&mut self.text, "\n")
    }

    /// Adds the sequence that makes a look while another holds.
    pub fn push_change(&mut self, from: &Look, to: &Look) -> Result<(), AllocError> {
        if is_same(from, to) {
            return Ok(());
        }
        self.last = None;
        append_change(&mut self.text, from, to)
    }

    /// Begins a link, or ends one. A link whose id or address has a character other than those of
    /// ASCII that show is left out, and so is one if too much of the text is links.
    pub fn push_link<A: Allocator>(
        &mut self,
        link: Option<&Hyperlink<A>>,
    ) -> Result<(), AllocError> {
        match link {
            Some(link) => self.begin_link(link.params.get("id"), link.uri.as_str()),
            None => self.end_link(),
        }
    }

    // Begins a link.
    fn begin_link(&mut self, id: Option<&str>, address: &str) -> Result<(), AllocError> {
        let length = length_of(id, address);
        if self.room < length || !is_writable(id, address) {
            return self.end_link();
        }
        self.room -= length;
        self.leads = true;
        self.push_lead(id, address)
    }

    /// Ends a link, if one is open.
    pub fn end_link(&mut self) -> Result<(), AllocError> {
        if !self.leads {
            return Ok(());
        }
        self.leads = false;
        self.push_lead(None, "")
    }

    // Adds what begins a link, or ends one.
    fn push_lead(&mut self, id: Option<&str>, address: &str) -> Result<(), AllocError>
        requires { is_fit (Lead (option_map (λ i. i.now) id) address.now) ≡ true }
    {
        self.last = None;
        append_lead(&mut self.text, id, address)
    }

    // Returns whether a character shows as itself, or belongs to the last one.
    #[tactic(auto, using(crate::proofs::Sheets::shows_fits))]
    fn shows(&self, c: char) -> bool
        ensures { IsTrue result → is_character c ≡ true }
    {
        is_shown(c) || belongs(self.last, c)
    }

    // Adds a character as it is.
    fn push_char(&mut self, c: char) -> Result<(), AllocError>
        requires { is_character c ≡ true }
    {
        self.last = Some(c);
        self.room = self.room.saturating_add(MORE_ROOM);
        fallible_alloc::push_char(&mut self.text, c)
    }
}

// Returns how many bytes a link takes at most, with its end.
fn length_of(id: Option<&str>, address: &str) -> usize {
    let length = match id {
        Some(id) => id.len(),
        None => 0,
    };
    length.saturating_add(address.len()).saturating_add(0x20)
}

// Appends a number in decimal; the error leaves nothing of the text.
fn append_number(text: &mut String, number: u64) -> Result<(), AllocError>
    ensures ok { OnOk result (string_bytes text.new
        ≡ string_bytes text.old ++ decimal number) }
    ensures err { OnErr result (string_bytes text.new ≡ []) }
{
    match fallible_alloc::push_display(text, &number) {
        Ok(()) => Ok(()),
        Err(error) => {
            text.clear();
            Err(error)
        }
    }
}

// Appends what makes a look where another holds; the error leaves nothing of the text.
fn append_change(text: &mut String, from: &Look, to: &Look) -> Result<(), AllocError>
    ensures ok { OnOk result (string_bytes text.new
        ≡ string_bytes text.old ++ change_text from.now to.now) }
    ensures err { OnErr result (string_bytes text.new ≡ []) }
{
    match push_change(text, from, to) {
        Ok(()) => Ok(()),
        Err(error) => {
            text.clear();
            Err(error)
        }
    }
}
