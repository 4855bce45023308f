//! A text in HTML that grows.
ghost use Rattle.std.specs.Prelude.{◌≡◌, ◌<◌, ◌++◌, ◌∷◌, ℕ, List, [], IfSome, OnErr, OnOk, string_bytes, true};
ghost use Rattle.std.specs.Char.{encode_utf8};
ghost use Rattle.std.specs.List.{flat_map, list_all};
ghost use Rattle.esc_html.specs.Characters.{is_bare};
ghost use Rattle.esc_html.specs.PageParts.{escape_text, link, page_part_text, span};
ghost use Rattle.esc_html.specs.Plain.{color_look, mark_look};
ghost use Rattle.fallible_alloc.specs.Refusals.{Refused};

use crate::colored::{push_any_span, tag_of};
use crate::escaping::{push_char, push_escaped};
use crate::inline::push_inline_span;
use crate::mark::Mark;
use crate::writing::push_link;
use esc_style::Look;
use std::alloc::{AllocError, Allocator, Global};
use std::marker::Model;
use typed_functions::AnsiColor;

/// A text in HTML. Contracts see its bytes. If memory is refused, a part of the text to append may
/// be there.
#[derive(Drop)]
pub(crate) struct Markup<A: Allocator = Global> {
    string: String<A>,
}

impl<A: Allocator> Model for Markup<A> {
    ghost Value = { List ℕ };

    ghost view = { λ m. string_bytes m.string };
}

impl<A: Allocator> Markup<A> {
    /// The empty text. Takes no memory.
    pub fn new(alloc: A) -> Markup<A>
        ensures { result ≡ [] }
    {
        Markup {
            string: String::new(alloc),
        }
    }

    /// This text.
    pub fn as_str(&self) -> &str
        ensures { result.now ≡ self.now }
    {
        self.string.as_str()
    }

    /// Drops its characters, and keeps its memory.
    pub fn clear(&mut self)
        ensures { self.new ≡ [] }
    {
        self.string.clear()
    }

    /// Appends a text that is HTML already.
    pub fn push_html(&mut self, html: &str) -> Result<(), AllocError>
        ensures ok { OnOk result (self.new ≡ self.old ++ html.now) }
        ensures refused { OnErr result (Refused A) }
    {
        fallible_alloc::push_str(&mut self.string, html)
    }

    /// Appends a character, as text.
    pub fn push_char(&mut self, c: char) -> Result<(), AllocError>
        ensures ok { OnOk result (self.new ≡ self.old ++ flat_map escape_text (encode_utf8 c)) }
        ensures refused { OnErr result (Refused A) }
    {
        push_char(&mut self.string, c)
    }

    /// Appends characters, as text.
    pub fn push_text(&mut self, more: &str) -> Result<(), AllocError>
        ensures ok { OnOk result (self.new ≡ self.old ++ flat_map escape_text more.now) }
        ensures refused { OnErr result (Refused A) }
    {
        push_escaped(&mut self.string, more, b'>')
    }

    /// Appends characters that are written as they are, as text.
    pub fn push_bare(&mut self, more: &str) -> Result<(), AllocError>
        requires { list_all is_bare more.now ≡ true }
        ensures ok { OnOk result (self.new ≡ self.old ++ flat_map escape_text more.now) }
        ensures refused { OnErr result (Refused A) }
    {
        match lone_ascii(more) {
            Some(byte) => self.push_byte(byte),
            None => self.push_html(more),
        }
    }

    // Appends a character of ASCII.
    #[inline]
    fn push_byte(&mut self, byte: u8) -> Result<(), AllocError>
        requires { byte < 128 }
        ensures ok { OnOk result (self.new ≡ self.old ++ byte ∷ []) }
        ensures refused { OnErr result (Refused A) }
    {
        fallible_alloc::push_char(&mut self.string, byte as char)
    }

    /// Begins a span, in declarations alone or with classes.
    pub fn push_span(&mut self, inline: bool, look: &Look) -> Result<(), AllocError>
        ensures ok { OnOk result (self.new ≡ self.old ++ page_part_text (span inline look.now)) }
        ensures refused { OnErr result (Refused A) }
    {
        if inline {
            push_inline_span(&mut self.string, look)
        } else {
            push_any_span(&mut self.string, look)
        }
    }

    /// The same, if the look is this colour and nothing else.
    #[inline]
    pub fn push_colored(
        &mut self,
        inline: bool,
        color: AnsiColor,
        look: &Look,
    ) -> Result<(), AllocError>
        requires { look.now ≡ color_look color }
        ensures ok { OnOk result (self.new ≡ self.old ++ page_part_text (span inline look.now)) }
        ensures refused { OnErr result (Refused A) }
    {
        if inline {
            push_inline_span(&mut self.string, look)
        } else {
            self.push_html(tag_of(color))
        }
    }

    /// The same, if the look is this mark and nothing else.
    #[inline]
    pub fn push_marked(&mut self, inline: bool, mark: Mark, look: &Look) -> Result<(), AllocError>
        requires { look.now ≡ mark_look mark }
        ensures ok { OnOk result (self.new ≡ self.old ++ page_part_text (span inline look.now)) }
        ensures refused { OnErr result (Refused A) }
    {
        if inline {
            push_inline_span(&mut self.string, look)
        } else {
            self.push_html(mark.tag())
        }
    }

    /// Begins a link.
    pub fn push_link(&mut self, address: &str) -> Result<(), AllocError>
        ensures ok { OnOk result (self.new ≡ self.old ++ page_part_text (link address.now)) }
        ensures refused { OnErr result (Refused A) }
    {
        push_link(&mut self.string, address)
    }
}

// The character that a text is, if it is one of ASCII: a space, mostly.
#[inline]
fn lone_ascii(text: &str) -> Option<u8>
    ensures whole { IfSome result (λ b. text.now ≡ b ∷ []) }
    ensures ascii { IfSome result (λ b. b < 128) }
{
    match text.as_bytes() {
        [byte] => ascii(*byte),
        _ => None,
    }
}

// The byte, if it is one of ASCII.
#[inline]
fn ascii(byte: u8) -> Option<u8>
    ensures { IfSome result (λ b. (b ≡ byte) × (b < 128)) }
{
    if byte < 0x80 { Some(byte) } else { None }
}
