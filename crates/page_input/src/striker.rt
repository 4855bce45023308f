//! Renditions in the place of overstruck characters.

use crate::carried::Carried;
use crate::emphasis::{Emphasis, Strike, strike_of};
use esc_decode::Encoding;
use memchr::memchr;
use std::alloc::{AllocError, Global};

const BS: u8 = 0x08;

const DEL: u8 = 0x7f;

/// Makes of a stream one without overstruck characters, a part at a time.
#[derive(Drop)]
pub(crate) struct Striker {
    encoding: Encoding,
    carried: Carried,
    // the character that the next one may be written over, and its emphasis
    held: Vec<u8>,
    emphasis: Emphasis,
    // says whether a backspace came after it
    is_back: bool,
    // the emphasis that holds after the text that was made
    open: Emphasis,
    /// The text that was made.
    pub made: Vec<u8>,
}

impl Striker {
    /// Returns one for a stream in this encoding, at its beginning. Takes no memory.
    pub fn new(alloc: Global, encoding: Encoding) -> Striker {
        Striker {
            encoding,
            carried: Carried::new(alloc, encoding),
            held: Vec::new(alloc),
            emphasis: Emphasis::none(),
            is_back: false,
            open: Emphasis::none(),
            made: Vec::new(alloc),
        }
    }

    /// Takes bytes more, in which the last character is whole.
    pub fn take(&mut self, bytes: &[u8]) -> Result<(), AllocError> {
        let mut rest = bytes;
        while !rest.is_empty() {
            let n = self.take_some(rest)?;
            rest = &rest[n.max(1).min(rest.len())..];
        }
        Ok(())
    }

    /// Takes the end of the stream, or of a part of its text.
    pub fn settle(&mut self) -> Result<(), AllocError> {
        self.push_held()?;
        self.turn(Emphasis::none())
    }

    // Takes some of these bytes; returns how many.
    fn take_some(&mut self, bytes: &[u8]) -> Result<usize, AllocError> {
        let length = self.carried.text_length(bytes).min(bytes.len());
        let (text, segment) = bytes.split_at(length);
        if text.is_empty() {
            self.settle()?;
            let n = self.carried.follow(segment).min(segment.len());
            fallible_alloc::extend(&mut self.made, &segment[..n])?;
            return Ok(n);
        }
        self.carried.pass(text);
        self.take_text(text)?;
        Ok(length)
    }

    // Takes text.
    fn take_text(&mut self, text: &[u8]) -> Result<(), AllocError> {
        let mut rest = text;
        while !rest.is_empty() {
            let n = self.take_next(rest)?;
            rest = &rest[n.max(1).min(rest.len())..];
        }
        Ok(())
    }

    // Takes what comes first in a text: characters that nothing is written over, or one character;
    // returns its length.
    fn take_next(&mut self, text: &[u8]) -> Result<usize, AllocError> {
        if !self.is_back {
            let plain = self.plain_length(text).min(text.len());
            if plain > 0 {
                self.push(&text[..plain])?;
                return Ok(plain);
            }
        }
        let length = self.character_length(text).min(text.len());
        let character = &text[..length];
        match character {
            [BS] => self.go_back()?,
            [byte] if is_blank(*byte) => self.push(character)?,
            _ => self.take_character(character)?,
        }
        Ok(length)
    }

    // Takes a backspace.
    fn go_back(&mut self) -> Result<(), AllocError> {
        if self.held.is_empty() || self.is_back {
            self.push(&[BS])
        } else {
            self.is_back = true;
            Ok(())
        }
    }

    // Takes a character.
    fn take_character(&mut self, character: &[u8]) -> Result<(), AllocError> {
        if !self.is_back {
            return self.hold(character);
        }
        match strike_of(self.held.as_slice(), character) {
            Strike::Bold => self.emphasis.bold = true,
            Strike::Line => self.emphasis.underline = true,
            Strike::Lined => {
                self.held.clear();
                self.emphasis = Emphasis {
                    bold: false,
                    underline: true,
                };
                fallible_alloc::extend(&mut self.held, character)?;
            }
            Strike::Other => return self.hold(character),
        }
        self.is_back = false;
        Ok(())
    }

    // Holds a character, after what is held.
    fn hold(&mut self, character: &[u8]) -> Result<(), AllocError> {
        self.push_held()?;
        fallible_alloc::extend(&mut self.held, character)
    }

    // Appends text, after what is held.
    fn push(&mut self, text: &[u8]) -> Result<(), AllocError> {
        self.settle()?;
        fallible_alloc::extend(&mut self.made, text)
    }

    // Appends what is held.
    fn push_held(&mut self) -> Result<(), AllocError> {
        if self.held.is_empty() {
            return Ok(());
        }
        let emphasis = self.emphasis.beside(self.carried.pen());
        self.turn(emphasis)?;
        fallible_alloc::extend(&mut self.made, self.held.as_slice())?;
        self.held.clear();
        self.emphasis = Emphasis::none();
        if !self.is_back {
            return Ok(());
        }
        self.is_back = false;
        self.turn(Emphasis::none())?;
        fallible_alloc::extend(&mut self.made, &[BS])
    }

    // Appends the sequences that change the emphasis to this one.
    fn turn(&mut self, emphasis: Emphasis) -> Result<(), AllocError> {
        if emphasis == self.open {
            return Ok(());
        }
        fallible_alloc::extend(&mut self.made, self.open.end())?;
        fallible_alloc::extend(&mut self.made, emphasis.begin())?;
        self.open = emphasis;
        Ok(())
    }

    // Returns the length of the text that comes first and over which nothing is written, as far as
    // that is known: up to the character before a backspace, or before the end.
    fn plain_length(&self, text: &[u8]) -> usize {
        let before = match memchr(BS, text) {
            Some(at) => text.get(..at).unwrap_or(text),
            None => text,
        };
        before.len().saturating_sub(self.last_length(before))
    }

    // Returns the length of the last character, or 0 if it is a space or a control.
    fn last_length(&self, text: &[u8]) -> usize {
        let mut rest = text;
        while let Some((last, before)) = rest.split_last() {
            let length = text.len().saturating_sub(before.len());
            if is_blank(*last) {
                return length.saturating_sub(1);
            }
            if length > 3 || !self.goes_on(*last) {
                return length;
            }
            rest = before;
        }
        text.len()
    }

    // Returns the length of the first character.
    fn character_length(&self, text: &[u8]) -> usize {
        let [first, rest @ ..] = text else {
            return 0;
        };
        let mut length = 1usize;
        if first.is_ascii() {
            return length;
        }
        for byte in rest {
            if length > 3 || !self.goes_on(*byte) {
                break;
            }
            length = length.saturating_add(1);
        }
        length
    }

    // Returns whether a byte goes on with a character.
    fn goes_on(&self, byte: u8) -> bool {
        match self.encoding {
            Encoding::Utf8 | Encoding::EightBit => 0x80 <= byte && byte <= 0xbf,
            Encoding::CodePage(_) => false,
        }
    }
}

// Returns whether a byte is a space or a control.
fn is_blank(byte: u8) -> bool {
    byte <= b' ' || byte == DEL
}
