//! Lines that are safe to print.
ghost use Rattle.dump_page.specs.Pages.{IsPage};

use crate::phrase::Phrase;
use crate::plain::spaces;
use std::alloc::Global;

/// Lines for a terminal or a file; each character of them is shown, ends a line, or belongs to a
/// colour that was asked for: no control or escape sequence of the input is in them, and text
/// between quotes reads as bytes. Once memory is refused nothing more is appended, and
/// [`is_refused`](Page::is_refused) says so.
#[derive(Drop)]
pub struct Page {
    words: Phrase,
    is_colored: bool,
}

/// The colour of a part of a line.
#[derive(Clone, Copy)]
pub enum Color {
    /// That of the place.
    Place,
    /// That of the bytes.
    Bytes,
    /// None.
    Plain,
}

impl Page {
    /// Returns no lines. Takes no memory.
    pub fn new(alloc: Global, is_colored: bool) -> Page {
        Page {
            words: Phrase::new(alloc),
            is_colored,
        }
    }

    /// Returns the lines.
    pub fn as_bytes(&self) -> &[u8]
        ensures { ∥ IsPage result.now ∥₁ }
    {
        self.words.as_str().as_bytes()
    }

    /// Drops the lines.
    pub fn clear(&mut self) {
        let is_refused = self.words.is_refused();
        self.words.restart(usize::MAX);
        self.note(is_refused);
    }

    /// Returns a phrase without words.
    pub fn phrase(&self) -> Phrase {
        self.words.empty()
    }

    /// Returns the words of the lines, to which more can be added.
    pub fn words(&mut self) -> &mut Phrase {
        &mut self.words
    }

    /// Returns whether memory was refused, and something is left out.
    pub fn is_refused(&self) -> bool {
        self.words.is_refused()
    }

    /// Notes whether memory was refused.
    pub fn note(&mut self, is_refused: bool) {
        if is_refused {
            self.words.refuse();
        }
    }

    /// Appends the words of a phrase, after which no column is counted.
    pub fn push(&mut self, phrase: &Phrase) {
        self.words.add_phrase(phrase);
    }

    /// Appends spaces up to this column, and at least one.
    pub fn pad(&mut self, columns: usize) {
        let missing = columns.saturating_sub(self.words.columns()).max(1);
        for _ in 0..missing / 32 {
            self.words.add(spaces(32));
        }
        self.words.add(spaces(missing % 32));
    }

    /// Returns whether colours are asked for.
    pub fn is_colored(&self) -> bool {
        self.is_colored
    }

    /// Changes the colour, if colours are asked for.
    pub fn color(&mut self, color: Color) {
        if !self.is_colored {
            return;
        }
        match color {
            Color::Place => self.words.push_page_part("\x1b[33m"),
            Color::Bytes => self.words.push_page_part("\x1b[36m"),
            Color::Plain => self.words.push_page_part("\x1b[m"),
        }
    }

    /// Appends a whole line.
    pub fn push_line(&mut self, line: &'static str) {
        self.words.add(line);
        self.end_line();
    }

    /// Ends the line.
    pub fn end_line(&mut self) {
        self.words.end_line();
    }
}
