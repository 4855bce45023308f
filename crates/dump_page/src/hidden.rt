//! Characters that deceive: those that have no width, break lines, change the direction of text,
//! look like a space, have no meaning, or sit on nothing.

use crate::columns::{is_noncharacter, is_private, is_space};
use crate::phrase::Phrase;
use std::alloc::Global;
use unicode_visibility::is_deceiving;

// A line for each row of counted characters: their names by Unicode or, for several, a word for all
// of them.
static NAMES: &str = "\
soft hyphen
combining grapheme joiner
Arabic letter mark
Hangul filler
Khmer inherent vowel
Mongolian vowel separator
Mongolian variation selector
zero width space
zero width non-joiner
zero width joiner
left-to-right mark
right-to-left mark
line separator
paragraph separator
left-to-right embedding
right-to-left embedding
pop directional formatting
left-to-right override
right-to-left override
word joiner
invisible operator
left-to-right isolate
right-to-left isolate
first strong isolate
pop directional isolate
variation selector
zero width no-break space
interlinear annotation
tag
character without a width
no-break space
Braille pattern without dots
space
noncharacter
private-use character
mark";

// Says how often the characters of a row came, and the first of them.
#[derive(Clone, Copy)]
struct Count {
    row: usize,
    first: u32,
    count: u64,
}

/// Says which of these characters came, in how many rows of a table. It takes no memory while none
/// comes.
#[derive(Drop)]
pub struct Hidden {
    counts: Vec<Count>,
    is_refused: bool,
}

impl Hidden {
    /// Returns an empty list.
    pub fn new(alloc: Global) -> Hidden {
        Hidden {
            counts: Vec::new(alloc),
            is_refused: false,
        }
    }

    /// Forgets all.
    pub fn clear(&mut self) {
        self.counts.clear();
        self.is_refused = false;
    }

    /// Returns whether memory was refused, and one is not counted.
    pub fn is_refused(&self) -> bool {
        self.is_refused
    }

    /// Returns whether none came, and none was refused.
    pub fn is_empty(&self) -> bool {
        self.counts.is_empty() && !self.is_refused
    }

    /// Counts a character that is not shown, if it is no control.
    pub fn note(&mut self, c: char) {
        let code = c as u32;
        if code >= 0xa0 {
            self.add(Count {
                row: row_of(c),
                first: code,
                count: 1,
            });
        }
    }

    /// Counts those of another text too, which come after these.
    pub fn join(&mut self, others: &Hidden) {
        self.is_refused = self.is_refused || others.is_refused;
        for count in &others.counts {
            self.add(*count);
        }
    }

    // Counts some more of a row.
    fn add(&mut self, more: Count) {
        if !self.has_row(more) && self.counts.push(more).is_err() {
            self.is_refused = true;
        }
    }

    // Adds to the count of this row, and returns whether there is one.
    fn has_row(&mut self, more: Count) -> bool {
        for count in &mut self.counts {
            if count.row == more.row {
                count.count = count.count.saturating_add(more.count);
                return true;
            }
        }
        false
    }

    /// Adds each name once, with the first code point that has it, and how often it came.
    pub fn add_words(&self, to: &mut Phrase) {
        if self.counts.is_empty() {
            return;
        }
        for (row, name) in NAMES.lines().enumerate() {
            self.add_row(row, name, to);
        }
    }

    // Adds the name of a row, if one of its characters came.
    fn add_row(&self, row: usize, name: &'static str, to: &mut Phrase) {
        for count in &self.counts {
            if count.row == row {
                to.add(", with U+");
                to.add_code(count.first);
                to.add_word(name);
                to.add_times(count.count);
            }
        }
    }
}

// Returns the row of a character.
fn row_of(c: char) -> usize {
    match c as u32 {
        0xad => 0,
        0x34f => 1,
        0x61c => 2,
        0x115f..=0x1160 | 0x3164 | 0xffa0 => 3,
        0x17b4..=0x17b5 => 4,
        0x180e => 5,
        0x180b..=0x180f => 6,
        0x200b => 7,
        0x200c => 8,
        0x200d => 9,
        0x200e => 10,
        0x200f => 11,
        0x2028 => 12,
        0x2029 => 13,
        0x202a => 14,
        0x202b => 15,
        0x202c => 16,
        0x202d => 17,
        0x202e => 18,
        0x2060 => 19,
        0x2061..=0x2064 => 20,
        0x2066 => 21,
        0x2067 => 22,
        0x2068 => 23,
        0x2069 => 24,
        0xfe00..=0xfe0f | 0xe0100..=0xe01ef => 25,
        0xfeff => 26,
        0xfff9..=0xfffb => 27,
        0xe0000..=0xe007f => 28,
        0xa0 => 30,
        0x2800 => 31,
        code if is_space(code) => 32,
        code if is_noncharacter(code) => 33,
        code if is_private(code) => 34,
        _ if is_deceiving(c) => 29,
        _ => 35,
    }
}
