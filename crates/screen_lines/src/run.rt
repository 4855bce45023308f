//! A run of ASCII, gathered before it is appended to a text.
ghost use Rattle.std.specs.Prelude.{◌≡◌, ◌<◌, ◌++◌, ◌∷◌, IfSome, [], length, true};
ghost use Rattle.screen_lines.specs.Rows.{mark_parts};
ghost use Rattle.screen_lines.specs.Runs.{BeginWith, IsPlain, is_plain_char};

use esc_screen::{Cell, Content, Marks};
use std::marker::Model;
use std::str;

// How many bytes a run has at most.
const ROOM: usize = 64;

/// Bytes of ASCII, 64 at most. It takes no memory. Contracts see the bytes.
#[derive(Drop)]
pub(crate) struct Run {
    bytes: [u8; ROOM],
    count: usize,
}

impl Model for Run {
    ghost use Rattle.std.specs.Prelude.{ℕ, List, take, ◌≤◌};
    ghost use Rattle.std.specs.Str.{IsAscii};

    ghost Value = { List ℕ };

    ghost view = { λ t. take t.count t.bytes };

    ghost invariant = { λ t. (t.count ≤ 64) × IsAscii t.bytes };
}

impl Run {
    /// The characters of the cells that come first, as long as they have this look, and each has a
    /// character of ASCII that shows, or a space, without marks.
    #[tactic(auto, using(crate::proofs::Runs::begin_more, crate::proofs::Runs::plain_low))]
    #[inline]
    pub fn of(look: u16, cells: &[Cell]) -> Run
        ensures { BeginWith look result cells.now }
    {
        let mut run = Run::new();
        while run.len() < ROOM && run.len() < cells.len() {
            let Some(byte) = plain_byte(look, &cells[run.len()]) else {
                return run;
            };
            run.push(byte);
        }
        run
    }

    // No bytes.
    #[inline(always)]
    fn new() -> Run
        ensures { result ≡ [] }
    {
        Run {
            bytes: [0; ROOM],
            count: 0,
        }
    }

    /// How many bytes it has.
    #[inline(always)]
    pub fn len(&self) -> usize
        ensures { result ≡ length self.now }
    {
        self.count
    }

    // Appends a byte.
    #[inline(always)]
    fn push(&mut self, byte: u8)
        requires ascii { byte < 128 }
        requires room { length self.old < 64 }
        ensures { self.new ≡ self.old ++ byte ∷ [] }
    {
        self.bytes[self.count] = byte;
        self.count += 1;
    }

    /// The bytes, as a text.
    #[inline(always)]
    pub fn as_str(&self) -> &str
        ensures { result.now ≡ self.now }
    {
        unsafe { str::from_utf8_unchecked(&self.bytes[..self.count]) }
    }
}

// The character of a cell, if the cell has this look, and the character is one of ASCII that shows,
// or a space, without marks.
#[tactic(auto, using(crate::proofs::Runs::plain_is))]
#[inline(always)]
fn plain_byte(look: u16, cell: &Cell) -> Option<u8>
    ensures { IfSome result (λ b. IsPlain look b cell.now) }
{
    if cell.look != look {
        return None;
    }
    match cell.content {
        Content::Narrow(c, marks) => bare_byte(c, marks),
        Content::Blank | Content::Wide(_, _) | Content::Rest => None,
    }
}

// The same of a character and its marks.
#[inline(always)]
fn bare_byte(c: char, marks: Marks) -> Option<u8>
    ensures plain { IfSome result (λ b. (is_plain_char b ≡ true) × (c ≡ b)) }
    ensures bare { IfSome result (λ b. mark_parts marks.first ++ mark_parts marks.second ≡ []) }
{
    match (marks.first, marks.second) {
        (None, None) => plain_char(c),
        (_, _) => None,
    }
}

#[tactic(auto, using(crate::proofs::Runs::plain_from))]
#[inline(always)]
fn plain_char(c: char) -> Option<u8>
    ensures { IfSome result (λ b. (is_plain_char b ≡ true) × (c ≡ b)) }
{
    if ' ' <= c && c <= '~' {
        Some(c as u8)
    } else {
        None
    }
}
