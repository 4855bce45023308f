//! This module says how many columns characters take.
ghost use Rattle.std.specs.Prelude.{◌≡◌, IfSome, true};
ghost use Rattle.unicode_visibility.specs.Characters.{is_shown};

use unicode_visibility::is_shown;
use unicode_width::UnicodeWidthChar;

// The most marks on a character: those of Vietnamese are two, with the vowels of Hebrew and their
// accents three.
const MOST: u8 = 3;

/// Says which characters of a text are written as themselves, one after another, and how many
/// columns they take.
#[derive(Clone, Copy, Drop)]
pub struct Columns {
    // Says how many marks more the character before may have.
    left: u8,
}

impl Columns {
    /// Returns the columns of a text that begins.
    pub fn new() -> Columns {
        Columns { left: 0 }
    }

    /// Returns how many columns this character takes, which comes next. None is one that is not
    /// written as itself: it is not shown, looks like a space, or belongs to no writing at all, as
    /// one for private use; or it is a mark, which takes no column, after no character, after a `"`
    /// or after too many marks.
    pub fn of(&mut self, c: char) -> Option<usize>
        ensures { IfSome result (λ _. is_shown c ≡ true) }
    {
        let left = self.left;
        self.left = 0;
        if !is_shown(c) {
            return None;
        }
        let width = width_of(c)?;
        if width > 0 {
            self.left = if c == '"' { 0 } else { MOST };
            return Some(width);
        }
        if left == 0 {
            return None;
        }
        self.left = left - 1;
        Some(0)
    }
}

// Returns the number of columns that a character takes; none, if it looks like a space, or has no
// meaning.
fn width_of(c: char) -> Option<usize> {
    match c as u32 {
        0x20..=0x7e => Some(1),
        code if is_space(code) || is_noncharacter(code) || is_private(code) => None,
        _ => c.width(),
    }
}

/// Returns whether a character looks like a space and is not U+0020: those of the category Zs of
/// Unicode, and the Braille pattern without dots.
pub fn is_space(code: u32) -> bool {
    match code {
        0xa0 | 0x1680 | 0x2000..=0x200a | 0x202f | 0x205f | 0x2800 | 0x3000 => true,
        _ => false,
    }
}

/// Returns whether no character will ever have this code point (Unicode, 23.7).
pub fn is_noncharacter(code: u32) -> bool {
    match code {
        0xfdd0..=0xfdef => true,
        _ => code % 0x10000 >= 0xfffe,
    }
}

/// Returns whether a character is for private use, and only a font gives it a look (Unicode, 23.5).
pub fn is_private(code: u32) -> bool {
    match code {
        0xe000..=0xf8ff | 0xf0000..=0xffffd | 0x100000..=0x10fffd => true,
        _ => false,
    }
}
