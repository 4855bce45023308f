//! Control sequences that edit the screen (ECMA-48, 8.3; DEC's VT420; xterm's list).
ghost use Rattle.std.specs.Prelude.{◌≡◌, Some, false};
ghost use Rattle.esc_sequences.specs.Csis.{csi_text, unspecified};
ghost use Rattle.typed_functions.specs.Spellings.{edit_spelling, entries};

use crate::arguments::Arguments;
use crate::erase_in_display::EraseInDisplay;
use crate::erase_in_line::EraseInLine;
use crate::one_based::Ordinal;
use crate::spelling::{Spelling, write_spelling};
use std::fmt;

/// Requests to insert, delete, erase and scroll, by the names of termwiz.
#[derive(Clone, Copy, Debug)]
pub enum Edit {
    /// `CSI .. @`, ICH: so many characters are inserted.
    InsertCharacter(Ordinal),
    /// `CSI .. L`, IL: so many lines are inserted.
    InsertLine(Ordinal),
    /// `CSI .. M`, DL: so many lines are deleted.
    DeleteLine(Ordinal),
    /// `CSI .. P`, DCH: so many characters are deleted.
    DeleteCharacter(Ordinal),
    /// `CSI .. S`, SU: the screen is scrolled up so many lines.
    ScrollUp(Ordinal),
    /// `CSI .. T`, SD: the screen is scrolled down so many lines.
    ScrollDown(Ordinal),
    /// `CSI .. X`, ECH: so many characters are erased.
    EraseCharacter(Ordinal),
    /// `CSI .. b`, REP: the character before is repeated so many times.
    Repeat(Ordinal),
    /// `CSI .. SP @`, SL: the screen is scrolled left so many columns.
    ScrollLeft(Ordinal),
    /// `CSI .. SP A`, SR: the screen is scrolled right so many columns.
    ScrollRight(Ordinal),
    /// `CSI .. ' }`, DECIC: so many columns are inserted.
    InsertColumn(Ordinal),
    /// `CSI .. ' ~`, DECDC: so many columns are deleted.
    DeleteColumn(Ordinal),
    /// `CSI .. J`, ED: some of the screen is erased.
    EraseInDisplay(EraseInDisplay),
    /// `CSI .. K`, EL: some of the line is erased.
    EraseInLine(EraseInLine),
    /// `CSI ? .. J`, DECSED: the same for the characters of the screen that are not protected.
    SelectiveEraseInDisplay(EraseInDisplay),
    /// `CSI ? .. K`, DECSEL: the same for the characters of the line that are not protected.
    SelectiveEraseInLine(EraseInLine),
}

/// Writes the control sequence in its normal spelling, in which defaults are left out. If it
/// returns `Ok`, all of it was written.
impl fmt::Display for Edit {
    ghost output = { λ c. let s = edit_spelling c in
        Some (csi_text (unspecified (entries s) false s.last)) };

    fn fmt<W: fmt::Write>(&self, f: &mut fmt::Formatter<W>) -> fmt::Result {
        write_spelling(edit_spelling(*self), f)
    }
}

// Returns its spelling.
fn edit_spelling(edit: Edit) -> Spelling
    ensures { result ≡ edit_spelling edit }
{
    match edit {
        Edit::InsertCharacter(n) => Spelling::plain(Arguments::Count(n), b'@'),
        Edit::InsertLine(n) => Spelling::plain(Arguments::Count(n), b'L'),
        Edit::DeleteLine(n) => Spelling::plain(Arguments::Count(n), b'M'),
        Edit::DeleteCharacter(n) => Spelling::plain(Arguments::Count(n), b'P'),
        Edit::ScrollUp(n) => Spelling::plain(Arguments::Count(n), b'S'),
        Edit::ScrollDown(n) => Spelling::plain(Arguments::Count(n), b'T'),
        Edit::EraseCharacter(n) => Spelling::plain(Arguments::Count(n), b'X'),
        Edit::Repeat(n) => Spelling::plain(Arguments::Count(n), b'b'),
        Edit::ScrollLeft(n) => Spelling::between(Arguments::Count(n), b' ', b'@'),
        Edit::ScrollRight(n) => Spelling::between(Arguments::Count(n), b' ', b'A'),
        Edit::InsertColumn(n) => Spelling::between(Arguments::Count(n), b'\'', b'}'),
        Edit::DeleteColumn(n) => Spelling::between(Arguments::Count(n), b'\'', b'~'),
        Edit::EraseInDisplay(choice) => Spelling::plain(Arguments::Selector(choice.number()), b'J'),
        Edit::EraseInLine(choice) => Spelling::plain(Arguments::Selector(choice.number()), b'K'),
        Edit::SelectiveEraseInDisplay(choice) => Spelling::private(
            b'?',
            Arguments::Selector(choice.number()),
            b'J',
        ),
        Edit::SelectiveEraseInLine(choice) => Spelling::private(
            b'?',
            Arguments::Selector(choice.number()),
            b'K',
        ),
    }
}
