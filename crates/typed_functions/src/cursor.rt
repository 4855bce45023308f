//! Control sequences of the cursor (ECMA-48, 8.3; DEC's VT510; xterm's list).
ghost use Rattle.std.specs.Prelude.{◌≡◌, Some, false};
ghost use Rattle.esc_sequences.specs.Csis.{csi_text, unspecified};
ghost use Rattle.typed_functions.specs.Spellings.{cursor_spelling, entries};

use crate::arguments::Arguments;
use crate::cursor_style::CursorStyle;
use crate::cursor_tabulation_control::CursorTabulationControl;
use crate::one_based::Ordinal;
use crate::spelling::{Spelling, write_spelling};
use crate::tabulation_clear::TabulationClear;
use std::fmt;

/// A request about the cursor and its bounds, by the names of termwiz.
#[derive(Clone, Copy, Debug)]
pub enum Cursor {
    /// `CSI .. A`, CUU: up so many lines.
    Up(Ordinal),
    /// `CSI .. B`, CUD: down so many lines.
    Down(Ordinal),
    /// `CSI .. C`, CUF: right so many columns.
    Right(Ordinal),
    /// `CSI .. D`, CUB: left so many columns.
    Left(Ordinal),
    /// `CSI .. E`, CNL: to the start of the line so many below.
    NextLine(Ordinal),
    /// `CSI .. F`, CPL: to the start of the line so many above.
    PrecedingLine(Ordinal),
    /// `CSI .. G`, CHA: to this column.
    CharacterAbsolute(Ordinal),
    /// `CSI .. H`, CUP: to this line and column.
    Position {
        line: Ordinal,
        col: Ordinal,
    },
    /// `CSI .. I`, CHT: on so many tab stops.
    ForwardTabulation(Ordinal),
    /// `CSI .. Y`, CVT: down so many tab stops of lines.
    LineTabulation(Ordinal),
    /// `CSI .. Z`, CBT: back so many tab stops.
    BackwardTabulation(Ordinal),
    /// `` CSI .. ` ``, HPA: to this column.
    CharacterPositionAbsolute(Ordinal),
    /// `CSI .. a`, HPR: right so many columns.
    CharacterPositionForward(Ordinal),
    /// `CSI .. d`, VPA: to this line.
    LinePositionAbsolute(Ordinal),
    /// `CSI .. e`, VPR: down so many lines.
    LinePositionForward(Ordinal),
    /// `CSI .. f`, HVP: to this line and column.
    CharacterAndLinePosition {
        line: Ordinal,
        col: Ordinal,
    },
    /// `CSI .. j`, HPB: left so many columns.
    CharacterPositionBackward(Ordinal),
    /// `CSI .. k`, VPB: up so many lines.
    LinePositionBackward(Ordinal),
    /// `CSI .. R`, CPR: a report that it is at this line and column.
    ActivePositionReport {
        line: Ordinal,
        col: Ordinal,
    },
    /// `CSI .. g`, TBC: tab stops are cleared.
    TabulationClear(TabulationClear),
    /// `CSI .. W`, CTC: tab stops are set or cleared.
    TabulationControl(CursorTabulationControl),
    /// `CSI .. SP q`, DECSCUSR: its look.
    CursorStyle(CursorStyle),
    /// `CSI .. r`, DECSTBM: the first and the last line that scroll; the last is that of the screen
    /// if there is none.
    SetTopAndBottomMargins {
        top: Ordinal,
        bottom: Option<Ordinal>,
    },
    /// `CSI .. s`, DECSLRM: the first and the last column that scroll; the last is that of the
    /// screen if there is none.
    SetLeftAndRightMargins {
        left: Ordinal,
        right: Option<Ordinal>,
    },
    /// `CSI .. s`, SCOSC: it is saved.
    SaveCursor,
    /// `CSI .. u`, SCORC: it is restored.
    RestoreCursor,
    /// `CSI .. n`, DSR: a report of its place is asked for, by 6.
    RequestActivePositionReport,
}

/// Writes the control sequence in its normal spelling, in which defaults are left out. If it
/// returns `Ok`, all of it was written.
impl fmt::Display for Cursor {
    ghost output = { λ c. let s = cursor_spelling c in
        Some (csi_text (unspecified (entries s) false s.last)) };

    fn fmt<W: fmt::Write>(&self, f: &mut fmt::Formatter<W>) -> fmt::Result {
        write_spelling(cursor_spelling(*self), f)
    }
}

// Returns its spelling.
fn cursor_spelling(cursor: Cursor) -> Spelling
    ensures { result ≡ cursor_spelling cursor }
{
    match cursor {
        Cursor::Up(n) => Spelling::plain(Arguments::Count(n), b'A'),
        Cursor::Down(n) => Spelling::plain(Arguments::Count(n), b'B'),
        Cursor::Right(n) => Spelling::plain(Arguments::Count(n), b'C'),
        Cursor::Left(n) => Spelling::plain(Arguments::Count(n), b'D'),
        Cursor::NextLine(n) => Spelling::plain(Arguments::Count(n), b'E'),
        Cursor::PrecedingLine(n) => Spelling::plain(Arguments::Count(n), b'F'),
        Cursor::CharacterAbsolute(n) => Spelling::plain(Arguments::Count(n), b'G'),
        Cursor::Position { line, col } => Spelling::plain(Arguments::Place(line, col), b'H'),
        Cursor::ForwardTabulation(n) => Spelling::plain(Arguments::Count(n), b'I'),
        Cursor::LineTabulation(n) => Spelling::plain(Arguments::Count(n), b'Y'),
        Cursor::BackwardTabulation(n) => Spelling::plain(Arguments::Count(n), b'Z'),
        Cursor::CharacterPositionAbsolute(n) => Spelling::plain(Arguments::Count(n), b'`'),
        Cursor::CharacterPositionForward(n) => Spelling::plain(Arguments::Count(n), b'a'),
        Cursor::LinePositionAbsolute(n) => Spelling::plain(Arguments::Count(n), b'd'),
        Cursor::LinePositionForward(n) => Spelling::plain(Arguments::Count(n), b'e'),
        Cursor::CharacterAndLinePosition { line, col } => Spelling::plain(
            Arguments::Place(line, col),
            b'f',
        ),
        Cursor::CharacterPositionBackward(n) => Spelling::plain(Arguments::Count(n), b'j'),
        Cursor::LinePositionBackward(n) => Spelling::plain(Arguments::Count(n), b'k'),
        Cursor::ActivePositionReport { line, col } => Spelling::plain(
            Arguments::Place(line, col),
            b'R',
        ),
        Cursor::TabulationClear(choice) => Spelling::plain(
            Arguments::Selector(choice.number()),
            b'g',
        ),
        Cursor::TabulationControl(choice) => Spelling::plain(
            Arguments::Selector(choice.number()),
            b'W',
        ),
        Cursor::CursorStyle(choice) => Spelling::between(
            Arguments::Selector(choice.number()),
            b' ',
            b'q',
        ),
        Cursor::SetTopAndBottomMargins { top, bottom } => Spelling::plain(
            Arguments::Margins(top, bottom),
            b'r',
        ),
        Cursor::SetLeftAndRightMargins { left, right } => Spelling::plain(
            Arguments::Margins(left, right),
            b's',
        ),
        Cursor::SaveCursor => Spelling::plain(Arguments::Nothing, b's'),
        Cursor::RestoreCursor => Spelling::plain(Arguments::Nothing, b'u'),
        Cursor::RequestActivePositionReport => Spelling::plain(Arguments::Selector(6), b'n'),
    }
}
