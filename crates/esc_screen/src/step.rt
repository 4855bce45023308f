//! The steps of a screen: the effects of the values of a stream.

use crate::change::Change;
use crate::motion::Motion;
use crate::setting::Setting;

/// The effect of a value of a stream on a screen.
#[derive(Clone, Copy)]
pub enum Step {
    /// A character of one column.
    Print(char),
    /// A character of two columns.
    PrintWide(char),
    /// A character of no column: a mark on the character before the cursor.
    Mark(char),
    /// The character before the cursor, so many times more, but not more often than there are
    /// columns: REP.
    Repeat(u16),
    /// The cursor moves.
    Move(Motion),
    /// Cells change.
    Edit(Change),
    /// The state changes.
    Set(Setting),
    /// Nothing.
    Nothing,
}
