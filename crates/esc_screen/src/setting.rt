//! Changes of the state of a screen.

use crate::mode::Mode;

/// A change of the state of a screen that moves no character unless a screen comes in place of
/// another.
#[derive(Clone, Copy)]
pub enum Setting {
    /// How the characters that come look, and the cells that are erased: SGR.
    Select(u16, u16),
    /// A tab stop in the column of the cursor: HTS.
    SetTab,
    /// None there: TBC 0.
    ClearTab,
    /// None in any column: TBC 3.
    ClearTabs,
    /// The rows from the first to before the second scroll, and the cursor is at home: DECSTBM.
    /// Less than two rows change nothing.
    Margins(u16, u16),
    /// A mode is set or reset.
    Mode(Mode, bool),
    /// Rows are counted from the top margin, or not, and the cursor is at home: DECOM.
    Origin(bool),
    /// All cells become blank, there are no margins, and the cursor is at home, where
    /// [`Mode::Columns`] is set: DECCOLM. The screen has as many columns as before.
    Columns,
    /// Whether the set G0 is that of line drawing: SCS.
    G0Draws(bool),
    /// Whether the set G1 is.
    G1Draws(bool),
    /// Whether characters are of G1: SO and SI.
    Shift(bool),
    /// The cursor is remembered: DECSC, mode 1048.
    Save,
    /// The cursor is as it was remembered: DECRC.
    Restore,
    /// The alternate screen is shown: modes 47 and 1047.
    ShowAlternate,
    /// The main screen is shown: mode 47.
    ShowMain,
    /// The same, and the alternate screen is blank from then on: mode 1047.
    ClearAlternate,
    /// The cursor is remembered, and the alternate screen is shown, blank: mode 1049.
    EnterAlternate,
    /// The main screen is shown, and the cursor is as it was remembered: mode 1049.
    LeaveAlternate,
    /// Modes, margins, look and character sets are as at first: DECSTR.
    SoftReset,
    /// All is as at first: RIS.
    Reset,
}
