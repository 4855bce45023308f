//! This module says which tab stops are set or cleared.
ghost use Rattle.std.specs.Prelude.{◌≡◌};
ghost use Rattle.typed_functions.specs.Choices.{cursor_tabulation_control_at, cursor_tabulation_control_number};

/// Says which tab stops are set or cleared (ECMA-48, 8.3.17, CTC).
#[derive(Clone, Copy, Debug, PartialEq, Eq)]
pub enum CursorTabulationControl {
    /// 0: one is set at the cursor.
    SetCharacterTabStopAtActivePosition,
    /// 1: one is set at the line.
    SetLineTabStopAtActiveLine,
    /// 2: that at the cursor is cleared.
    ClearCharacterTabStopAtActivePosition,
    /// 3: that of the line is cleared.
    ClearLineTabStopAtActiveLine,
    /// 4: all in the line are cleared.
    ClearCharacterTabStopsAtActiveLine,
    /// 5: all of columns are cleared.
    ClearAllCharacterTabStops,
    /// 6: all of lines are cleared.
    ClearAllLineTabStops,
}

impl CursorTabulationControl {
    /// Returns its number.
    #[inline]
    pub fn number(self) -> u8
        ensures { result ≡ cursor_tabulation_control_number self }
    {
        self as u8
    }

    /// Returns the choice of a number, if there is one.
    #[inline]
    pub fn of_number(number: u8) -> Option<CursorTabulationControl>
        ensures { result ≡ cursor_tabulation_control_at number }
    {
        match number {
            0 => Some(CursorTabulationControl::SetCharacterTabStopAtActivePosition),
            1 => Some(CursorTabulationControl::SetLineTabStopAtActiveLine),
            2 => Some(CursorTabulationControl::ClearCharacterTabStopAtActivePosition),
            3 => Some(CursorTabulationControl::ClearLineTabStopAtActiveLine),
            4 => Some(CursorTabulationControl::ClearCharacterTabStopsAtActiveLine),
            5 => Some(CursorTabulationControl::ClearAllCharacterTabStops),
            6 => Some(CursorTabulationControl::ClearAllLineTabStops),
            _ => None,
        }
    }
}
