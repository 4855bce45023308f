//! This module says which tab stops are cleared.
ghost use Rattle.std.specs.Prelude.{◌≡◌};
ghost use Rattle.typed_functions.specs.Choices.{tabulation_clear_at, tabulation_clear_number};

/// Says which tab stops are cleared (ECMA-48, 8.3.154, TBC).
#[derive(Clone, Copy, Debug, PartialEq, Eq)]
pub enum TabulationClear {
    /// 0: that at the cursor.
    ClearCharacterTabStopAtActivePosition,
    /// 1: that of the line.
    ClearLineTabStopAtActivePosition,
    /// 2: all in the line.
    ClearCharacterTabStopsAtActiveLine,
    /// 3: all of columns.
    ClearAllCharacterTabStops,
    /// 4: all of lines.
    ClearAllLineTabStops,
    /// 5: all.
    ClearAllTabStops,
}

impl TabulationClear {
    /// Returns its number.
    #[inline]
    pub fn number(self) -> u8
        ensures { result ≡ tabulation_clear_number self }
    {
        self as u8
    }

    /// Returns the choice of a number, if there is one.
    #[inline]
    pub fn of_number(number: u8) -> Option<TabulationClear>
        ensures { result ≡ tabulation_clear_at number }
    {
        match number {
            0 => Some(TabulationClear::ClearCharacterTabStopAtActivePosition),
            1 => Some(TabulationClear::ClearLineTabStopAtActivePosition),
            2 => Some(TabulationClear::ClearCharacterTabStopsAtActiveLine),
            3 => Some(TabulationClear::ClearAllCharacterTabStops),
            4 => Some(TabulationClear::ClearAllLineTabStops),
            5 => Some(TabulationClear::ClearAllTabStops),
            _ => None,
        }
    }
}
