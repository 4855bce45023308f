//! The part of the screen that is erased.
ghost use Rattle.std.specs.Prelude.{◌≡◌};
ghost use Rattle.typed_functions.specs.Choices.{erase_in_display_at, erase_in_display_number};

/// The part of the screen that is erased (ECMA-48, 8.3.39, ED; xterm's list for 3).
#[derive(Clone, Copy, Debug, PartialEq, Eq)]
pub enum EraseInDisplay {
    /// 0: from the cursor to the end.
    EraseToEndOfDisplay,
    /// 1: from the start to the cursor.
    EraseToStartOfDisplay,
    /// 2: all of it.
    EraseDisplay,
    /// 3: the lines that scrolled off.
    EraseScrollback,
}

impl EraseInDisplay {
    /// Returns its number.
    #[inline]
    pub fn number(self) -> u8
        ensures { result ≡ erase_in_display_number self }
    {
        self as u8
    }

    /// Returns the choice of a number, if there is one.
    #[inline]
    pub fn of_number(number: u8) -> Option<EraseInDisplay>
        ensures { result ≡ erase_in_display_at number }
    {
        match number {
            0 => Some(EraseInDisplay::EraseToEndOfDisplay),
            1 => Some(EraseInDisplay::EraseToStartOfDisplay),
            2 => Some(EraseInDisplay::EraseDisplay),
            3 => Some(EraseInDisplay::EraseScrollback),
            _ => None,
        }
    }
}
