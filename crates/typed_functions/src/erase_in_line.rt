//! The part of the line that is erased.
ghost use Rattle.std.specs.Prelude.{◌≡◌};
ghost use Rattle.typed_functions.specs.Choices.{erase_in_line_at, erase_in_line_number};

/// The part of the line that is erased (ECMA-48, 8.3.41, EL).
#[derive(Clone, Copy, Debug, PartialEq, Eq)]
pub enum EraseInLine {
    /// 0: from the cursor to the end.
    EraseToEndOfLine,
    /// 1: from the start to the cursor.
    EraseToStartOfLine,
    /// 2: all of it.
    EraseLine,
}

impl EraseInLine {
    /// Returns its number.
    #[inline]
    pub fn number(self) -> u8
        ensures { result ≡ erase_in_line_number self }
    {
        self as u8
    }

    /// Returns the choice of a number, if there is one.
    #[inline]
    pub fn of_number(number: u8) -> Option<EraseInLine>
        ensures { result ≡ erase_in_line_at number }
    {
        match number {
            0 => Some(EraseInLine::EraseToEndOfLine),
            1 => Some(EraseInLine::EraseToStartOfLine),
            2 => Some(EraseInLine::EraseLine),
            _ => None,
        }
    }
}
