//! This module defines the dynamic colours
//! (<https://invisible-island.net/xterm/ctlseqs/ctlseqs.html>, codes 10 to 19 and 110 to 119).
ghost use Rattle.std.specs.Prelude.{◌≡◌, ◌+◌};
ghost use Rattle.esc_osc_values.specs.Codes.{color_number, color_of};

/// A program may change, ask for and reset a dynamic colour (xterm's list of control sequences,
/// "VT100 text colors" and on, `Ps` 10 to 19). Its number is that of the code which changes it.
#[derive(Clone, Copy, Debug, PartialEq, Eq)]
pub enum DynamicColorNumber {
    /// The colour of the foreground of text.
    TextForegroundColor = 10,
    /// The colour of the background of text.
    TextBackgroundColor = 11,
    /// The colour of the text cursor.
    TextCursorColor = 12,
    /// The colour of the foreground of the pointer.
    MouseForegroundColor = 13,
    /// The colour of the background of the pointer.
    MouseBackgroundColor = 14,
    /// The colour of the foreground in Tektronix mode.
    TektronixForegroundColor = 15,
    /// The colour of the background in Tektronix mode.
    TektronixBackgroundColor = 16,
    /// The colour of the background of highlighted text.
    HighlightBackgroundColor = 17,
    /// The colour of the cursor in Tektronix mode.
    TektronixCursorColor = 18,
    /// The colour of the foreground of highlighted text.
    HighlightForegroundColor = 19,
}

impl DynamicColorNumber {
    /// Returns its number, from 10 to 19.
    pub fn number(self) -> u8
        ensures { result ≡ color_number self }
    {
        self as u8
    }

    /// Returns the colour of this number; none if the number is not one of 10 to 19.
    pub fn from_number(number: u8) -> Option<DynamicColorNumber>
        ensures { result ≡ color_of number }
    {
        match number {
            10 => Some(DynamicColorNumber::TextForegroundColor),
            11 => Some(DynamicColorNumber::TextBackgroundColor),
            12 => Some(DynamicColorNumber::TextCursorColor),
            13 => Some(DynamicColorNumber::MouseForegroundColor),
            14 => Some(DynamicColorNumber::MouseBackgroundColor),
            15 => Some(DynamicColorNumber::TektronixForegroundColor),
            16 => Some(DynamicColorNumber::TektronixBackgroundColor),
            17 => Some(DynamicColorNumber::HighlightBackgroundColor),
            18 => Some(DynamicColorNumber::TektronixCursorColor),
            19 => Some(DynamicColorNumber::HighlightForegroundColor),
            _ => None,
        }
    }

    /// Returns the colour of the next number, which a command with several colours changes next;
    /// none after the last, 19.
    pub fn next(self) -> Option<DynamicColorNumber>
        ensures { result ≡ color_of (color_number self + 1) }
    {
        DynamicColorNumber::from_number(self.number() + 1)
    }
}
