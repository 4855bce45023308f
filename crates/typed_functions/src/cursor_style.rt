//! The look of the cursor.
ghost use Rattle.std.specs.Prelude.{◌≡◌};
ghost use Rattle.typed_functions.specs.Choices.{cursor_style_at, cursor_style_number};

/// The look of the cursor (DEC's VT510, DECSCUSR; xterm's list for 5 and 6).
#[derive(Clone, Copy, Debug, PartialEq, Eq)]
pub enum CursorStyle {
    /// 0: the terminal's own.
    Default,
    /// 1: a block that blinks.
    BlinkingBlock,
    /// 2: a block.
    SteadyBlock,
    /// 3: a line below that blinks.
    BlinkingUnderline,
    /// 4: a line below.
    SteadyUnderline,
    /// 5: a bar that blinks.
    BlinkingBar,
    /// 6: a bar.
    SteadyBar,
}

impl CursorStyle {
    /// Returns its number.
    #[inline]
    pub fn number(self) -> u8
        ensures { result ≡ cursor_style_number self }
    {
        self as u8
    }

    /// Returns the choice of a number, if there is one.
    #[inline]
    pub fn of_number(number: u8) -> Option<CursorStyle>
        ensures { result ≡ cursor_style_at number }
    {
        match number {
            0 => Some(CursorStyle::Default),
            1 => Some(CursorStyle::BlinkingBlock),
            2 => Some(CursorStyle::SteadyBlock),
            3 => Some(CursorStyle::BlinkingUnderline),
            4 => Some(CursorStyle::SteadyUnderline),
            5 => Some(CursorStyle::BlinkingBar),
            6 => Some(CursorStyle::SteadyBar),
            _ => None,
        }
    }
}
