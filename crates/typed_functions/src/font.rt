//! Fonts.
ghost use Rattle.std.specs.Prelude.{◌≡◌, ◌<◌};
ghost use Rattle.typed_functions.specs.Numbers.{font_at, font_number};

/// The font of characters (ECMA-48, 8.3.117, SGR: parameters 10 to 20).
#[derive(Clone, Copy, Debug, PartialEq, Eq)]
pub enum Font {
    /// SGR 10: the primary font.
    Default,
    /// SGR 11: the first alternative font.
    Alternate1,
    /// SGR 12: the second.
    Alternate2,
    /// SGR 13: the third.
    Alternate3,
    /// SGR 14: the fourth.
    Alternate4,
    /// SGR 15: the fifth.
    Alternate5,
    /// SGR 16: the sixth.
    Alternate6,
    /// SGR 17: the seventh.
    Alternate7,
    /// SGR 18: the eighth.
    Alternate8,
    /// SGR 19: the ninth.
    Alternate9,
    /// SGR 20: Fraktur, or Gothic.
    Fraktur,
}

impl Font {
    // Returns its number, from 0 to 10.
    #[inline]
    pub(crate) fn number(self) -> u8
        ensures number { result ≡ font_number self }
        ensures below { result < 11 }
    {
        self as u8
    }

    // Returns the font of a number from 0 to 10; Fraktur for any other.
    #[inline]
    pub(crate) fn at(number: u8) -> Font
        ensures { result ≡ font_at number }
    {
        match number {
            0 => Font::Default,
            1 => Font::Alternate1,
            2 => Font::Alternate2,
            3 => Font::Alternate3,
            4 => Font::Alternate4,
            5 => Font::Alternate5,
            6 => Font::Alternate6,
            7 => Font::Alternate7,
            8 => Font::Alternate8,
            9 => Font::Alternate9,
            _ => Font::Fraktur,
        }
    }
}
