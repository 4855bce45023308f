//! 8-bit encodings.
ghost use Rattle.std.specs.Prelude.{◌≡◌};
ghost use Rattle.esc_decode.specs.Pages.{character_in, table_of};

use crate::eight_bit::point_of;
use crate::tables::{
    LATIN_1, LATIN_1_WITH_CONTROLS, WINDOWS_1250, WINDOWS_1251, WINDOWS_1252, WINDOWS_1253,
    WINDOWS_1254, WINDOWS_1255, WINDOWS_1256, WINDOWS_1257, WINDOWS_1258,
};

/// An encoding in which each byte is a character, and those below 80 are ASCII. Names as that of
/// windows-1250 are those of the Encoding Standard (<https://encoding.spec.whatwg.org/>).
#[derive(Clone, Copy)]
pub enum CodePage {
    /// ISO/IEC 8859-1, in which the bytes 80 to 9F have no character. It is not windows-1252, for
    /// which the Encoding Standard takes the name.
    Latin1,
    /// The same with the controls of C1 as the bytes 80 to 9F.
    Latin1WithControls,
    /// Central Europe: windows-1250.
    Windows1250,
    /// Cyrillic: windows-1251.
    Windows1251,
    /// Western Europe: windows-1252.
    Windows1252,
    /// Greek: windows-1253.
    Windows1253,
    /// Turkish: windows-1254.
    Windows1254,
    /// Hebrew: windows-1255.
    Windows1255,
    /// Arabic: windows-1256.
    Windows1256,
    /// the Baltic: windows-1257.
    Windows1257,
    /// Vietnamese: windows-1258.
    Windows1258,
}

impl CodePage {
    /// The character of a byte; U+FFFD if it has none.
    pub fn character(self, byte: u8) -> char
        ensures { result ≡ character_in (table_of self) byte }
    {
        match char::from_u32(point_of(table_of(self), byte) as u32) {
            Some(c) => c,
            None => '\u{fffd}',
        }
    }
}

/// Which characters the bytes from 80 on are.
pub(crate) fn table_of(page: CodePage) -> &'static [u16; 128]
    ensures { result.now ≡ table_of page }
{
    match page {
        CodePage::Latin1 => &LATIN_1,
        CodePage::Latin1WithControls => &LATIN_1_WITH_CONTROLS,
        CodePage::Windows1250 => &WINDOWS_1250,
        CodePage::Windows1251 => &WINDOWS_1251,
        CodePage::Windows1252 => &WINDOWS_1252,
        CodePage::Windows1253 => &WINDOWS_1253,
        CodePage::Windows1254 => &WINDOWS_1254,
        CodePage::Windows1255 => &WINDOWS_1255,
        CodePage::Windows1256 => &WINDOWS_1256,
        CodePage::Windows1257 => &WINDOWS_1257,
        CodePage::Windows1258 => &WINDOWS_1258,
    }
}
