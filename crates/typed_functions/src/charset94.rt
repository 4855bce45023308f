//! Character sets of 94 characters.
ghost use Rattle.std.specs.Prelude.{◌≡◌};
ghost use Rattle.typed_functions.specs.Charsets.{charset94_at, charset94_byte};

/// A character set of 94 characters, by the country or the use that it is for (ECMA-35, 14.3.2; the
/// registry of ISO 2022; DEC's VT510, SCS; xterm's list). If two bytes name one set, the name of
/// the second ends in the byte.
#[derive(Clone, Copy, Debug, PartialEq, Eq)]
pub enum Charset94 {
    /// `B`: ASCII.
    Ascii = 0x42,
    /// `A`: the United Kingdom.
    UnitedKingdom = 0x41,
    /// `0`: special characters and line drawing of DEC.
    DecSpecialGraphics = 0x30,
    /// `<`: the supplemental set of DEC, or that which the user prefers.
    DecSupplemental = 0x3c,
    /// `>`: technical characters of DEC.
    DecTechnical = 0x3e,
    /// `1`: the alternate character ROM of the VT100.
    AlternateRom = 0x31,
    /// `2`: special graphics of that ROM.
    AlternateRomGraphics = 0x32,
    /// `C`: Finland.
    Finnish = 0x43,
    /// `5`: Finland.
    Finnish5 = 0x35,
    /// `H`: Sweden.
    Swedish = 0x48,
    /// `7`: Sweden.
    Swedish7 = 0x37,
    /// `K`: Germany; on the Linux console the set that the user loaded.
    German = 0x4b,
    /// `Q`: French Canada.
    FrenchCanadian = 0x51,
    /// `9`: French Canada.
    FrenchCanadian9 = 0x39,
    /// `R`: France.
    French = 0x52,
    /// `f`: France.
    FrenchF = 0x66,
    /// `Y`: Italy.
    Italian = 0x59,
    /// `Z`: Spain.
    Spanish = 0x5a,
    /// `4`: the Netherlands.
    Dutch = 0x34,
    /// `=`: Switzerland.
    Swiss = 0x3d,
    /// `` ` ``: Norway and Denmark.
    NorwegianDanish = 0x60,
    /// `E`: Norway and Denmark.
    NorwegianDanishE = 0x45,
    /// `6`: Norway and Denmark.
    NorwegianDanish6 = 0x36,
    /// `I`: Katakana of JIS X 0201.
    JisKatakana = 0x49,
    /// `J`: Roman characters of JIS X 0201.
    JisRoman = 0x4a,
}

impl Charset94 {
    /// Returns the final byte that names it.
    #[inline]
    pub fn final_byte(self) -> u8
        ensures { result ≡ charset94_byte self }
    {
        self as u8
    }

    /// Returns the set that a final byte names, if there is one.
    pub fn of_final_byte(byte: u8) -> Option<Charset94>
        ensures { result ≡ charset94_at byte }
    {
        match byte {
            b'B' => Some(Charset94::Ascii),
            b'A' => Some(Charset94::UnitedKingdom),
            b'0' => Some(Charset94::DecSpecialGraphics),
            b'<' => Some(Charset94::DecSupplemental),
            b'>' => Some(Charset94::DecTechnical),
            b'1' => Some(Charset94::AlternateRom),
            b'2' => Some(Charset94::AlternateRomGraphics),
            b'C' => Some(Charset94::Finnish),
            b'5' => Some(Charset94::Finnish5),
            b'H' => Some(Charset94::Swedish),
            b'7' => Some(Charset94::Swedish7),
            b'K' => Some(Charset94::German),
            b'Q' => Some(Charset94::FrenchCanadian),
            b'9' => Some(Charset94::FrenchCanadian9),
            b'R' => Some(Charset94::French),
            b'f' => Some(Charset94::FrenchF),
            b'Y' => Some(Charset94::Italian),
            b'Z' => Some(Charset94::Spanish),
            b'4' => Some(Charset94::Dutch),
            b'=' => Some(Charset94::Swiss),
            b'`' => Some(Charset94::NorwegianDanish),
            b'E' => Some(Charset94::NorwegianDanishE),
            b'6' => Some(Charset94::NorwegianDanish6),
            b'I' => Some(Charset94::JisKatakana),
            b'J' => Some(Charset94::JisRoman),
            _ => None,
        }
    }
}
