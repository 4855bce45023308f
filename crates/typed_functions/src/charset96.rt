//! Character sets of 96 characters.
ghost use Rattle.std.specs.Prelude.{◌≡◌};
ghost use Rattle.typed_functions.specs.Charsets.{charset96_at, charset96_byte};

/// A character set of 96 characters, the right half of a part of ISO 8859 (ECMA-35, 14.3.2; the
/// registry of ISO 2022; DEC's VT510, SCS).
#[derive(Clone, Copy, Debug, PartialEq, Eq)]
pub enum Charset96 {
    /// `A`: ISO 8859-1.
    Latin1 = 0x41,
    /// `B`: ISO 8859-2.
    Latin2 = 0x42,
    /// `C`: ISO 8859-3.
    Latin3 = 0x43,
    /// `D`: ISO 8859-4.
    Latin4 = 0x44,
    /// `F`: ISO 8859-7, Greek.
    Greek = 0x46,
    /// `G`: ISO 8859-6, Arabic.
    Arabic = 0x47,
    /// `H`: ISO 8859-8, Hebrew.
    Hebrew = 0x48,
    /// `L`: ISO 8859-5, Cyrillic.
    Cyrillic = 0x4c,
    /// `M`: ISO 8859-9.
    Latin5 = 0x4d,
}

impl Charset96 {
    /// Returns the final byte that names it.
    #[inline]
    pub fn final_byte(self) -> u8
        ensures { result ≡ charset96_byte self }
    {
        self as u8
    }

    /// Returns the set that a final byte names, if there is one.
    pub fn of_final_byte(byte: u8) -> Option<Charset96>
        ensures { result ≡ charset96_at byte }
    {
        match byte {
            b'A' => Some(Charset96::Latin1),
            b'B' => Some(Charset96::Latin2),
            b'C' => Some(Charset96::Latin3),
            b'D' => Some(Charset96::Latin4),
            b'F' => Some(Charset96::Greek),
            b'G' => Some(Charset96::Arabic),
            b'H' => Some(Charset96::Hebrew),
            b'L' => Some(Charset96::Cyrillic),
            b'M' => Some(Charset96::Latin5),
            _ => None,
        }
    }
}
