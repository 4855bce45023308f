//! Character sets of several bytes.
ghost use Rattle.std.specs.Prelude.{◌≡◌};
ghost use Rattle.typed_functions.specs.Charsets.{is_short, multibyte_at, multibyte_byte};

/// A character set whose characters have several bytes (ECMA-35, 14.3.2; the registry of ISO 2022).
#[derive(Clone, Copy, Debug, PartialEq, Eq)]
pub enum MultibyteCharset {
    /// `@`: JIS C 6226 of 1978.
    Jis1978 = 0x40,
    /// `A`: GB 2312.
    Gb2312 = 0x41,
    /// `B`: JIS X 0208 of 1983.
    Jis1983 = 0x42,
    /// `C`: KS X 1001.
    KsX1001 = 0x43,
    /// `D`: JIS X 0212.
    JisX0212 = 0x44,
    /// `E`: ISO-IR 165, which adds to GB 2312.
    IsoIr165 = 0x45,
    /// `G`: plane 1 of CNS 11643.
    Cns1 = 0x47,
    /// `H`: plane 2 of CNS 11643.
    Cns2 = 0x48,
    /// `I`: plane 3 of CNS 11643.
    Cns3 = 0x49,
    /// `J`: plane 4 of CNS 11643.
    Cns4 = 0x4a,
    /// `K`: plane 5 of CNS 11643.
    Cns5 = 0x4b,
    /// `L`: plane 6 of CNS 11643.
    Cns6 = 0x4c,
    /// `M`: plane 7 of CNS 11643.
    Cns7 = 0x4d,
    /// `O`: plane 1 of JIS X 0213 of 2000.
    JisX0213Plane1 = 0x4f,
    /// `P`: plane 2 of JIS X 0213.
    JisX0213Plane2 = 0x50,
    /// `Q`: plane 1 of JIS X 0213 of 2004.
    JisX0213Of2004 = 0x51,
}

impl MultibyteCharset {
    /// Returns the final byte that names it.
    #[inline]
    pub fn final_byte(self) -> u8
        ensures { result ≡ multibyte_byte self }
    {
        self as u8
    }

    /// Returns whether `ESC $` and the final byte alone designate it as G0, as before there were
    /// others (ECMA-35, 14.3.2.2).
    pub fn is_short(self) -> bool
        ensures { result ≡ is_short self }
    {
        self.final_byte() <= b'B'
    }

    /// Returns the set that a final byte names, if there is one.
    pub fn of_final_byte(byte: u8) -> Option<MultibyteCharset>
        ensures { result ≡ multibyte_at byte }
    {
        match byte {
            b'@' => Some(MultibyteCharset::Jis1978),
            b'A' => Some(MultibyteCharset::Gb2312),
            b'B' => Some(MultibyteCharset::Jis1983),
            b'C' => Some(MultibyteCharset::KsX1001),
            b'D' => Some(MultibyteCharset::JisX0212),
            b'E' => Some(MultibyteCharset::IsoIr165),
            b'G' => Some(MultibyteCharset::Cns1),
            b'H' => Some(MultibyteCharset::Cns2),
            b'I' => Some(MultibyteCharset::Cns3),
            b'J' => Some(MultibyteCharset::Cns4),
            b'K' => Some(MultibyteCharset::Cns5),
            b'L' => Some(MultibyteCharset::Cns6),
            b'M' => Some(MultibyteCharset::Cns7),
            b'O' => Some(MultibyteCharset::JisX0213Plane1),
            b'P' => Some(MultibyteCharset::JisX0213Plane2),
            b'Q' => Some(MultibyteCharset::JisX0213Of2004),
            _ => None,
        }
    }
}
