//! Character sets of 94 characters that two bytes name.
ghost use Rattle.std.specs.Prelude.{◌≡◌};
ghost use Rattle.typed_functions.specs.Charsets.{pair_at, pair_first, pair_last};

/// A character set of 94 characters that an intermediate and a final byte name (DEC's VT510, SCS;
/// xterm's list).
#[derive(Clone, Copy, Debug, PartialEq, Eq)]
pub enum PairCharset {
    /// `" >`: Greece, the national set.
    Greek,
    /// `" 4`: Hebrew, of DEC.
    DecHebrew,
    /// `" ?`: Greek, of DEC.
    DecGreek,
    /// `% 0`: Turkish, of DEC.
    DecTurkish,
    /// `% 2`: Turkey, the national set.
    Turkish,
    /// `% 3`: SCS, the national set.
    Scs,
    /// `% 5`: the supplemental set of DEC.
    DecSupplementalGraphics,
    /// `% 6`: Portugal, the national set.
    Portuguese,
    /// `% =`: Hebrew, the national set.
    Hebrew,
    /// `& 4`: Cyrillic, of DEC.
    DecCyrillic,
    /// `& 5`: Russia, the national set.
    DecRussian,
}

impl PairCharset {
    /// Returns the intermediate that names it, before the final byte.
    pub fn intermediate(self) -> u8
        ensures { result ≡ pair_first self }
    {
        match self {
            PairCharset::Greek => b'"',
            PairCharset::DecHebrew => b'"',
            PairCharset::DecGreek => b'"',
            PairCharset::DecTurkish => b'%',
            PairCharset::Turkish => b'%',
            PairCharset::Scs => b'%',
            PairCharset::DecSupplementalGraphics => b'%',
            PairCharset::Portuguese => b'%',
            PairCharset::Hebrew => b'%',
            PairCharset::DecCyrillic => b'&',
            PairCharset::DecRussian => b'&',
        }
    }

    /// Returns the final byte that names it.
    pub fn final_byte(self) -> u8
        ensures { result ≡ pair_last self }
    {
        match self {
            PairCharset::Greek => b'>',
            PairCharset::DecHebrew => b'4',
            PairCharset::DecGreek => b'?',
            PairCharset::DecTurkish => b'0',
            PairCharset::Turkish => b'2',
            PairCharset::Scs => b'3',
            PairCharset::DecSupplementalGraphics => b'5',
            PairCharset::Portuguese => b'6',
            PairCharset::Hebrew => b'=',
            PairCharset::DecCyrillic => b'4',
            PairCharset::DecRussian => b'5',
        }
    }

    /// Returns the set that an intermediate and a final byte name, if there is one.
    pub fn of_bytes(intermediate: u8, last: u8) -> Option<PairCharset>
        ensures { result ≡ pair_at intermediate last }
    {
        match (intermediate, last) {
            (b'"', b'>') => Some(PairCharset::Greek),
            (b'"', b'4') => Some(PairCharset::DecHebrew),
            (b'"', b'?') => Some(PairCharset::DecGreek),
            (b'%', b'0') => Some(PairCharset::DecTurkish),
            (b'%', b'2') => Some(PairCharset::Turkish),
            (b'%', b'3') => Some(PairCharset::Scs),
            (b'%', b'5') => Some(PairCharset::DecSupplementalGraphics),
            (b'%', b'6') => Some(PairCharset::Portuguese),
            (b'%', b'=') => Some(PairCharset::Hebrew),
            (b'&', b'4') => Some(PairCharset::DecCyrillic),
            (b'&', b'5') => Some(PairCharset::DecRussian),
            _ => None,
        }
    }
}
