//! This module says how an image's pixels are compressed.
ghost use Rattle.std.specs.Prelude.{◌≡◌};
ghost use Rattle.std.specs.Option.{option_map};
ghost use Rattle.esc_kitty.specs.Words.{compression_of, compression_word};

/// The compression says how an image's pixels are compressed (key `o`).
#[derive(Clone, Copy, Debug, PartialEq, Eq)]
pub enum KittyImageCompression {
    /// They are not compressed. This is the default.
    None,
    /// `z`: they are compressed by deflate, in the zlib format (RFC 1950).
    Deflate,
}

impl KittyImageCompression {
    // Returns the compression that a value of `o` names, if it names one.
    pub(crate) fn read(value: Option<&str>) -> Option<KittyImageCompression>
        ensures { result ≡ compression_of (option_map (λ w. w.now) value.entry) }
    {
        let Some(word) = value else {
            return Some(KittyImageCompression::None);
        };
        match word {
            "z" => Some(KittyImageCompression::Deflate),
            _ => None,
        }
    }

    // Returns the value of `o`, unless this is the default.
    pub(crate) fn word(self) -> Option<&'static str>
        ensures { option_map (λ w. w.now) result ≡ compression_word self }
    {
        match self {
            KittyImageCompression::None => None,
            KittyImageCompression::Deflate => Some("z"),
        }
    }
}
