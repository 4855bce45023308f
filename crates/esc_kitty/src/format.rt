//! This module defines the format of an image's pixels.
ghost use Rattle.std.specs.Prelude.{◌≡◌};
ghost use Rattle.std.specs.Option.{option_map};
ghost use Rattle.esc_kitty.specs.Words.{format_of, format_word};

/// The format of an image's pixels is one of these (key `f`).
#[derive(Clone, Copy, Debug, PartialEq, Eq)]
pub enum KittyImageFormat {
    /// `24`: three bytes a pixel: red, green and blue.
    Rgb,
    /// `32`: four bytes a pixel: red, green, blue and alpha.
    Rgba,
    /// `100`: a PNG file.
    Png,
}

impl KittyImageFormat {
    // Returns the format that a value of `f` names, if it names one; no format without the key.
    pub(crate) fn read(value: Option<&str>) -> Option<Option<KittyImageFormat>>
        ensures { result ≡ format_of (option_map (λ w. w.now) value.entry) }
    {
        let Some(word) = value else {
            return Some(None);
        };
        match word {
            "24" => Some(Some(KittyImageFormat::Rgb)),
            "32" => Some(Some(KittyImageFormat::Rgba)),
            "100" => Some(Some(KittyImageFormat::Png)),
            _ => None,
        }
    }

    // Returns the value of `f`, if there is a format.
    pub(crate) fn word(format: Option<KittyImageFormat>) -> Option<&'static str>
        ensures { option_map (λ w. w.now) result ≡ format_word format }
    {
        match format {
            None => None,
            Some(KittyImageFormat::Rgb) => Some("24"),
            Some(KittyImageFormat::Rgba) => Some("32"),
            Some(KittyImageFormat::Png) => Some("100"),
        }
    }
}
