//! Styles of a span.
ghost use Rattle.std.specs.Prelude.{◌≡◌};
ghost use Rattle.esc_style.specs.Colors.{color_code};
ghost use Rattle.esc_style.specs.Styles.{style_color, style_property};

use crate::color::color_code;
use esc_values::RgbColor;

/// A declaration of CSS that a span has beside its classes: a colour that has no name, as its
/// intensities of red, green and blue.
#[derive(Clone, Copy, Debug, PartialEq, Eq)]
pub enum Style {
    /// `color`: that of the characters.
    Color(u8, u8, u8),
    /// `background-color`: that of their background.
    BackgroundColor(u8, u8, u8),
    /// `text-decoration-color`: that of their underline.
    TextDecorationColor(u8, u8, u8),
}

impl Style {
    // Returns the property, with its colon.
    pub fn property(&self) -> &'static str
        ensures { result.now ≡ style_property self.now }
    {
        match self {
            Style::Color(_, _, _) => "color:",
            Style::BackgroundColor(_, _, _) => "background-color:",
            Style::TextDecorationColor(_, _, _) => "text-decoration-color:",
        }
    }

    // Returns its colour, `#rrggbb`, and a semicolon.
    pub fn code(&self) -> [u8; 8]
        ensures { result ≡ color_code (style_color self.now) }
    {
        color_code(self.color())
    }

    // Returns the colour.
    fn color(&self) -> RgbColor
        ensures { result ≡ style_color self.now }
    {
        match self {
            Style::Color(red, green, blue)
            | Style::BackgroundColor(red, green, blue)
            | Style::TextDecorationColor(red, green, blue) => {
                RgbColor::new_8bpc(*red, *green, *blue)
            }
        }
    }
}
