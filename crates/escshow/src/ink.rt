//! The colours of characters in a picture.

use esc_style::palettes::{Palette, Rgb};
use esc_style::{Color, Look, palette};

/// The colours and lines of characters.
#[derive(Clone, Copy)]
pub struct Ink {
    /// The colour of the characters.
    pub text: Rgb,
    /// The colour around them.
    pub ground: Rgb,
    /// The colour of their underline, if it has one of its own.
    pub underline: Option<Rgb>,
}

/// Returns the colours of a picture that asks for no others.
pub fn plain() -> Ink {
    let scheme = Palette::OneHalf.dark();
    Ink {
        text: scheme.text,
        ground: scheme.page,
        underline: None,
    }
}

/// Returns the colours of characters with this look.
pub fn ink_of(look: &Look) -> Ink {
    let plain = plain();
    let text = color_of(look.foreground).unwrap_or(plain.text);
    let ground = color_of(look.background).unwrap_or(plain.ground);
    let underline = color_of(look.underline_color);
    if look.inverse {
        Ink {
            text: ground,
            ground: text,
            underline,
        }
    } else {
        Ink {
            text,
            ground,
            underline,
        }
    }
}

// Returns the red, green and blue of a colour; none of the default colour.
fn color_of(color: Color) -> Option<Rgb> {
    match color {
        Color::Default => None,
        Color::Named(color) => {
            let colors = Palette::OneHalf.dark().colors;
            colors.get(color.index() as usize).copied()
        }
        Color::Palette(index) => Some(palette(index).to_tuple_rgb8()),
        Color::Direct(color) => Some(color.to_tuple_rgb8()),
    }
}
