//! This module defines colours, and the question for one.
ghost use Rattle.std.specs.Prelude.{Some};
ghost use Rattle.esc_osc_values.specs.Colors.{hex4, spec_text};

use crate::color16::Color16;
use std::fmt;

/// This is a colour, or the question for one.
#[derive(Clone, Debug, Drop, PartialEq)]
pub enum ColorOrQuery {
    /// Names this colour.
    Color(Color16),
    /// Asks for the colour.
    Query,
}

/// Writes `rgb:` and the three channels with `/` between them, each of four lower-case hexadecimal
/// digits, or `?`. If it returns `Ok`, all of it was written.
impl fmt::Display for ColorOrQuery {
    ghost output = { λ c. Some (spec_text c) };

    fn fmt<W: fmt::Write>(&self, f: &mut fmt::Formatter<W>) -> fmt::Result {
        match self {
            ColorOrQuery::Color(color) => {
                let red = Channel(color.red);
                let green = Channel(color.green);
                let blue = Channel(color.blue);
                write!(f, "rgb:{red}/{green}/{blue}")
            }
            ColorOrQuery::Query => f.write_str("?"),
        }
    }
}

// This is one channel, which prints as four digits.
#[derive(Clone, Copy)]
struct Channel(u16);

impl fmt::Display for Channel {
    ghost output = { λ c. Some (hex4 c.0) };

    fn fmt<W: fmt::Write>(&self, f: &mut fmt::Formatter<W>) -> fmt::Result {
        let high = (self.0 / 256) as u8;
        let low = (self.0 % 256) as u8;
        write!(f, "{high:02x}{low:02x}")
    }
}
