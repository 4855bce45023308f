//! Colours of three channels.
ghost use Rattle.std.specs.Prelude.{◌≡◌, ℕ};

use std::marker::Model;

/// A colour as the intensities of red, green and blue, each from 0, none, to 255, full. Contracts
/// see the three numbers.
#[derive(Clone, Copy, Debug, PartialEq, Eq)]
pub struct RgbColor {
    red: u8,
    green: u8,
    blue: u8,
}

impl Model for RgbColor {
    ghost Value = { ℕ × ℕ × ℕ };

    ghost view = { λ c. (c.red, c.green, c.blue) };

    ghost inverse = { λ v. record { red = v.0; green = v.1; blue = v.2 } };
}

impl RgbColor {
    /// Returns the colour of these intensities, each from 0 to 255.
    pub fn new_8bpc(red: u8, green: u8, blue: u8) -> RgbColor
        ensures { result ≡ (red, green, blue) }
    {
        RgbColor { red, green, blue }
    }

    /// Returns the intensities of red, green and blue that it was made of, each from 0 to 255.
    pub fn to_tuple_rgb8(self) -> (u8, u8, u8)
        ensures { result ≡ self }
    {
        (self.red, self.green, self.blue)
    }
}
