//! The numbers of a colour of the palette.
ghost use Rattle.std.specs.Prelude.{◌<◌, ◌≤◌};

/// The numbers of a colour of the palette, as `38;5;n`: of two digits and no rendition, of one
/// digit, and of up to three.
#[derive(Clone, Copy)]
pub struct Indexed {
    /// The first number.
    pub first: u8,
    /// The second number.
    pub second: u8,
    /// The third number.
    pub third: u8,
    ghost fits: { (25 ≤ first) × (first < 100) × (second < 10) },
}
