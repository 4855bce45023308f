//! This module defines the width or the height at which a file is shown
//! (<https://iterm2.com/documentation-images.html>).
ghost use Rattle.std.specs.Prelude.{◌≡◌, ◌*◌, ◌^◌, ◌++◌, nat_lt, IsTrue, ◌↔◌, Some};
ghost use Rattle.std.specs.Fmt.{DisplaysOnOk, signed_decimal};
ghost use Rattle.std.specs.Option.{ok_or, option_map};
ghost use Rattle.esc_values.specs.Scalars.{signed_of, some_if};
ghost use Rattle.esc_values.specs.declared.error.Error.TheVariants.{Invalid};
ghost use Rattle.esc_iterm.specs.Dimensions.{dimension_of, dimension_text, percentage, not_negative, pixels_product, FitsPixels, pixels_of};
ghost use Rattle.esc_iterm.specs.declared.dimension.ITermDimension.TheVariants.{Automatic, Cells};
ghost use Rattle.esc_iterm.specs.declared.dimension.ITermDimension.TheVariants.{Percent, Pixels};

use esc_values::Error;
use esc_values::scalar::read_i64;
use std::fmt;
use std::str::FromStr;

/// A dimension is the width or the height at which a file is shown (iTerm2's documentation, "Inline
/// Images Protocol").
///
/// Its text is `auto`, or a number, followed by `px` for pixels, `%` for a percentage of the window
/// and nothing for cells. The number is one of an `i64` in decimal: at least one ASCII digit, with
/// a `-`, a `+` or no sign before them.
#[derive(Clone, Copy, Debug, PartialEq, Eq)]
pub enum ITermDimension {
    /// The file's own size.
    Automatic,
    /// A number of cells of characters; a negative one counts as 0.
    Cells(i64),
    /// A number of pixels; a negative one counts as 0.
    Pixels(i64),
    /// A percentage of the window, held within 0 to 100.
    Percent(i64),
}

/// Returns `Automatic`.
impl Default for ITermDimension {
    ghost is_default = { λ d. d ≡ Automatic };

    fn default() -> ITermDimension {
        ITermDimension::Automatic
    }
}

/// Reads the text of a dimension. The error is `Invalid`, for any other text.
impl FromStr for ITermDimension {
    type Err = Error;

    ghost from_str_gives = { λ t r. r ≡ ok_or (dimension_of t) Invalid };

    fn from_str(text: &str) -> Result<ITermDimension, Error> {
        match read_dimension(text.as_bytes()) {
            Some(dimension) => Ok(dimension),
            None => Err(Error::Invalid),
        }
    }
}

// Returns the dimension that a text names.
pub(crate) fn read_dimension(text: &[u8]) -> Option<ITermDimension>
    ensures { result ≡ dimension_of text.now }
{
    if text == b"auto".as_slice() {
        return Some(ITermDimension::Automatic);
    }
    if let Some(number) = text.strip_suffix(b"px".as_slice()) {
        return read_pixels(number);
    }
    if let Some(number) = text.strip_suffix(b"%".as_slice()) {
        return read_percent(number);
    }
    read_cells(text)
}

// Reads a number of pixels.
fn read_pixels(number: &[u8]) -> Option<ITermDimension>
    ensures { result ≡ option_map Pixels (signed_of 64 number.now) }
{
    match read_i64(number) {
        Some(number) => Some(ITermDimension::Pixels(number)),
        None => None,
    }
}

// Reads a percentage.
fn read_percent(number: &[u8]) -> Option<ITermDimension>
    ensures { result ≡ option_map Percent (signed_of 64 number.now) }
{
    match read_i64(number) {
        Some(number) => Some(ITermDimension::Percent(number)),
        None => None,
    }
}

// Reads a number of cells.
fn read_cells(number: &[u8]) -> Option<ITermDimension>
    ensures { result ≡ option_map Cells (signed_of 64 number.now) }
{
    match read_i64(number) {
        Some(number) => Some(ITermDimension::Cells(number)),
        None => None,
    }
}

/// Writes the text of the dimension, which reads back. If it returns `Ok`, all of it was written.
impl fmt::Display for ITermDimension {
    ghost output = { λ d. Some (dimension_text d) };

    fn fmt<W: fmt::Write>(&self, f: &mut fmt::Formatter<W>) -> fmt::Result {
        match self {
            ITermDimension::Automatic => f.write_str("auto"),
            ITermDimension::Cells(number) => write!(f, "{number}"),
            ITermDimension::Pixels(number) => write_with_unit(*number, "px", f),
            ITermDimension::Percent(number) => write_with_unit(*number, "%", f),
        }
    }
}

// Writes a number and its unit.
fn write_with_unit<W: fmt::Write>(number: i64, unit: &str, f: &mut fmt::Formatter<W>) -> fmt::Result
    ensures { DisplaysOnOk W.write_str_gives f.old result
        (Some (signed_decimal number ++ unit.now)) f.new }
{
    write!(f, "{number}")?;
    f.write_str(unit)
}

impl ITermDimension {
    /// Returns the number of pixels, if a cell has `cell_size` pixels in this direction and the
    /// window has `num_cells` cells: none if it is automatic; that many times `cell_size` for
    /// cells; the number itself for pixels; for a percentage that part of the window, rounded down.
    /// The caller has seen that it fits, by `fits_pixels`.
    pub fn to_pixels(&self, cell_size: usize, num_cells: usize) -> Option<usize>
        requires { FitsPixels self.now cell_size num_cells }
        ensures { result ≡ pixels_of self.now cell_size num_cells }
    {
        match self {
            ITermDimension::Automatic => None,
            ITermDimension::Percent(_) => Some(self.product(cell_size, num_cells)? / 100),
            _ => self.product(cell_size, num_cells),
        }
    }

    /// Returns whether `to_pixels` may be called with these sizes: whether the product that it
    /// needs fits a `usize`, which has 64 bits. That is the product of the cells and their size;
    /// for a percentage, of the number of cells and their size, before it is divided by 100.
    pub fn fits_pixels(&self, cell_size: usize, num_cells: usize) -> bool
        ensures { IsTrue result ↔ FitsPixels self.now cell_size num_cells }
    {
        self.product(cell_size, num_cells).is_some()
    }

    // Returns the product that has to fit, if it does.
    fn product(&self, cell_size: usize, num_cells: usize) -> Option<usize>
        ensures { result ≡ some_if (nat_lt (pixels_product self.now cell_size num_cells) (2 ^ 64))
            (pixels_product self.now cell_size num_cells) }
    {
        match self {
            ITermDimension::Automatic => Some(0),
            ITermDimension::Cells(number) => not_negative(*number).checked_mul(cell_size),
            ITermDimension::Pixels(number) => Some(not_negative(*number)),
            ITermDimension::Percent(number) => {
                product_of_three(percentage(*number), num_cells, cell_size)
            }
        }
    }
}

// Returns the number, or 0 if it is negative.
fn not_negative(number: i64) -> usize
    ensures { result ≡ not_negative number }
{
    if number < 0 { 0 } else { number as usize }
}

// Returns the number, held within 0 to 100.
fn percentage(number: i64) -> usize
    ensures { result ≡ percentage number }
{
    not_negative(number).min(100)
}

// Returns the product, if it fits. The product of the first two may not fit though the whole is 0.
fn product_of_three(a: usize, b: usize, c: usize) -> Option<usize>
    ensures { result ≡ some_if (nat_lt (a * b * c) (2 ^ 64)) (a * b * c) }
{
    if c == 0 {
        return Some(0);
    }
    a.checked_mul(b)?.checked_mul(c)
}
