//! Sixel images.
ghost use Rattle.std.specs.Prelude.{◌≡◌};
ghost use Rattle.esc_sixel.specs.Dimensions.{dimensions_of};
ghost use Rattle.esc_sixel.specs.Texts.{sixel_output};

use crate::dimensions::measure;
use crate::sixel_data::SixelData;
use crate::write_data::write_content;
use crate::write_header::write_header;
use esc_values::Items;
use std::alloc::{Allocator, Global};
use std::fmt;

/// A sixel image.
#[derive(Drop)]
#[derive_where(Debug, PartialEq, Eq)]
pub struct Sixel<A: Allocator = Global> {
    /// The pixel aspect ratio is pan to pad: a pixel is so many units high.
    pub pan: i64,
    /// A pixel is so many units wide.
    pub pad: i64,
    /// The width in pixels, if raster attributes gave one.
    pub pixel_width: Option<u32>,
    /// The height in pixels, if raster attributes gave one.
    pub pixel_height: Option<u32>,
    /// Says whether pixels of 0 leave the old pixels; else they are drawn in the background colour.
    pub background_is_transparent: bool,
    /// The horizontal grid size, if the header has one.
    pub horizontal_grid_size: Option<i64>,
    /// The data.
    pub content: Items<SixelData, A>,
}

impl<A: Allocator> Sixel<A> {
    /// Width and height in pixels.
    ///
    /// Both sizes of the raster attributes, if both are there. Else the width of the widest line
    /// and six times the number of the last band that has a sixel; 0 if none has. A line ends at a
    /// carriage return and at a new line, so lines that are drawn over one another do not add up; a
    /// band ends at a new line. Both are at most `u32::MAX`. Takes no memory.
    pub fn dimensions(&self) -> (u32, u32)
        ensures { result ≡ dimensions_of self.now }
    {
        match self.pixel_width {
            Some(width) => match self.pixel_height {
                Some(height) => (width, height),
                None => measure(self.content.as_slice()),
            },
            None => measure(self.content.as_slice()),
        }
    }
}

/// Writes `ESC P`, the header and the data, without the string terminator. Pan and pad are the
/// first parameter if one means them and no width is there, else raster attributes after the
/// header; a height without a width is not written.
///
/// Takes no memory. Errs if the formatter's writer errs, and if a value is over 63.
impl<A: Allocator> fmt::Display for Sixel<A> {
    ghost output = { λ s. sixel_output s };

    fn fmt<W: fmt::Write>(&self, f: &mut fmt::Formatter<W>) -> fmt::Result {
        write_header(self, f)?;
        write_content(self.content.as_slice(), f)
    }
}
