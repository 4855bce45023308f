//! The pixels of an image of sixels.

use crate::colors::{Colors, hls, rgb_of};
use esc_sixel::{Sixel, SixelData};
use std::alloc::{AllocError, Global};

// Says how many pixels are above one another in a band.
const BAND: usize = 6;

/// Pixels, each with the number of its colour; 0 if none was drawn.
#[derive(Drop)]
pub(crate) struct Canvas {
    /// Says how many are beside one another.
    pub width: usize,
    /// Says how many lines there are.
    pub height: usize,
    /// They, line after line.
    pub cells: Vec<u16>,
    // the place of the next six: so many from the left, and so many from the top
    x: usize,
    y: usize,
}

impl Canvas {
    /// Returns a canvas of so many pixels, none of which is drawn.
    pub fn new(alloc: Global, width: usize, height: usize) -> Result<Canvas, AllocError> {
        let mut cells = Vec::new(alloc);
        let mut line = Vec::new(alloc);
        for _ in 0..width {
            fallible_alloc::extend(&mut line, &[0])?;
        }
        for _ in 0..height {
            fallible_alloc::extend(&mut cells, &line)?;
        }
        Ok(Canvas {
            width,
            height,
            cells,
            x: 0,
            y: 0,
        })
    }

    /// Draws these, in these colours. False if there are too many colours.
    pub fn draw(&mut self, content: &[SixelData], colors: &mut Colors) -> Result<bool, AllocError> {
        for item in content {
            let is_drawn = match item {
                SixelData::Data(value) => self.column(*value, 1, colors.current()),
                SixelData::Repeat {
                    content,
                    repeat_count,
                } => self.column(*content, *repeat_count, colors.current()),
                SixelData::DefineColorMapRGB { color_number, rgb } => {
                    colors.define(*color_number, rgb_of(*rgb))?
                }
                SixelData::DefineColorMapHSL {
                    color_number,
                    hue_angle,
                    lightness,
                    saturation,
                } => colors.define(*color_number, hls(*hue_angle, *lightness, *saturation))?,
                SixelData::SelectColorMapEntry(number) => colors.select(*number),
                SixelData::CarriageReturn => self.next_line(0),
                SixelData::NewLine => self.next_line(BAND),
            };
            if !is_drawn {
                return Ok(false);
            }
        }
        Ok(true)
    }

    // Draws so many columns of these six pixels, in this colour.
    fn column(&mut self, value: u8, count: u32, color: u16) -> bool {
        let start = self.x.min(self.width);
        let count = usize::try_from(count).unwrap_or(usize::MAX);
        let end = self.x.saturating_add(count).min(self.width).max(start);
        for bit in 0..6u32 {
            if value.wrapping_shr(bit) & 1 == 1 {
                let row = self.y.saturating_add(usize::try_from(bit).unwrap_or(0));
                self.fill(row, start, end, color);
            }
        }
        self.x = self.x.saturating_add(count);
        true
    }

    // Gives the pixels of a row from one place to another this colour.
    fn fill(&mut self, row: usize, start: usize, end: usize, color: u16) {
        if self.height <= row {
            return;
        }
        let before = row.saturating_mul(self.width);
        let from = before.saturating_add(start);
        let to = before.saturating_add(end);
        if let Some(cells) = self.cells.as_mut_slice().get_mut(from..to) {
            cells.fill(color);
        }
    }

    // Goes to the left, and so many pixels down.
    fn next_line(&mut self, down: usize) -> bool {
        self.x = 0;
        self.y = self.y.saturating_add(down);
        true
    }
}

/// Returns the number of pixels of an image beside one another, and of its lines: as many as its
/// raster attributes or all of its sixels say, and if it draws more, as many as it draws.
pub(crate) fn size_of(sixel: &Sixel) -> (usize, usize) {
    let (width, height) = sixel.dimensions();
    let mut extent = Extent {
        x: 0,
        y: 0,
        width: size(width),
        height: size(height),
    };
    for item in sixel.content.as_slice() {
        match item {
            SixelData::Data(value) => extent.add(*value, 1),
            SixelData::Repeat {
                content,
                repeat_count,
            } => extent.add(*content, *repeat_count),
            SixelData::CarriageReturn => extent.x = 0,
            SixelData::NewLine => {
                extent.x = 0;
                extent.y = extent.y.saturating_add(BAND);
            }
            SixelData::DefineColorMapRGB { .. }
            | SixelData::DefineColorMapHSL { .. }
            | SixelData::SelectColorMapEntry(_) => {}
        }
    }
    (extent.width, extent.height)
}

// Says how far sixels reach.
#[derive(Clone, Copy)]
struct Extent {
    x: usize,
    y: usize,
    width: usize,
    height: usize,
}

impl Extent {
    // Adds so many columns of these six pixels.
    fn add(&mut self, value: u8, count: u32) {
        self.x = self.x.saturating_add(size(count));
        if value == 0 {
            return;
        }
        let lines = 8u32.saturating_sub(value.leading_zeros());
        self.width = self.width.max(self.x);
        self.height = self.height.max(self.y.saturating_add(size(lines)));
    }
}

fn size(number: u32) -> usize {
    usize::try_from(number).unwrap_or(usize::MAX)
}
