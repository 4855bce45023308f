//! This module says how large the data of a sixel image is.
ghost use Rattle.std.specs.Prelude.{◌≡◌, ℕ, max, ◌+◌};
ghost use Rattle.esc_sixel.specs.Dimensions.{Has, line_after, band_after, found_after, measured_size};

use crate::sixel_data::SixelData;

// Says how far the data so far reaches. Each number is at most `u32::MAX`.
#[derive(Clone, Copy)]
pub(crate) struct Extent {
    // Says how wide the widest line is.
    pub(crate) widest: u32,
    // Says how wide the current line is.
    pub(crate) line: u32,
    // The number of the current band, the first being 1.
    pub(crate) band: u32,
    // The number of the last band that has a sixel, 0 if none has.
    pub(crate) last: u32,
}

impl Extent {
    // Adds so many sixels.
    fn add(&mut self, count: u32)
        ensures { (best n b f : ℕ) → Has self.old best n b f
            → Has self.new (max best (n + count)) (n + count) b b }
    {
        self.line = self.line.saturating_add(count);
        self.widest = self.widest.max(self.line);
        self.last = self.band;
    }

    // Takes one more slice of data.
    fn step(&mut self, item: &SixelData)
        ensures { (best n b f : ℕ) → Has self.old best n b f
            → Has self.new (max best (line_after n item.now)) (line_after n item.now)
            (band_after b item.now) (found_after b f item.now) }
    {
        match item {
            SixelData::Data(_) => self.add(1),
            SixelData::Repeat {
                repeat_count,
                content: _,
            } => self.add(*repeat_count),
            SixelData::DefineColorMapRGB {
                color_number: _,
                rgb: _,
            } => self.stay(),
            SixelData::DefineColorMapHSL {
                color_number: _,
                hue_angle: _,
                lightness: _,
                saturation: _,
            } => self.stay(),
            SixelData::SelectColorMapEntry(_) => self.stay(),
            SixelData::CarriageReturn => {
                self.line = 0;
            }
            SixelData::NewLine => {
                self.line = 0;
                self.band = self.band.saturating_add(1);
            }
        }
    }

    // Takes a colour, which has no place.
    fn stay(&mut self)
        ensures { (best n b f : ℕ) → Has self.old best n b f → Has self.new (max best n) n b f }
    {
        self.widest = self.widest.max(self.line);
    }
}

// Returns the width and height of the drawing of the data.
pub(crate) fn measure(content: &[SixelData]) -> (u32, u32)
    ensures { result ≡ measured_size content.now }
{
    let mut extent = Extent {
        widest: 0,
        line: 0,
        band: 1,
        last: 0,
    };
    for item in content {
        extent.step(item);
    }
    (extent.widest, extent.last.saturating_mul(6))
}
