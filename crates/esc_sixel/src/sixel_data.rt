//! The items of sixel data.
ghost use Rattle.esc_sixel.specs.Texts.{data_output};

use crate::appending::{ROOM, put};
use esc_values::RgbColor;
use esc_values::ascii::as_str;
use std::fmt;

/// Six pixels, one above the other, as the bits of a number from 0 to 63. The lowest bit is the top
/// pixel.
pub type SixelValue = u8;

/// A slice of sixel data.
#[derive(Clone, Copy, PartialEq, Eq)]
pub enum SixelData {
    /// Six pixels, a byte from `?` to `~`.
    Data(SixelValue),
    /// Six pixels so many times, `!` with the count before them.
    Repeat {
        /// The pixels.
        content: SixelValue,
        /// The number of times.
        repeat_count: u32,
    },
    /// `#` with coordinate system 2: gives a colour to a number, and selects it.
    DefineColorMapRGB {
        /// The number.
        color_number: u16,
        /// The colour. In the text each channel is a percentage.
        rgb: RgbColor,
    },
    /// `#` with coordinate system 1: gives a colour to a number, and selects it.
    DefineColorMapHSL {
        /// The number.
        color_number: u16,
        /// The angle of the hue, from 0 to 360 degrees. Larger ones are kept as they are.
        hue_angle: u16,
        /// The lightness, from 0 to 100. Larger ones are kept as they are.
        lightness: u8,
        /// The saturation, from 0 to 100. Larger ones are kept as they are.
        saturation: u8,
    },
    /// `#`: selects the colour of this number.
    SelectColorMapEntry(u16),
    /// `$`: back to the start of the line, so that the next pixels are drawn over it.
    CarriageReturn,
    /// `-`: to the start of the next band of six lines.
    NewLine,
}

/// Writes the data as it comes in a sixel string. A channel of a colour is written as the least
/// percentage that is read as no less.
///
/// Takes no memory. Errs if the formatter's writer errs, and if a value is over 63; then it has
/// written no sixel.
impl fmt::Display for SixelData {
    ghost output = { data_output };

    fn fmt<W: fmt::Write>(&self, f: &mut fmt::Formatter<W>) -> fmt::Result {
        let mut bytes = [0; ROOM];
        match put(&mut bytes, 0, *self) {
            Some(end) => f.write_str(as_str(&bytes[..end])),
            None => Err(fmt::Error),
        }
    }
}

/// Writes each variant with its fields, as a derived Debug does, but the count of `Repeat` before
/// its pixels.
impl fmt::Debug for SixelData {
    fn fmt<W: fmt::Write>(&self, f: &mut fmt::Formatter<W>) -> fmt::Result {
        match self {
            SixelData::Data(value) => f.debug_tuple("Data").field(value).finish(),
            SixelData::Repeat {
                content,
                repeat_count,
            } => f
                .debug_struct("Repeat")
                .field("repeat_count", repeat_count)
                .field("content", content)
                .finish(),
            SixelData::DefineColorMapRGB { color_number, rgb } => f
                .debug_struct("DefineColorMapRGB")
                .field("color_number", color_number)
                .field("rgb", rgb)
                .finish(),
            SixelData::DefineColorMapHSL {
                color_number,
                hue_angle,
                lightness,
                saturation,
            } => f
                .debug_struct("DefineColorMapHSL")
                .field("color_number", color_number)
                .field("hue_angle", hue_angle)
                .field("lightness", lightness)
                .field("saturation", saturation)
                .finish(),
            SixelData::SelectColorMapEntry(number) => {
                f.debug_tuple("SelectColorMapEntry").field(number).finish()
            }
            SixelData::CarriageReturn => f.write_str("CarriageReturn"),
            SixelData::NewLine => f.write_str("NewLine"),
        }
    }
}
