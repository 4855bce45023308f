//! This module defines sixel data as rows of numbers, for callers without enums.
ghost use Rattle.std.specs.Prelude.{◌≡◌, ◌↔◌, IfSome, IsTrue, None};
ghost use Rattle.flat_values.specs.FoundSixels.{item_in};
ghost use Rattle.flat_values.specs.Sixels.{color_row, pixels_row, sixel_row};
ghost use Rattle.esc_sixel.specs.declared.sixel_data.SixelData.{SixelData as Part};

use esc_sixel::SixelData;
use esc_values::RgbColor;

/// The kind of six pixels.
pub const PIXELS: u32 = 0;

/// The kind of six pixels with a count before them.
pub const REPEAT: u32 = 1;

/// The kind that gives a colour to a number, as red, green and blue.
pub const DEFINE_RGB: u32 = 2;

/// The kind that gives a colour to a number, as hue, lightness and saturation.
pub const DEFINE_HSL: u32 = 3;

/// The kind that selects the colour of a number.
pub const SELECT: u32 = 4;

/// The kind of a carriage return.
pub const CARRIAGE_RETURN: u32 = 5;

/// The kind of a new line.
pub const NEW_LINE: u32 = 6;

/// A row is an item of sixel data. A part that has no meaning for its kind is 0.
#[repr(C)]
#[derive(Clone, Copy, PartialEq, Eq)]
pub struct SixelRow {
    /// The kind of the item: [`PIXELS`], [`REPEAT`] and so on.
    pub kind: u32,
    /// The number of times that its pixels come: with [`PIXELS`] 1.
    pub count: u32,
    /// The number of a colour.
    pub color: u16,
    /// The angle of a hue, from 0 to 360. It may be larger.
    pub hue: u16,
    /// Six pixels, one above the other, as the bits of a number from 0 to 63. The lowest bit is the
    /// top pixel.
    pub pixels: u8,
    /// The red, from 0 to 255.
    pub red: u8,
    /// The green, from 0 to 255.
    pub green: u8,
    /// The blue, from 0 to 255.
    pub blue: u8,
    /// The lightness, from 0 to 100. It may be larger.
    pub lightness: u8,
    /// The saturation, from 0 to 100. It may be larger.
    pub saturation: u8,
}

impl SixelRow {
    /// Returns the row of an item.
    pub fn of(item: &SixelData) -> SixelRow
        ensures { result ≡ sixel_row item.now }
    {
        match item {
            SixelData::Data(pixels) => drawn(PIXELS, *pixels, 1),
            SixelData::Repeat {
                content,
                repeat_count,
            } => drawn(REPEAT, *content, *repeat_count),
            SixelData::DefineColorMapRGB { color_number, rgb } => {
                let (red, green, blue) = rgb.to_tuple_rgb8();
                SixelRow {
                    red,
                    green,
                    blue,
                    ..colored(DEFINE_RGB, *color_number)
                }
            }
            SixelData::DefineColorMapHSL {
                color_number,
                hue_angle,
                lightness,
                saturation,
            } => SixelRow {
                hue: *hue_angle,
                lightness: *lightness,
                saturation: *saturation,
                ..colored(DEFINE_HSL, *color_number)
            },
            SixelData::SelectColorMapEntry(number) => colored(SELECT, *number),
            SixelData::CarriageReturn => drawn(CARRIAGE_RETURN, 0, 0),
            SixelData::NewLine => drawn(NEW_LINE, 0, 0),
        }
    }

    /// Returns the item that has this row; none if no item has it.
    pub fn item(&self) -> Option<SixelData>
        ensures has { IfSome result (λ d. sixel_row d ≡ self.now) }
        ensures none { result ≡ None → (d : Part) → sixel_row d ≡ self.now → ⊥ }
    {
        let item = self.said();
        let row = SixelRow::of(&item);
        if are_same(&row, self) {
            Some(item)
        } else {
            None
        }
    }

    // Returns the item of its kind; a new line if there is no such kind.
    fn said(&self) -> SixelData
        ensures { result ≡ item_in self.now }
    {
        match self.kind {
            PIXELS => SixelData::Data(self.pixels),
            REPEAT => SixelData::Repeat {
                content: self.pixels,
                repeat_count: self.count,
            },
            DEFINE_RGB => SixelData::DefineColorMapRGB {
                color_number: self.color,
                rgb: RgbColor::new_8bpc(self.red, self.green, self.blue),
            },
            DEFINE_HSL => SixelData::DefineColorMapHSL {
                color_number: self.color,
                hue_angle: self.hue,
                lightness: self.lightness,
                saturation: self.saturation,
            },
            SELECT => SixelData::SelectColorMapEntry(self.color),
            CARRIAGE_RETURN => SixelData::CarriageReturn,
            _ => SixelData::NewLine,
        }
    }
}

// Returns whether two rows are the same.
fn are_same(row: &SixelRow, other: &SixelRow) -> bool
    ensures { IsTrue result ↔ (row.now ≡ other.now) }
{
    row == other
}

// Returns a row of this kind, with pixels that come `count` times.
fn drawn(kind: u32, pixels: u8, count: u32) -> SixelRow
    ensures { result ≡ pixels_row kind pixels count }
{
    SixelRow {
        kind,
        count,
        color: 0,
        hue: 0,
        pixels,
        red: 0,
        green: 0,
        blue: 0,
        lightness: 0,
        saturation: 0,
    }
}

// Returns a row of this kind, with the number of a colour.
fn colored(kind: u32, color: u16) -> SixelRow
    ensures { result ≡ color_row kind color }
{
    SixelRow {
        color,
        ..drawn(kind, 0, 0)
    }
}
