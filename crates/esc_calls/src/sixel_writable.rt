//! This module says which sixel images can be written.
ghost use Rattle.std.specs.Prelude.{◌≡◌, ◌<◌, ◌↔◌, IsTrue};
ghost use Rattle.esc_sixel.specs.Meaning.{percent};
ghost use Rattle.esc_sixel.specs.Texts.{least_percent};
ghost use Rattle.esc_sixel.specs.Writable.{AreSizes, AreWritableData, IsChannel, IsGrid, IsNatural, IsWritable, IsWritableData};

use esc_sixel::{Sixel, SixelData};

// Returns whether the text of an image reads back as it.
pub(crate) fn is_writable(sixel: &Sixel) -> bool
    ensures { IsTrue result ↔ IsWritable sixel.now }
{
    is_natural(sixel.pan)
        && is_natural(sixel.pad)
        && are_sizes(sixel.pixel_width, sixel.pixel_height)
        && is_grid(sixel.horizontal_grid_size)
        && are_writable(sixel.content.as_slice())
}

// Returns whether a number is not negative.
fn is_natural(number: i64) -> bool
    ensures { IsTrue result ↔ IsNatural number }
{
    0 <= number
}

// Returns whether it is so, if there is one.
fn is_grid(number: Option<i64>) -> bool
    ensures { IsTrue result ↔ IsGrid number }
{
    match number {
        Some(number) => is_natural(number),
        None => true,
    }
}

// Returns whether there is no size, or both are there and not too large.
fn are_sizes(width: Option<u32>, height: Option<u32>) -> bool
    ensures { IsTrue result ↔ AreSizes width height }
{
    match (width, height) {
        (Some(width), Some(height)) => u64::from(width) * u64::from(height) <= 100_000_000,
        (None, None) => true,
        _ => false,
    }
}

// Returns whether each item of data can be written.
fn are_writable(items: &[SixelData]) -> bool
    ensures { IsTrue result ↔ AreWritableData items.now }
{
    for item in items {
        if !is_writable_item(*item) {
            return false;
        }
    }
    true
}

// Returns whether it has pixels of six bits, and channels of percentages.
fn is_writable_item(item: SixelData) -> bool
    ensures { IsTrue result ↔ IsWritableData item }
{
    match item {
        SixelData::Data(pixels) => pixels < 64,
        SixelData::Repeat {
            content,
            repeat_count: _,
        } => content < 64,
        SixelData::DefineColorMapRGB {
            color_number: _,
            rgb,
        } => {
            let (red, green, blue) = rgb.to_tuple_rgb8();
            is_channel(red) && is_channel(green) && is_channel(blue)
        }
        _ => true,
    }
}

// Returns whether a channel of a colour is read of a percentage.
fn is_channel(channel: u8) -> bool
    ensures { IsTrue result ↔ IsChannel channel }
{
    channel == of_percentage(percentage(channel))
}

// Returns the least percentage that is read as no less than a channel.
fn percentage(channel: u8) -> u32
    ensures is { result ≡ least_percent channel }
    ensures few { result < 101 }
{
    (100 * u32::from(channel) + 254) / 255
}

// Returns the channel of a percentage.
fn of_percentage(percentage: u32) -> u8
    requires { percentage < 101 }
    ensures { result ≡ percent percentage }
{
    (255 * percentage / 100) as u8
}
