//! The meaning of the parameters of a command.
ghost use Rattle.std.specs.Prelude.{◌<◌, ◌≡◌, ℕ, List, min, pos, unwrap_or};
ghost use Rattle.esc_sixel.specs.Meaning.{number, percent, size_of, color_of, repeat_of, sizes_of};
ghost use Rattle.esc_sixel.specs.Meaning.{percent as percent_of};
ghost use Rattle.esc_sixel.specs.Runs.{Keeps, param};

use crate::parameters::Parameters;
use crate::sixel_data::{SixelData, SixelValue};
use esc_values::RgbColor;

// Parameter `k`, 0 if it is missing, at most `u16::MAX`.
fn short(parameters: &Parameters, k: usize) -> u16
    requires { k < 5 }
    ensures { (r : List ℕ) → Keeps parameters.now r → result ≡ min (number r k) 65535 }
{
    parameters.get(k).unwrap_or(0).min(65535) as u16
}

// Parameter `k`, 0 if it is missing, at most `u8::MAX`.
fn byte(parameters: &Parameters, k: usize) -> u8
    requires { k < 5 }
    ensures { (r : List ℕ) → Keeps parameters.now r → result ≡ min (number r k) 255 }
{
    parameters.get(k).unwrap_or(0).min(255) as u8
}

// Returns the channel of a colour that parameter `k` gives as a percentage.
fn channel(parameters: &Parameters, k: usize) -> u8
    requires { k < 5 }
    ensures { (r : List ℕ) → Keeps parameters.now r → result ≡ percent (number r k) }
{
    let percent = parameters.get(k).unwrap_or(0).min(100);
    (255 * percent / 100) as u8
}

// Returns the channel of a colour that is given as a percentage.
#[inline(always)]
pub(crate) fn channel_of(percent: u32) -> u8
    ensures { result ≡ percent_of percent }
{
    let percent = percent.min(100);
    (255 * percent / 100) as u8
}

// Returns the data of a `#` with these parameters.
pub(crate) fn color(parameters: &Parameters) -> SixelData
    ensures { (r : List ℕ) → Keeps parameters.now r → result ≡ color_of r }
{
    if !parameters.has_separators(4) {
        return SixelData::SelectColorMapEntry(short(parameters, 0));
    }
    if parameters.get(1) == Some(1) {
        return SixelData::DefineColorMapHSL {
            color_number: short(parameters, 0),
            hue_angle: short(parameters, 2),
            lightness: byte(parameters, 3),
            saturation: byte(parameters, 4),
        };
    }
    let red = channel(parameters, 2);
    let green = channel(parameters, 3);
    let blue = channel(parameters, 4);
    SixelData::DefineColorMapRGB {
        color_number: short(parameters, 0),
        rgb: RgbColor::new_8bpc(red, green, blue),
    }
}

// Returns the data of a `!` with these parameters, before six pixels.
pub(crate) fn repeat(parameters: &Parameters, value: SixelValue) -> SixelData
    ensures { (r : List ℕ) → Keeps parameters.now r → result ≡ repeat_of r value }
{
    SixelData::Repeat {
        repeat_count: parameters.get(0).unwrap_or(1).min(4294967295) as u32,
        content: value,
    }
}

// Parameter `k`, if it is there and has 32 bits.
fn size(parameters: &Parameters, k: usize) -> Option<u32>
    requires { k < 5 }
    ensures { (r : List ℕ) → Keeps parameters.now r → result ≡ size_of r k }
{
    let number = parameters.get(k)?;
    if number >= 4294967296 {
        return None;
    }
    Some(number as u32)
}

// Returns the width and the height of raster attributes, if both have 32 bits and the image is not
// oversize.
pub(crate) fn sizes(parameters: &Parameters) -> Option<(u32, u32)>
    ensures { (r : List ℕ) → Keeps parameters.now r → result ≡ sizes_of r }
{
    let width = size(parameters, 2)?;
    let height = size(parameters, 3)?;
    if u64::from(width) * u64::from(height) > 100_000_000 {
        return None;
    }
    Some((width, height))
}

// Parameter `k`, or `default` if it is missing.
pub(crate) fn signed(parameters: &Parameters, k: usize, default: u64) -> i64
    requires place { k < 5 }
    requires small { default < 10 }
    ensures { (r : List ℕ) → Keeps parameters.now r → result ≡ pos (unwrap_or (param r k) default) }
{
    parameters
        .get(k)
        .unwrap_or(default)
        .min(0x7fff_ffff_ffff_ffff) as i64
}
