//! Colours of renditions in words.

use dump_page::Phrase;
use esc_values::RgbColor;
use typed_functions::ColorSpec;

/// Adds the thing that has a colour, and the colour: `default`, `palette` and its place there, or
/// `#` and its red, green and blue, each as two hexadecimal digits.
pub fn add_color(what: &'static str, color: ColorSpec, to: &mut Phrase) {
    to.add(what);
    match color {
        ColorSpec::Default => to.add("default"),
        ColorSpec::PaletteIndex(index) => to.add_integer("palette ", i64::from(index)),
        ColorSpec::TrueColor(rgb) => add_channels(rgb, to),
    }
}

fn add_channels(rgb: RgbColor, to: &mut Phrase) {
    let (red, green, blue) = rgb.to_tuple_rgb8();
    to.add("#");
    for channel in [red, green, blue] {
        to.add_hex(channel, b'a');
    }
}
