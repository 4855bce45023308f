//! Colours that are more than one number: how they are read and written.
ghost use Rattle.std.specs.Prelude.{◌≡◌, Some, None, IfNone, IfSome};
ghost use Rattle.std.specs.Fmt.{DisplaysOnOk};
ghost use Rattle.esc_values.specs.Params.{csi_params_text};
ghost use Rattle.typed_functions.specs.Renditions.{after_field, after_number, at_end, bare_direct, color_entries, color_of, color_with, direct, direct_in_space, indexed_color, three};

use crate::color_spec::ColorSpec;
use crate::entries::{byte_after, is_byte, write_entries};
use esc_values::CsiParam::{Integer, P};
use esc_values::{CsiParam, RgbColor};
use std::fmt;

// Returns the colour by the entries after 38, 48 or 58.
pub(crate) fn color_of(entries: &[CsiParam]) -> Option<ColorSpec>
    ensures { result ≡ color_of entries.now }
{
    match color_with(b';', entries) {
        Some(color) => Some(color),
        None => color_with(b':', entries),
    }
}

// Does the same, with this separator.
fn color_with(separator: u8, entries: &[CsiParam]) -> Option<ColorSpec>
    ensures { result ≡ color_with separator entries.now }
{
    match byte_after(separator, entries) {
        Some((5, rest)) => indexed(separator, rest),
        Some((2, rest)) => direct(separator, rest),
        Some(_) => None,
        None => None,
    }
}

// Returns an entry of the palette.
fn indexed(separator: u8, entries: &[CsiParam]) -> Option<ColorSpec>
    ensures { result ≡ indexed_color separator entries.now }
{
    let Some((index, rest)) = byte_after(separator, entries) else {
        return None;
    };
    if rest.is_empty() {
        Some(ColorSpec::PaletteIndex(index))
    } else {
        None
    }
}

// Returns three intensities, with `:` also after a colour space and before a tolerance.
fn direct(separator: u8, entries: &[CsiParam]) -> Option<ColorSpec>
    ensures { result ≡ direct separator entries.now }
{
    match bare_direct(separator, entries) {
        Some(color) => Some(color),
        None => {
            if separator == b':' {
                direct_in_space(entries)
            } else {
                None
            }
        }
    }
}

// Returns three intensities alone.
fn bare_direct(separator: u8, entries: &[CsiParam]) -> Option<ColorSpec>
    ensures { result ≡ bare_direct separator entries.now }
{
    match three(separator, entries) {
        Some((color, rest)) => at_end(rest, color),
        None => None,
    }
}

// Returns three intensities after a colour space, and before at most three fields of a tolerance.
fn direct_in_space(entries: &[CsiParam]) -> Option<ColorSpec>
    ensures { result ≡ direct_in_space entries.now }
{
    match three(b':', after_field(entries)) {
        Some((color, rest)) => at_end(after_field(after_field(after_field(rest))), color),
        None => None,
    }
}

// Returns the colour, if nothing follows.
fn at_end(entries: &[CsiParam], color: RgbColor) -> Option<ColorSpec>
    ensures { result ≡ at_end entries.now (ColorSpec.TrueColor color) }
{
    if entries.is_empty() {
        Some(ColorSpec::TrueColor(color))
    } else {
        None
    }
}

// Returns three intensities, and the rest.
fn three(separator: u8, entries: &[CsiParam]) -> Option<(RgbColor, &[CsiParam])>
    ensures some { IfSome result (λ p. three separator entries.now ≡ Some (p.0, p.1.now)) }
    ensures none { IfNone result (three separator entries.now ≡ None) }
{
    let Some((red, rest)) = byte_after(separator, entries) else {
        return None;
    };
    let Some((green, rest)) = byte_after(separator, rest) else {
        return None;
    };
    let Some((blue, rest)) = byte_after(separator, rest) else {
        return None;
    };
    Some((RgbColor::new_8bpc(red, green, blue), rest))
}

// Returns the rest after a field, if one comes.
fn after_field(entries: &[CsiParam]) -> &[CsiParam]
    ensures { result.now ≡ after_field entries.now }
{
    let Some((mark, rest)) = entries.split_first() else {
        return entries;
    };
    if is_byte(b':', *mark) {
        after_number(rest)
    } else {
        entries
    }
}

// Returns the rest after a number, if one comes.
fn after_number(entries: &[CsiParam]) -> &[CsiParam]
    ensures { result.now ≡ after_number entries.now }
{
    match entries.split_first() {
        Some((Integer(_), rest)) => rest,
        _ => entries,
    }
}

// Writes a colour that has no number of its own, after its target, with this separator.
pub(crate) fn write_color<W: fmt::Write>(
    target: u8,
    separator: u8,
    color: ColorSpec,
    f: &mut fmt::Formatter<W>,
) -> fmt::Result
    ensures { DisplaysOnOk W.write_str_gives f.old result
        (Some (csi_params_text (color_entries target separator color))) f.new }
{
    let target = Integer(target as i64);
    let mark = P(separator);
    match color {
        ColorSpec::Default => Ok(()),
        ColorSpec::PaletteIndex(index) => {
            write_entries(&[target, mark, Integer(5), mark, Integer(index as i64)], f)
        }
        ColorSpec::TrueColor(color) => {
            let (red, green, blue) = color.to_tuple_rgb8();
            let (red, green, blue) = (
                Integer(red as i64),
                Integer(green as i64),
                Integer(blue as i64),
            );
            write_entries(
                &[target, mark, Integer(2), mark, red, mark, green, mark, blue],
                f,
            )
        }
    }
}
