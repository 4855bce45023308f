//! This module reads numbers by name, and the words of kitty's protocol, from rows.
ghost use Rattle.std.specs.Prelude.{◌≡◌};
ghost use Rattle.flat_values.specs.Found.{held_form, magnitude};
ghost use Rattle.flat_values.specs.FoundImages.{composition_of, compression_of, count, flag, format_in, format_of, count_or_zero, known_order, look, natural, order, verbosity_in};
ghost use Rattle.flat_values.specs.declared.field_name.FieldName.TheVariants as name;

use crate::field_name::FieldName;
use crate::said::{Said, length_of, signed};
use esc_kitty::{
    KittyFrameCompositionMode, KittyImageCompression, KittyImageFormat, KittyImageVerbosity,
};

// Returns the number of the first row of a name, if there is one.
fn look(name: FieldName, fields: &[Said<'_>]) -> Option<i64>
    ensures { result ≡ look fields.now name }
{
    for field in fields {
        if field.is(name) {
            return Some(field.number());
        }
    }
    None
}

// Returns that number from 0 up; 0 if there is none, or it is negative.
pub(crate) fn natural(name: FieldName, fields: &[Said<'_>]) -> u64
    ensures { result ≡ natural (look fields.now name) }
{
    match look(name, fields) {
        Some(number) => if number < 0 { 0 } else { number as u64 },
        None => 0,
    }
}

// Returns whether it is 1.
pub(crate) fn flag(name: FieldName, fields: &[Said<'_>]) -> bool
    ensures { result ≡ flag (look fields.now name) }
{
    natural(name, fields) == 1
}

// Returns the same, if there is one; 0 if it is over 32 bits.
pub(crate) fn count(name: FieldName, fields: &[Said<'_>]) -> Option<u32>
    ensures { result ≡ count held_form (look fields.now name) }
{
    match look(name, fields) {
        Some(number) => Some(length_of(number)),
        None => None,
    }
}

// Returns the same, and 0 if there is none.
pub(crate) fn known(name: FieldName, fields: &[Said<'_>]) -> u32
    ensures { result ≡ count_or_zero held_form (look fields.now name) }
{
    match look(name, fields) {
        Some(number) => length_of(number),
        None => 0,
    }
}

// Returns the number, if there is one; 0 if it has more than 32 bits.
pub(crate) fn order(name: FieldName, fields: &[Said<'_>]) -> Option<i32>
    ensures { result ≡ order held_form (look fields.now name) }
{
    match look(name, fields) {
        Some(number) => Some(signed(number)),
        None => None,
    }
}

// Returns the same, and 0 if there is none.
pub(crate) fn known_order(name: FieldName, fields: &[Said<'_>]) -> i32
    ensures { result ≡ known_order held_form (look fields.now name) }
{
    match look(name, fields) {
        Some(number) => signed(number),
        None => 0,
    }
}

// Reads what the terminal reports.
pub(crate) fn verbosity(fields: &[Said<'_>]) -> KittyImageVerbosity
    ensures { result ≡ verbosity_in (look fields.now) }
{
    match natural(FieldName::Verbosity, fields) {
        0 => KittyImageVerbosity::Verbose,
        1 => KittyImageVerbosity::OnlyErrors,
        _ => KittyImageVerbosity::Quiet,
    }
}

// Reads the format of pixels, if it is given.
pub(crate) fn format(fields: &[Said<'_>]) -> Option<KittyImageFormat>
    ensures { result ≡ format_in (look fields.now name.Format) }
{
    match look(FieldName::Format, fields) {
        Some(number) => Some(format_of(number)),
        None => None,
    }
}

// Returns the format of this number.
fn format_of(number: i64) -> KittyImageFormat
    ensures { result ≡ format_of (magnitude number) }
{
    match number {
        24 => KittyImageFormat::Rgb,
        32 => KittyImageFormat::Rgba,
        _ => KittyImageFormat::Png,
    }
}

// Reads the compression of pixels.
pub(crate) fn compression(fields: &[Said<'_>]) -> KittyImageCompression
    ensures { result ≡ compression_of (natural (look fields.now name.Compression)) }
{
    match natural(FieldName::Compression, fields) {
        0 => KittyImageCompression::None,
        _ => KittyImageCompression::Deflate,
    }
}

// Reads the composition mode.
pub(crate) fn composition(fields: &[Said<'_>]) -> KittyFrameCompositionMode
    ensures { result ≡ composition_of (natural (look fields.now name.CompositionMode)) }
{
    match natural(FieldName::CompositionMode, fields) {
        0 => KittyFrameCompositionMode::AlphaBlending,
        _ => KittyFrameCompositionMode::Overwrite,
    }
}
