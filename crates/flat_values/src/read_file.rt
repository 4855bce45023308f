//! This module reads files from rows. An error is that memory was refused.
ghost use Rattle.std.specs.Prelude.{◌≡◌, IfOk, OnErr};
ghost use Rattle.flat_values.specs.Found.{held_form};
ghost use Rattle.flat_values.specs.FoundPrompts.{dimension_in, file_in, height_in, past_height, past_width, size_in, width_in};
ghost use Rattle.fallible_alloc.specs.Refusals.{Refused};

use crate::field_name::FieldName;
use crate::read_optional::{named, past, text};
use crate::said::{Said, after, first};
use esc_iterm::{ITermDimension, ITermFileData};
use esc_values::Items;
use std::alloc::{AllocError, Global};

// Reads a file.
pub(crate) fn file(alloc: Global, fields: &[Said<'_>]) -> Result<ITermFileData, AllocError>
    ensures ok { IfOk result (λ f. f ≡ file_in held_form fields.now) }
    ensures refused { OnErr result (Refused Global) }
{
    let name = text(alloc, FieldName::Name, fields)?;
    let sized = past(FieldName::Name, fields);
    let wide = past(FieldName::Size, sized);
    let high = past_width(wide);
    let shown = past_height(high);
    let inline = after(shown);
    let still = after(inline);
    let content = Items::from_slice(alloc, first(after(still)).bytes())?;
    Ok(ITermFileData {
        name,
        size: size(sized),
        width: width(wide),
        height: height(high),
        preserve_aspect_ratio: first(shown).flag(),
        inline: first(inline).flag(),
        do_not_move_cursor: first(still).flag(),
        content,
    })
}

// Reads its size, if it is given.
fn size(fields: &[Said<'_>]) -> Option<usize>
    ensures { result ≡ size_in fields.now }
{
    match named(FieldName::Size, fields) {
        Some(field) => Some(field.size()),
        None => None,
    }
}

// Reads a dimension of three units, each under a name of its own.
fn dimension(
    cells: FieldName,
    pixels: FieldName,
    percent: FieldName,
    fields: &[Said<'_>],
) -> ITermDimension
    ensures { result ≡ dimension_in cells pixels percent fields.now }
{
    let [field, ..] = fields else {
        return ITermDimension::Automatic;
    };
    if field.is(cells) {
        ITermDimension::Cells(field.number())
    } else if field.is(pixels) {
        ITermDimension::Pixels(field.number())
    } else if field.is(percent) {
        ITermDimension::Percent(field.number())
    } else {
        ITermDimension::Automatic
    }
}

// Reads its width.
fn width(fields: &[Said<'_>]) -> ITermDimension
    ensures { result ≡ width_in fields.now }
{
    dimension(
        FieldName::WidthCells,
        FieldName::WidthPixels,
        FieldName::WidthPercent,
        fields,
    )
}

// Returns the rows after its width.
fn past_width<'b, 'a>(fields: &'b [Said<'a>]) -> &'b [Said<'a>]
    ensures { result.now ≡ past_width fields.now }
{
    let fields = past(FieldName::WidthCells, fields);
    let fields = past(FieldName::WidthPixels, fields);
    past(FieldName::WidthPercent, fields)
}

// Reads its height.
fn height(fields: &[Said<'_>]) -> ITermDimension
    ensures { result ≡ height_in fields.now }
{
    dimension(
        FieldName::HeightCells,
        FieldName::HeightPixels,
        FieldName::HeightPercent,
        fields,
    )
}

// Returns the rows after its height.
fn past_height<'b, 'a>(fields: &'b [Said<'a>]) -> &'b [Said<'a>]
    ensures { result.now ≡ past_height fields.now }
{
    let fields = past(FieldName::HeightCells, fields);
    let fields = past(FieldName::HeightPixels, fields);
    past(FieldName::HeightPercent, fields)
}
