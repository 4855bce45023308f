//! This module appends the fields of files. An error is that memory was refused.
ghost use Rattle.std.specs.Prelude.{◌≡◌, OnOk, OnErr};
ghost use Rattle.flat_values.specs.Fields.{with_fields};
ghost use Rattle.flat_values.specs.Proprietary.{dimension_fields, file_fields, shown_fields, size_fields};
ghost use Rattle.fallible_alloc.specs.Refusals.{Refused};

use crate::append_proprietary::append_optional;
use crate::field_name::FieldName;
use crate::fielded::append_each;
use crate::fields::Fields;
use crate::image_numbers::flagged;
use esc_iterm::{ITermDimension, ITermFileData};
use std::alloc::{AllocError, Global};

// Appends the fields of a file.
#[tactic(auto, using(crate::proofs::Tables::with_more))]
pub(crate) fn append_file(file: &ITermFileData, fields: &mut Fields) -> Result<(), AllocError>
    ensures ok { OnOk result (fields.new ≡ with_fields fields.old (file_fields file.now)) }
    ensures refused { OnErr result (Refused Global) }
{
    append_optional(FieldName::Name, &file.name, fields)?;
    append_size(file.size, fields)?;
    append_dimension(
        file.width,
        FieldName::WidthCells,
        FieldName::WidthPixels,
        FieldName::WidthPercent,
        fields,
    )?;
    append_dimension(
        file.height,
        FieldName::HeightCells,
        FieldName::HeightPixels,
        FieldName::HeightPercent,
        fields,
    )?;
    append_shown(file, fields)
}

// Appends how a file is shown, and its content.
fn append_shown(file: &ITermFileData, fields: &mut Fields) -> Result<(), AllocError>
    ensures ok { OnOk result (fields.new ≡ with_fields fields.old (shown_fields file.now)) }
    ensures refused { OnErr result (Refused Global) }
{
    let flags = [
        (
            FieldName::PreserveAspectRatio,
            flagged(file.preserve_aspect_ratio),
        ),
        (FieldName::Inline, flagged(file.inline)),
        (FieldName::DoNotMoveCursor, flagged(file.do_not_move_cursor)),
    ];
    append_each(&flags, fields)?;
    fields.push_text(FieldName::Content, file.content.as_slice())
}

// Appends its size, if it is given.
fn append_size(size: Option<usize>, fields: &mut Fields) -> Result<(), AllocError>
    ensures ok { OnOk result (fields.new ≡ with_fields fields.old (size_fields size)) }
    ensures refused { OnErr result (Refused Global) }
{
    match size {
        Some(size) => fields.push_size(FieldName::Size, size),
        None => Ok(()),
    }
}

// Appends a dimension, under the name of its unit.
fn append_dimension(
    dimension: ITermDimension,
    cells: FieldName,
    pixels: FieldName,
    percent: FieldName,
    fields: &mut Fields,
) -> Result<(), AllocError>
    ensures ok { OnOk result (fields.new
        ≡ with_fields fields.old (dimension_fields cells pixels percent dimension)) }
    ensures refused { OnErr result (Refused Global) }
{
    match dimension {
        ITermDimension::Automatic => Ok(()),
        ITermDimension::Cells(number) => fields.push_number(cells, number),
        ITermDimension::Pixels(number) => fields.push_number(pixels, number),
        ITermDimension::Percent(number) => fields.push_number(percent, number),
    }
}
