//! This module appends the fields of iTerm2's commands. An error is that memory was refused.
ghost use Rattle.std.specs.Prelude.{◌≡◌, OnOk, OnErr};
ghost use Rattle.flat_values.specs.Fields.{with_fields};
ghost use Rattle.flat_values.specs.Proprietary.{iterm_fields, text_fields, version_fields};
ghost use Rattle.esc_iterm.specs.declared.proprietary.ITermProprietary.TheVariants as iterm;
ghost use Rattle.fallible_alloc.specs.Refusals.{Refused};

use crate::append_file::append_file;
use crate::field_name::FieldName;
use crate::fields::Fields;
use esc_iterm::{ITermProprietary, ITermUnicodeVersionOp};
use esc_values::Text;
use std::alloc::{AllocError, Global};

// Appends the fields of a command of iTerm2.
pub(crate) fn append_proprietary(
    command: &ITermProprietary,
    fields: &mut Fields,
) -> Result<(), AllocError>
    ensures ok { OnOk result (fields.new ≡ with_fields fields.old (iterm_fields command.now)) }
    ensures refused { OnErr result (Refused Global) }
{
    match command {
        ITermProprietary::SetMark
        | ITermProprietary::StealFocus
        | ITermProprietary::ClearScrollback
        | ITermProprietary::EndCopy
        | ITermProprietary::RequestCellSize => Ok(()),
        ITermProprietary::CurrentDir(path) => fields.push_text(
            FieldName::Directory,
            path.as_bytes(),
        ),
        ITermProprietary::SetProfile(name)
        | ITermProprietary::CopyToClipboard(name)
        | ITermProprietary::ReportVariable(name) => {
            fields.push_text(FieldName::Name, name.as_bytes())
        }
        ITermProprietary::HighlightCursorLine(on) => fields.push_flag(FieldName::Highlighted, *on),
        ITermProprietary::ReportCellSize {
            height_pixels,
            width_pixels,
            scale,
        } => append_cell_size(*height_pixels, *width_pixels, *scale, fields),
        ITermProprietary::Copy(text) | ITermProprietary::SetBadgeFormat(text) => {
            fields.push_text(FieldName::Text, text.as_bytes())
        }
        ITermProprietary::SetUserVar { name, value } => {
            fields.push_text(FieldName::Name, name.as_bytes())?;
            fields.push_text(FieldName::Value, value.as_bytes())
        }
        ITermProprietary::File(file) => append_file(file, fields),
        ITermProprietary::UnicodeVersion(version) => append_version(version, fields),
    }
}

// Appends the size of a cell.
fn append_cell_size(
    height: u32,
    width: u32,
    scale: Option<u32>,
    fields: &mut Fields,
) -> Result<(), AllocError>
    ensures ok { OnOk result (fields.new ≡ with_fields fields.old
        (iterm_fields {A = Global} (iterm.ReportCellSize height width scale))) }
    ensures refused { OnErr result (Refused Global) }
{
    fields.push_number(FieldName::CellHeight, i64::from(height))?;
    fields.push_number(FieldName::CellWidth, i64::from(width))?;
    match scale {
        Some(scale) => fields.push_number(FieldName::Scale, i64::from(scale)),
        None => Ok(()),
    }
}

// Appends the version that is set, or the label under which one is kept or brought back.
fn append_version(version: &ITermUnicodeVersionOp, fields: &mut Fields) -> Result<(), AllocError>
    ensures ok { OnOk result (fields.new ≡ with_fields fields.old (version_fields version.now)) }
    ensures refused { OnErr result (Refused Global) }
{
    match version {
        ITermUnicodeVersionOp::Set(number) => {
            fields.push_number(FieldName::Version, i64::from(*number))
        }
        ITermUnicodeVersionOp::Push(label) | ITermUnicodeVersionOp::Pop(label) => {
            append_optional(FieldName::Label, label, fields)
        }
    }
}

// Appends a text of this name, if there is one.
pub(crate) fn append_optional(
    name: FieldName,
    text: &Option<Text>,
    fields: &mut Fields,
) -> Result<(), AllocError>
    ensures ok { OnOk result (fields.new ≡ with_fields fields.old (text_fields name text.now)) }
    ensures refused { OnErr result (Refused Global) }
{
    match text {
        Some(text) => fields.push_text(name, text.as_bytes()),
        None => Ok(()),
    }
}
