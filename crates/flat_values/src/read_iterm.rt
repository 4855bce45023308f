//! This module reads commands of iTerm2 from rows. An error is that memory was refused.
ghost use Rattle.std.specs.Prelude.{◌≡◌, IfOk, OnErr};
ghost use Rattle.flat_values.specs.Found.{first, held_form, second, string_of};
ghost use Rattle.flat_values.specs.FoundPrompts.{cell_size_in, iterm_in, scale_in};
ghost use Rattle.esc_iterm.specs.declared.proprietary.ITermProprietary.TheVariants as iterm;
ghost use Rattle.fallible_alloc.specs.Refusals.{Refused};

use crate::field_name::FieldName;
use crate::kinds::ITermKind;
use crate::read_file::file;
use crate::read_optional::{named, text};
use crate::said::{Said, after, first};
use esc_iterm::{ITermProprietary, ITermUnicodeVersionOp};
use esc_values::Boxed;
use std::alloc::{AllocError, Global};

// Reads the command of any other kind of iTerm2.
pub(crate) fn iterm(
    alloc: Global,
    kind: ITermKind,
    fields: &[Said<'_>],
) -> Result<ITermProprietary, AllocError>
    ensures ok { IfOk result (λ c. c ≡ iterm_in held_form kind fields.now) }
    ensures refused { OnErr result (Refused Global) }
{
    match kind {
        ITermKind::HighlightCursorLine => {
            Ok(ITermProprietary::HighlightCursorLine(first(fields).flag()))
        }
        ITermKind::ReportCellSize => Ok(cell_size(fields)),
        ITermKind::SetUserVar => variable(alloc, fields),
        ITermKind::File => Ok(ITermProprietary::File(Boxed::new(alloc, file(alloc, fields)?)?)),
        ITermKind::SetVersion => {
            let version = ITermUnicodeVersionOp::Set(first(fields).byte());
            Ok(ITermProprietary::UnicodeVersion(version))
        }
        ITermKind::PushVersion => {
            let version = ITermUnicodeVersionOp::Push(text(alloc, FieldName::Label, fields)?);
            Ok(ITermProprietary::UnicodeVersion(version))
        }
        ITermKind::PopVersion => {
            let version = ITermUnicodeVersionOp::Pop(text(alloc, FieldName::Label, fields)?);
            Ok(ITermProprietary::UnicodeVersion(version))
        }
    }
}

// Reads the size of a cell.
fn cell_size(fields: &[Said<'_>]) -> ITermProprietary
    ensures { result ≡ cell_size_in held_form fields.now }
{
    ITermProprietary::ReportCellSize {
        height_pixels: first(fields).length(),
        width_pixels: first(after(fields)).length(),
        scale: scale(after(after(fields))),
    }
}

// Reads a variable.
fn variable(alloc: Global, fields: &[Said<'_>]) -> Result<ITermProprietary, AllocError>
    ensures ok { IfOk result (λ c. c
        ≡ iterm.SetUserVar (string_of held_form (first fields.now))
        (string_of held_form (second fields.now))) }
    ensures refused { OnErr result (Refused Global) }
{
    let name = first(fields).string(alloc)?;
    let value = first(after(fields)).string(alloc)?;
    Ok(ITermProprietary::SetUserVar { name, value })
}

// Reads the scale of a cell's size, if it was reported.
fn scale(fields: &[Said<'_>]) -> Option<u32>
    ensures { result ≡ scale_in held_form fields.now }
{
    match named(FieldName::Scale, fields) {
        Some(field) => Some(field.length()),
        None => None,
    }
}
