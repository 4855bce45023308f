//! This module reads the command of a kind and fields.
ghost use Rattle.std.specs.Prelude.{◌≡◌, ◌↔◌, IfOk, IfSome, IsTrue, None, OnErr};
ghost use Rattle.flat_values.specs.Fields.{table_values};
ghost use Rattle.flat_values.specs.Found.{held_form, value_if_kept};
ghost use Rattle.flat_values.specs.FoundCommands.{command_in, form_at};
ghost use Rattle.flat_values.specs.Held.{Has, IsHeld};
ghost use Rattle.esc_osc.specs.declared.command.OperatingSystemCommand.{OperatingSystemCommand};
ghost use Rattle.fallible_alloc.specs.Refusals.{Refused};

use crate::command_kind::CommandKind;
use crate::field_row::FieldRow;
use crate::fields::Fields;
use crate::kinds::form_at;
use crate::read_command::command;
use crate::said::said_by;
use esc_osc::OperatingSystemCommand as Command;
use std::alloc::{AllocError, Global};

/// Returns the command of a kind, by its number, with these fields: rows, and their texts one after
/// another, as [`Fields::of`] has them. None if no command has this kind and these fields. The
/// error is that memory was refused.
pub fn command_of(
    alloc: Global,
    kind: u32,
    rows: &[FieldRow],
    text: &[u8],
) -> Result<Option<Command>, AllocError>
    ensures has { IfOk result (λ o. IfSome o (Has kind (rows.now, text.now))) }
    ensures none { IfOk result (λ o. o ≡ None → (c : OperatingSystemCommand Global) → IsHeld c
        → Has kind (rows.now, text.now) c → ⊥) }
    ensures refused { OnErr result (Refused Global) }
{
    let command = command_said(alloc, kind, rows, text)?;
    let has = has_fields(alloc, &command, kind, rows, text);
    kept(command, has)
}

// Returns the command that they say.
fn command_said(
    alloc: Global,
    kind: u32,
    rows: &[FieldRow],
    text: &[u8],
) -> Result<Command, AllocError>
    ensures ok { IfOk result (λ c. c
        ≡ command_in held_form (form_at kind) (table_values (rows.now, text.now))) }
    ensures refused { OnErr result (Refused Global) }
{
    let fields = said_by(alloc, rows, text)?;
    command(alloc, form_at(kind), fields.as_slice())
}

// Returns a value, if it is kept.
pub(crate) fn kept<T: Drop>(
    value: T,
    is_kept: Result<bool, AllocError>,
) -> Result<Option<T>, AllocError>
    ensures { result ≡ value_if_kept value is_kept }
{
    match is_kept {
        Ok(true) => Ok(Some(value)),
        Ok(false) => Ok(None),
        Err(error) => Err(error),
    }
}

/// Returns whether a command has this kind, by its number, and these fields. The error is that
/// memory was refused.
pub fn has_fields(
    alloc: Global,
    command: &Command,
    kind: u32,
    rows: &[FieldRow],
    text: &[u8],
) -> Result<bool, AllocError>
    ensures has { IfOk result (λ b. IsTrue b ↔ Has kind (rows.now, text.now) command.now) }
    ensures refused { OnErr result (Refused Global) }
{
    let fields = Fields::of(alloc, command)?;
    let same_kind = CommandKind::of(command).number() == kind;
    Ok(same_kind && are_those(&fields, rows, text))
}

/// Returns whether fields have these rows and texts.
pub fn are_those(fields: &Fields, rows: &[FieldRow], text: &[u8]) -> bool
    ensures { IsTrue result ↔ (fields.now ≡ (rows.now, text.now)) }
{
    are_rows(fields.rows(), rows) && fields.text() == text
}

// Returns whether the rows are those.
fn are_rows(rows: &[FieldRow], those: &[FieldRow]) -> bool
    ensures { IsTrue result ↔ (rows.now ≡ those.now) }
{
    rows == those
}
