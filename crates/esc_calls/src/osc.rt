//! The command that the text of an OSC means, as fields.
ghost use Rattle.std.specs.Prelude.{◌≡◌, IfOk, OnErr};
ghost use Rattle.flat_values.specs.Commands.{fields_of};
ghost use Rattle.flat_values.specs.Fields.{table_of};
ghost use Rattle.esc_calls.specs.OscValues.{IsValue, IsValueOf, table_in};
ghost use Rattle.esc_calls.specs.Reads.{Reads};
ghost use Rattle.fallible_alloc.specs.Refusals.{Refused};

use crate::osc_value::OscValue;
use crate::output::put_read;
use esc_osc::OperatingSystemCommand;
use esc_parse::commands::command_in;
use flat_values::{CommandKind, FieldRow, Fields};
use std::alloc::{AllocError, Global};

/// Does the work of `escape_stream_read_osc` of `escape_c`.
pub fn read_osc(
    alloc: Global,
    text: &[u8],
    value: &mut OscValue,
    fields: &mut [FieldRow],
    out: &mut [u8],
) -> u32
    ensures { Reads (IsValue text.now) (table_in text.now) result
        (value.old, fields.old, out.old) (value.new, fields.new, out.new) }
{
    put_read(read(alloc, text), value, fields, out)
}

// Returns the command, and its fields.
fn read(alloc: Global, text: &[u8]) -> Result<(OscValue, Fields), AllocError>
    ensures value { IfOk result (λ r. IsValue text.now r.0) }
    ensures fields { IfOk result (λ r. r.1 ≡ table_in text.now) }
    ensures refused { OnErr result (Refused Global) }
{
    let command = command_in(alloc, text)?;
    told(alloc, &command)
}

// Returns the value of a command, and its fields.
fn told(alloc: Global, command: &OperatingSystemCommand) -> Result<(OscValue, Fields), AllocError>
    ensures value { IfOk result (λ r. IsValueOf command.now r.0) }
    ensures fields { IfOk result (λ r. r.1 ≡ table_of (fields_of command.now)) }
    ensures refused { OnErr result (Refused Global) }
{
    let fields = Fields::of(alloc, command)?;
    let value = OscValue {
        kind: CommandKind::of(command).number(),
        field_count: fields.rows().len(),
        text_length: fields.text().len(),
    };
    Ok((value, fields))
}
