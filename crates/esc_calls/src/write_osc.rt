//! The text of the command that a kind and fields say.
ghost use Rattle.std.specs.Prelude.{◌≡◌, ◌↔◌, ℕ, IfErr, IfOk, IsTrue, List, OnErr};
ghost use Rattle.esc_values.specs.Clear.{framed_text, IsClearText};
ghost use Rattle.esc_osc.specs.Commands.{command_text};
ghost use Rattle.esc_osc.specs.declared.command.OperatingSystemCommand.{OperatingSystemCommand};
ghost use Rattle.flat_values.specs.Held.{Has};
ghost use Rattle.esc_calls.specs.OscValues.{command_of};
ghost use Rattle.esc_calls.specs.Output.{Writes};
ghost use Rattle.esc_calls.specs.Written.{status_of};
ghost use Rattle.esc_calls.specs.WrittenOscs.{IsRefusal, IsText};
ghost use Rattle.fallible_alloc.specs.Refusals.{Refused};

use crate::clear::is_clear_text;
use crate::output::put_text;
use crate::refusal::Refusal;
use crate::shown::displayed;
use esc_parse::commands::command_in;
use esc_values::Text;
use flat_values::{FieldRow, command_of, has_fields};
use std::alloc::{AllocError, Global};

/// Does the work of `escape_stream_write_osc` of `escape_c`.
pub fn write_osc(
    alloc: Global,
    kind: u32,
    fields: &[FieldRow],
    text: &[u8],
    out: &mut [u8],
    needed: &mut usize,
) -> u32
    ensures { Writes (IsText kind (fields.now, text.now)) (IsRefusal kind (fields.now, text.now))
        result (out.old, needed.old) (out.new, needed.new) }
{
    put_text(written(alloc, kind, fields, text), out, needed)
}

// Returns the text of the command, if it reads back as it.
fn written(alloc: Global, kind: u32, fields: &[FieldRow], text: &[u8]) -> Result<Text, Refusal>
    ensures text { IfOk result (IsText kind (fields.now, text.now)) }
    ensures refused { IfErr result (λ e. IsRefusal kind (fields.now, text.now) (status_of e)) }
{
    let written = text_of(alloc, kind, fields, text)?;
    if !is_back(alloc, inner(written.as_bytes()), kind, fields, text)? {
        return Err(Refusal::NotWritable);
    }
    Ok(written)
}

// Returns the text of the command.
fn text_of(alloc: Global, kind: u32, fields: &[FieldRow], text: &[u8]) -> Result<Text, Refusal>
    ensures text { IfOk result (λ t. (c : OperatingSystemCommand Global)
        × Has kind (fields.now, text.now) c × (t ≡ command_text c)) }
    ensures refused { IfErr result (λ e. IsRefusal kind (fields.now, text.now) (status_of e)) }
{
    match command_of(alloc, kind, fields, text) {
        Ok(Some(command)) => displayed(alloc, command),
        Ok(None) => Err(Refusal::NoCommand),
        Err(_) => Err(Refusal::NoMemory),
    }
}

// Returns the text between `ESC ]` and `ESC \`.
fn inner(text: &[u8]) -> &[u8]
    ensures { (t : List ℕ) → text.now ≡ framed_text t → result.now ≡ t }
{
    let start = text.len().min(2);
    let end = text.len().saturating_sub(2).max(start);
    &text[start..end]
}

// Returns whether a text is clear, and means a command of this kind that has these fields.
fn is_back(
    alloc: Global,
    inner: &[u8],
    kind: u32,
    fields: &[FieldRow],
    text: &[u8],
) -> Result<bool, AllocError>
    ensures back { IfOk result (λ b. IsTrue b
        ↔ (IsClearText inner.now × Has kind (fields.now, text.now) (command_of inner.now))) }
    ensures refused { OnErr result (Refused Global) }
{
    if !is_clear_text(inner) {
        return Ok(false);
    }
    let read = command_in(alloc, inner)?;
    has_fields(alloc, &read, kind, fields, text)
}
