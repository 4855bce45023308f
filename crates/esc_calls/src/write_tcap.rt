//! The text of the termcap query that fields say.
ghost use Rattle.std.specs.Prelude.{◌≡◌, ◌↔◌, IfErr, IfOk, IsTrue, OnErr, drop};
ghost use Rattle.esc_calls.specs.Output.{Writes};
ghost use Rattle.esc_calls.specs.QueryValues.{query_table};
ghost use Rattle.esc_calls.specs.Written.{status_of};
ghost use Rattle.esc_calls.specs.WrittenQueries.{IsRefusal, IsText};
ghost use Rattle.fallible_alloc.specs.Refusals.{Refused};

use crate::output::put_text;
use crate::refusal::Refusal;
use crate::shown::{display, ended};
use crate::tcap::names_of_query;
use esc_values::Text;
use flat_values::{FieldRow, are_those, names_of};
use std::alloc::{AllocError, Global};
use xtgettcap::TcapQuery;

/// Does the work of `escape_stream_write_tcap` of `escape_c`.
pub fn write_tcap(
    alloc: Global,
    fields: &[FieldRow],
    text: &[u8],
    out: &mut [u8],
    needed: &mut usize,
) -> u32
    ensures { Writes (IsText (fields.now, text.now)) (IsRefusal (fields.now, text.now))
        result (out.old, needed.old) (out.new, needed.new) }
{
    put_text(written(alloc, fields, text), out, needed)
}

// Returns the text of the query, if it reads back as it.
fn written(alloc: Global, fields: &[FieldRow], text: &[u8]) -> Result<Text, Refusal>
    ensures text { IfOk result (IsText (fields.now, text.now)) }
    ensures refused { IfErr result (λ e. IsRefusal (fields.now, text.now) (status_of e)) }
{
    let Some(names) = names_of(alloc, fields, text)? else {
        return Err(Refusal::NoCommand);
    };
    let written = display(alloc, &TcapQuery(names.as_slice()))?;
    if !is_back(alloc, names_in(written.as_bytes()), fields, text)? {
        return Err(Refusal::NotWritable);
    }
    Ok(ended(written)?)
}

// Returns the rest after `ESC P + q`.
fn names_in(text: &[u8]) -> &[u8]
    ensures { result.now ≡ drop 4 text.now }
{
    &text[text.len().min(4)..]
}

// Returns whether data asks for the names that have these fields.
fn is_back(
    alloc: Global,
    inner: &[u8],
    fields: &[FieldRow],
    text: &[u8],
) -> Result<bool, AllocError>
    ensures back { IfOk result (λ b. IsTrue b
        ↔ (query_table inner.now ≡ (fields.now, text.now))) }
    ensures refused { OnErr result (Refused Global) }
{
    let read = names_of_query(alloc, inner)?;
    Ok(are_those(&read, fields, text))
}
