//! The names that a termcap query asks for, as fields.
ghost use Rattle.std.specs.Prelude.{◌≡◌, IfOk, OnErr};
ghost use Rattle.esc_calls.specs.QueryValues.{IsQuery, query_table};
ghost use Rattle.esc_calls.specs.Reads.{Reads};
ghost use Rattle.fallible_alloc.specs.Refusals.{Refused};

use crate::output::put_read;
use crate::query_value::QueryValue;
use flat_values::{FieldRow, Fields};
use std::alloc::{AllocError, Global};
use xtgettcap::GetTcapBuilder;

/// Does the work of `escape_stream_read_tcap` of `escape_c`.
pub fn read_tcap(
    alloc: Global,
    text: &[u8],
    value: &mut QueryValue,
    fields: &mut [FieldRow],
    out: &mut [u8],
) -> u32
    ensures { Reads (IsQuery text.now) (query_table text.now) result
        (value.old, fields.old, out.old) (value.new, fields.new, out.new) }
{
    put_read(read(alloc, text), value, fields, out)
}

// Returns the query, and its names.
fn read(alloc: Global, text: &[u8]) -> Result<(QueryValue, Fields), AllocError>
    ensures value { IfOk result (λ r. IsQuery text.now r.0) }
    ensures fields { IfOk result (λ r. r.1 ≡ query_table text.now) }
    ensures refused { OnErr result (Refused Global) }
{
    let fields = names_of_query(alloc, text)?;
    let value = QueryValue {
        name_count: fields.rows().len(),
        text_length: fields.text().len(),
    };
    Ok((value, fields))
}

/// Returns the names of the query, as fields.
pub(crate) fn names_of_query(alloc: Global, text: &[u8]) -> Result<Fields, AllocError>
    ensures ok { IfOk result (λ f. f ≡ query_table text.now) }
    ensures refused { OnErr result (Refused Global) }
{
    let mut builder = GetTcapBuilder::new(alloc);
    builder.push_run(text)?;
    let names = builder.finish()?;
    Fields::of_names(alloc, names.as_slice())
}
