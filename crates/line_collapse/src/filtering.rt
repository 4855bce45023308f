//! From a stream to the rest of the lines of its filter.
ghost use Rattle.std.specs.Prelude.{IsErrOf, max};
ghost use Rattle.esc_normal.specs.Streams.{Filters, IsEither, New};
ghost use Rattle.line_collapse.specs.Fed.{final_after, left_after};
ghost use Rattle.line_collapse.specs.Windows.{window_size};
ghost use Rattle.fallible_alloc.specs.Refusals.{Refused};

use crate::collapsing::Collapsing;
use esc_filter::{FilterError, StreamFilter, pump};
use esc_normal::Watched;
use std::alloc::Allocator;
use std::io::{Read, Write};

/// Reads to the end, and writes the rest of the lines of the filter's text, as [`pump`] does; the
/// filter was fed nothing. After each read these are the rows that are final, and at the end those
/// that are left: the last `rows`, of `columns` columns at most, may be written again. After an
/// error the rows that are not final are not written.
pub fn collapse_from<R: Read, W: Write, F: StreamFilter<A> + Drop, A: Allocator + Copy>(
    alloc: A,
    filter: F,
    rows: usize,
    columns: usize,
    reader: &mut Watched<R>,
    writer: &mut Watched<W>,
) -> Result<(), FilterError>
    ensures holds { New F.StreamFilter filter (λ m c. Filters R.Read W.Write
        (left_after A (window_size (max rows 1) columns) c)
        (IsEither (left_after A (window_size (max rows 1) columns) c)
        (final_after A (window_size (max rows 1) columns) m)) result reader writer) }
    ensures refused { New F.StreamFilter filter (λ m c.
        IsErrOf result FilterError.Memory → Refused A) }
{
    let Ok(mut collapsing) = Collapsing::new(alloc, filter, rows, columns) else {
        return Err(FilterError::Memory);
    };
    pump(alloc, &mut collapsing, reader, writer)
}
