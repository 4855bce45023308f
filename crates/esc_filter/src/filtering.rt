//! This module writes the text of the actions of a stream that pass.
ghost use Rattle.std.specs.Prelude.{IsErrOf, Some};
ghost use Rattle.esc_normal.specs.Streams.{Filters};
ghost use Rattle.esc_filter.specs.Lines.{IsFilteredByLines, closed_by_lines};
ghost use Rattle.esc_filter.specs.Passing.{IsFiltered, closed_text};
ghost use Rattle.fallible_alloc.specs.Refusals.{Refused};

use crate::admit::Admit;
use crate::filter::Filter;
use crate::laws;
use crate::line_filter::LineFilter;
use esc_normal::{FilterError, Watched, pump};
use std::alloc::Allocator;
use std::io::{Read, Write};

/// Reads to the end, and writes the text of the actions that pass the policy, as it reads: after
/// each read the text of all that was read so far is written and flushed. At the end it writes the
/// text that undoes the changes that these left at a terminal, as [`Filter::finish`] says; after an
/// error it does not. It holds a chunk of 64 KiB, the text of one, and at most `limit` bytes of an
/// unfinished segment.
///
/// After `FilterError::Read` the text of all that was read was written; after `Memory` the text of
/// all but the last read, which gave at most 64 KiB; and after `Write` a prefix of the text. If
/// neither had failed before, `Read` comes exactly if the reader has failed, and `Write` exactly if
/// the writer has. A `write` that takes nothing is a failure. `Endless` comes after 2^64 - 1 reads,
/// each of at least one byte, and the text of all that they gave was written.
pub fn filter_stream<R: Read, W: Write, P: Admit<A> + Drop, A: Allocator + Copy>(
    alloc: A,
    reader: &mut Watched<R>,
    writer: &mut Watched<W>,
    limit: usize,
    policy: P,
) -> Result<(), FilterError>
    ensures holds { Filters R.Read W.Write (closed_text {A = A} (Some limit) (P.admits policy))
        (λ has_ended. IsFiltered {A = A} has_ended (Some limit) (P.admits policy)) result reader
        writer }
    ensures refused { IsErrOf result FilterError.Memory → Refused A }
{
    laws::passed_reads_back::<A>();
    let mut filter = Filter::new(alloc, limit, policy);
    pump(alloc, &mut filter, reader, writer)
}

/// Does the same, to which each line is a stream of its own, as it is to a
/// [`LineFilter`](crate::LineFilter): a string that nobody ends hides nothing of the lines after
/// it. Its errors are those of [`filter_stream`].
pub fn filter_lines<R: Read, W: Write, P: Admit<A> + Drop, A: Allocator + Copy>(
    alloc: A,
    reader: &mut Watched<R>,
    writer: &mut Watched<W>,
    limit: usize,
    policy: P,
) -> Result<(), FilterError>
    ensures holds { Filters R.Read W.Write (closed_by_lines {A = A} limit (P.admits policy))
        (λ has_ended. IsFilteredByLines {A = A} has_ended limit (P.admits policy)) result reader
        writer }
    ensures refused { IsErrOf result FilterError.Memory → Refused A }
{
    laws::lines_read_back::<A>();
    let mut filter = LineFilter::new(alloc, limit, policy);
    pump(alloc, &mut filter, reader, writer)
}
