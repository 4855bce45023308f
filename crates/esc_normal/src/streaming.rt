//! This module writes the text of a stream's meaning as the stream comes.
ghost use Rattle.std.specs.Prelude.{IfSome, IsErrOf, OnErr, OnOk};
ghost use Rattle.esc_normal.specs.Io.{Writes, WritesPrefix, had};
ghost use Rattle.esc_normal.specs.Normalising.{normal_form};
ghost use Rattle.esc_normal.specs.Streams.{Filters, IsText};
ghost use Rattle.fallible_alloc.specs.Refusals.{Refused};

use crate::filter_error::FilterError;
use crate::filtering::pump;
use crate::normaliser::Normaliser;
use crate::watched::Watched;
use std::alloc::Allocator;
use std::io::{Read, Write};

/// Reads to the end, and writes the text of [`normalise`](crate::normalise), or under a limit the
/// text of [`normalise_limited`](crate::normalise_limited), as it reads: after each read the normal
/// form of all that was read so far is written and flushed. It holds a chunk of 64 KiB, the text of
/// one, and the bytes that a parser keeps of an unfinished segment, which are at most the limit.
///
/// After an error a prefix of the normal form of the stream was written: after `FilterError::Read`
/// and `Endless` the normal form of all that was read, after `Memory` the normal form of all but
/// the last read, which gave at most 64 KiB. If neither had failed before, `Read` comes exactly if
/// the reader has failed, and `Write` exactly if the writer has. A `write` that takes nothing is a
/// failure. `Endless` comes after 2^64 - 1 reads, each of at least one byte.
///
/// The output must not be the input, as a file that is appended to itself: it would not end.
pub fn normalise_stream<R: Read, W: Write, A: Allocator + Copy>(
    alloc: A,
    reader: &mut Watched<R>,
    writer: &mut Watched<W>,
    limit: Option<usize>,
) -> Result<(), FilterError>
    ensures written { OnOk result (IfSome (had R.Read reader) (λ s.
        Writes W.Write (normal_form A limit s) writer)) }
    ensures beginning { OnErr result (IfSome (had R.Read reader) (λ s.
        WritesPrefix W.Write (normal_form A limit s) writer)) }
    ensures holds { Filters R.Read W.Write (normal_form A limit)
        (λ has_ended. IsText (normal_form A limit)) result reader writer }
    ensures refused { IsErrOf result FilterError.Memory → Refused A }
{
    let mut normaliser = Normaliser::new(alloc, limit);
    pump(alloc, &mut normaliser, reader, writer)
}
