//! This module writes the text of a filter that takes a stream in chunks.
ghost use Rattle.std.specs.Prelude.{ℕ, ◌≡◌, ◌<◌, ◌++◌, List, length, IfErr, IsErrOf, OnErr, OnOk};
ghost use Rattle.esc_normal.specs.Io.{FailsWith, Writes, WritesPrefix};
ghost use Rattle.esc_normal.specs.Streams.{FeedsAll, Filters, HasEnded, IsEither, New, PassesOn, PassesPrefixOn, WritesAdded};
ghost use Rattle.fallible_alloc.specs.Refusals.{Refused};

use crate::feeding::StreamFilter;
use crate::filter_error::FilterError;
use crate::watched::Watched;
use std::alloc::Allocator;
use std::io::{Read, Write};

/// Says how often [`pump`] reads a stream at most.
pub const MOST_READS: u64 = u64::MAX;

/// Reads to the end, and writes the text that the filter, which gives these texts and was fed
/// nothing, has for each read and for the end, as it reads: after each read the text of all that
/// was read so far is written and flushed; after an error the text of the end is not. It holds a
/// chunk of 64 KiB, and the memory of the filter.
///
/// After `FilterError::Read` and `Endless` the text of all that was read was written; after
/// `Memory` the text of all but the last read, which gave at most 64 KiB; and after `Write` a
/// prefix of the text. If neither had failed before, `Read` comes exactly if the reader has failed,
/// and `Write` exactly if the writer has. A `write` that takes nothing is a failure. `Endless`
/// comes after 2^64 - 1 reads, each of at least one byte.
pub fn pump<R: Read, W: Write, F: StreamFilter<A>, A: Allocator + Copy>(
    alloc: A,
    filter: &mut F,
    reader: &mut Watched<R>,
    writer: &mut Watched<W>,
) -> Result<(), FilterError>
    ensures holds { New F.StreamFilter filter.old (λ m c.
        Filters R.Read W.Write c (IsEither c m) result reader writer) }
    ensures ended { New F.StreamFilter filter.old (λ m c.
        OnOk result (HasEnded F.StreamFilter R.Read c filter.new reader)) }
    ensures refused { New F.StreamFilter filter.old (λ m c.
        IsErrOf result FilterError.Memory → Refused A) }
{
    let Ok(mut chunk) = fallible_alloc::read_buffer(alloc) else {
        return Err(FilterError::Memory);
    };
    match filter_all(filter, reader, writer, chunk.as_mut_slice()) {
        Ok(()) => end(filter, writer),
        Err(error) => Err(error),
    }
}

// Does the same by way of this chunk, part by part of the record `Filters`.
fn filter_all<R: Read, W: Write, F: StreamFilter<A>, A: Allocator + Copy>(
    filter: &mut F,
    reader: &mut Watched<R>,
    writer: &mut Watched<W>,
    chunk: &mut [u8],
) -> Result<(), FilterError>
    requires { 0 < length chunk.old }
    ensures { FeedsAll F.StreamFilter R.Read W.Write (length chunk.old) filter.old result filter.new
        reader writer }
{
    for _ in 0..MOST_READS {
        match reader.read(chunk) {
            Ok(0) => return Ok(()),
            Ok(n) => match pass_on(filter, &chunk[..n], writer) {
                Ok(()) => {}
                Err(error) => return Err(error),
            },
            Err(_) => return Err(FilterError::Read),
        }
    }
    Err(FilterError::Endless)
}

// Feeds the filter these bytes, writes the text that they add, and flushes the writer.
fn pass_on<W: Write, F: StreamFilter<A>, A: Allocator + Copy>(
    filter: &mut F,
    bytes: &[u8],
    writer: &mut Watched<W>,
) -> Result<(), FilterError>
    ensures { WritesAdded F.StreamFilter filter.old
        (λ m c s. PassesOn F.StreamFilter W.Write m c s bytes.now filter.new writer)
        (λ m c s. PassesPrefixOn W.Write m s bytes.now writer) result writer }
{
    match filter.feed(bytes) {
        Ok(()) => write_out(writer, filter.output()),
        Err(_) => Err(FilterError::Memory),
    }
}

// Ends the filter's stream, and writes the text that this adds.
fn end<W: Write, F: StreamFilter<A>, A: Allocator + Copy>(
    filter: &mut F,
    output: &mut Watched<W>,
) -> Result<(), FilterError>
    ensures { WritesAdded F.StreamFilter filter.old
        (λ m c s. F.has_ended filter.new c s
        × ((t : List ℕ) × (c s ≡ m s ++ t) × Writes W.Write t output))
        (λ m c s. (t : List ℕ) × (c s ≡ m s ++ t) × WritesPrefix W.Write t output)
        result output }
{
    match filter.finish() {
        Ok(()) => write_out(output, filter.output()),
        Err(_) => Err(FilterError::Memory),
    }
}

// Writes all of the text, and flushes the writer.
fn write_out<W: Write>(writer: &mut Watched<W>, text: &str) -> Result<(), FilterError>
    ensures whole { OnOk result (Writes W.Write text.now writer) }
    ensures beginning { OnErr result (WritesPrefix W.Write text.now writer) }
    ensures fault { IfErr result (λ e. e ≡ FilterError.Write) }
    ensures emitted { FailsWith result FilterError.Write writer }
{
    if !writer.write_whole(text.as_bytes()) {
        return Err(FilterError::Write);
    }
    match writer.flush() {
        Ok(()) => Ok(()),
        Err(_) => Err(FilterError::Write),
    }
}
