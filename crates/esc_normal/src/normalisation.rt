//! This module writes the text of a stream's meaning.
ghost use Rattle.std.specs.Prelude.{◌≡◌, ℕ, List, [], true, Some, IfOk, IfErr, OnOk, OnErr, ◌<◌, length};
ghost use Rattle.esc_normal.specs.Io.{FailsWith, Writes, WritesPrefix, had};
ghost use Rattle.esc_normal.specs.Normalising.{normal_form};
ghost use Rattle.esc_normal.specs.Whole.{IsOwnText, ReadsAll, WritesText};
ghost use Rattle.esc_actions.specs.Meaning.{meaning};
ghost use Rattle.esc_actions.specs.Texts.{list_text};
ghost use Rattle.esc_actions.specs.Writable.{AreWritable};
ghost use Rattle.esc_parse.specs.Fed.{ParserHasConsumedWithin};
ghost use Rattle.fallible_alloc.specs.Refusals.{Refused};

use crate::normalise_error::NormaliseError;
use crate::spell::TextSink;
use crate::watched::Watched;
use esc_actions::laws;
use esc_parse::Parser;
use esc_values::Text;
use std::alloc::{AllocError, Allocator};
use std::io::{Read, Write};

/// Reads to the end, then writes the text that [`encode`](esc_write::encode) writes for the actions
/// of the bytes that were read. It holds the whole input and its text.
///
/// After `NormaliseError::Read` or `Memory` nothing was written, after `Write` a prefix of the
/// text. If neither had failed before, `Read` comes exactly if the reader has failed, and `Write`
/// exactly if the writer has. A `write` that takes nothing is a failure. A reader that never ends
/// leads to `Memory`, once no more bytes can be held.
pub fn normalise<R: Read, W: Write, A: Allocator + Copy>(
    alloc: A,
    reader: &mut Watched<R>,
    writer: &mut Watched<W>,
) -> Result<(), NormaliseError>
    ensures { WritesText A R.Read W.Write (λ s. list_text (meaning {A = A} s))
        result reader writer }
{
    normalise_within(alloc, reader, writer, None)
}

/// [`normalise`] through a parser that keeps at most `limit` bytes of a segment, as
/// [`Parser::with_limit`](esc_parse::Parser::with_limit) makes it. It still holds the whole input
/// and its text. Its errors are those of [`normalise`].
pub fn normalise_limited<R: Read, W: Write, A: Allocator + Copy>(
    alloc: A,
    reader: &mut Watched<R>,
    writer: &mut Watched<W>,
    limit: usize,
) -> Result<(), NormaliseError>
    ensures { WritesText A R.Read W.Write (normal_form A (Some limit)) result reader writer }
{
    normalise_within(alloc, reader, writer, Some(limit))
}

/// Returns whether the bytes that the reader still has are the text that [`normalise`] writes for
/// them. Reads to the end. It holds the whole input and its text.
///
/// It is true for a text that `normalise` wrote for a stream that means a writable list. The error
/// is `NormaliseError::Read` or `Memory`. If the reader had not failed before, `Read` comes exactly
/// if it has.
pub fn is_normal<R: Read, A: Allocator + Copy>(
    alloc: A,
    reader: &mut Watched<R>,
) -> Result<bool, NormaliseError>
    ensures said { ReadsAll A R.Read (IsOwnText (λ s. list_text (meaning {A = A} s)))
        result reader }
    ensures normalised { (t : List ℕ) → AreWritable {A = A} (meaning t)
        → had R.Read reader ≡ Some (list_text (meaning {A = A} t)) → IfOk result (λ b. b ≡ true) }
{
    laws::normal_once::<A>();
    is_normal_within(alloc, reader, None)
}

/// Returns whether the bytes that the reader still has are the text that [`normalise_limited`]
/// writes for them under this limit. Reads to the end. It holds the whole input and its text. The
/// errors are those of [`is_normal`].
pub fn is_normal_limited<R: Read, A: Allocator + Copy>(
    alloc: A,
    reader: &mut Watched<R>,
    limit: usize,
) -> Result<bool, NormaliseError>
    ensures { ReadsAll A R.Read (IsOwnText (normal_form A (Some limit))) result reader }
{
    is_normal_within(alloc, reader, Some(limit))
}

fn normalise_within<R: Read, W: Write, A: Allocator + Copy>(
    alloc: A,
    reader: &mut Watched<R>,
    writer: &mut Watched<W>,
    limit: Option<usize>,
) -> Result<(), NormaliseError>
    ensures { WritesText A R.Read W.Write (normal_form A limit) result reader writer }
{
    let bytes = read_whole(alloc, reader)?;
    let Ok(text) = normal_text(alloc, &bytes, limit) else {
        return Err(NormaliseError::Memory);
    };
    write_whole(writer, text.as_bytes())
}

fn is_normal_within<R: Read, A: Allocator + Copy>(
    alloc: A,
    reader: &mut Watched<R>,
    limit: Option<usize>,
) -> Result<bool, NormaliseError>
    ensures { ReadsAll A R.Read (IsOwnText (normal_form A limit)) result reader }
{
    let stream = read_whole(alloc, reader)?;
    match normal_text(alloc, &stream, limit) {
        Ok(text) => Ok(text.as_bytes() == stream.as_slice()),
        Err(_) => Err(NormaliseError::Memory),
    }
}

// Returns all that the reader still had.
fn read_whole<R: Read, A: Allocator + Copy>(
    alloc: A,
    reader: &mut Watched<R>,
) -> Result<Vec<u8, A>, NormaliseError>
    ensures { ReadsAll A R.Read (λ v xs. v.items ≡ xs) result reader }
{
    let Ok(mut chunk) = fallible_alloc::read_buffer(alloc) else {
        return Err(NormaliseError::Memory);
    };
    read_by(alloc, reader, chunk.as_mut_slice())
}

// Returns all that the reader still had, read by way of the chunk.
fn read_by<R: Read, A: Allocator>(
    alloc: A,
    reader: &mut Watched<R>,
    chunk: &mut [u8],
) -> Result<Vec<u8, A>, NormaliseError>
    requires { 0 < length chunk.old }
    ensures { ReadsAll A R.Read (λ v xs. v.items ≡ xs) result reader }
{
    let mut bytes = Vec::new(alloc);
    loop {
        match reader.read(chunk) {
            Ok(0) => return Ok(bytes),
            Ok(n) => {
                if fallible_alloc::extend(&mut bytes, &chunk[..n]).is_err() {
                    return Err(NormaliseError::Memory);
                }
            }
            Err(_) => return Err(NormaliseError::Read),
        }
    }
}

/// Returns the normal form of these bytes: the text that [`normalise`] writes for them, or under a
/// limit the text of [`normalise_limited`]. The error says that a request for memory was refused.
pub fn normal_text<A: Allocator + Copy>(
    alloc: A,
    bytes: &[u8],
    limit: Option<usize>,
) -> Result<Text<A>, AllocError>
    ensures ok { IfOk result (λ t. t ≡ normal_form A limit bytes.now) }
    ensures refused { OnErr result (Refused A) }
{
    laws::yield_handed_out::<A>();
    let (result, spell) = parser_within(alloc, limit).parse_into(bytes, TextSink::new(alloc));
    match result {
        Ok(()) => Ok(spell.text),
        Err(_) => Err(AllocError),
    }
}

/// Returns a parser at the beginning of a stream, with or without a limit.
pub(crate) fn parser_within<A: Allocator + Copy>(alloc: A, limit: Option<usize>) -> Parser<A>
    ensures { ParserHasConsumedWithin limit [] result }
{
    match limit {
        None => Parser::new(alloc),
        Some(limit) => Parser::with_limit(alloc, limit),
    }
}

// Writes all of the bytes.
fn write_whole<W: Write>(writer: &mut Watched<W>, bytes: &[u8]) -> Result<(), NormaliseError>
    ensures whole { OnOk result (Writes W.Write bytes.now writer) }
    ensures beginning { OnErr result (WritesPrefix W.Write bytes.now writer) }
    ensures fault { IfErr result (λ e. e ≡ NormaliseError.Write) }
    ensures emitted { FailsWith result NormaliseError.Write writer }
{
    if writer.write_whole(bytes) {
        Ok(())
    } else {
        Err(NormaliseError::Write)
    }
}
