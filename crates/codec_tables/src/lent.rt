//! The events of `heapless_parser`, in chunks of each size, beside those of a parser that keeps no
//! string longer than half the buffer.
ghost use Rattle.std.specs.Prelude.{◌<◌};

use crate::codecs::{emitted, parts_of};
use crate::log::Log;
use esc_frame::VTParser;
use heapless_parser::event::{APC, DATA, DCS, EscEvent, LIMIT, NONE, OSC, TEXT};
use heapless_parser::next::next;
use heapless_parser::parser::EscParser;
use std::alloc::{AllocError, Global};

/// Returns whether both are the same.
pub fn compared(alloc: Global, stream: &[u8]) -> Result<String, AllocError> {
    emitted(alloc, is_same_in_input_chunks(alloc, stream))
}

/// Returns the number of the first stream of noise whose events differ. Its chunks are those
/// between `|`.
pub fn noise_compared(alloc: Global, text: &[u8]) -> Result<String, AllocError> {
    match &parts_of(alloc, text, b'|') {
        Ok(input_chunks) => emitted(alloc, first_other(alloc, input_chunks)),
        Err(_) => Err(AllocError),
    }
}

fn first_other(alloc: Global, input_chunks: &[&[u8]]) -> Option<u64> {
    for seed in 0..NOISES {
        if !is_noise_same(alloc, input_chunks, seed) {
            return Some(seed);
        }
    }
    None
}

// Does the same for the noise of this number.
fn is_noise_same(alloc: Global, input_chunks: &[&[u8]], seed: u64) -> bool {
    match &noise(alloc, input_chunks, seed) {
        Ok(stream) => is_same_in_input_chunks(alloc, stream),
        Err(_) => false,
    }
}

// The number of streams of noise, and of the chunks of each.
const NOISES: u64 = 400;

const LENGTH: usize = 60;

// Returns a stream of these chunks, by this number.
fn noise(alloc: Global, input_chunks: &[&[u8]], seed: u64) -> Result<Vec<u8>, AllocError> {
    let mut stream = Vec::new(alloc);
    match add_noise(input_chunks, seed, &mut stream) {
        Ok(()) => Ok(stream),
        Err(error) => Err(error),
    }
}

fn add_noise(input_chunks: &[&[u8]], seed: u64, stream: &mut Vec<u8>) -> Result<(), AllocError> {
    let kinds = (input_chunks.len() as u64).max(1);
    let mut state = seed;
    for _ in 0..LENGTH {
        state = state.wrapping_add(0x9e37_79b9_7f4a_7c15);
        let mixed = (state ^ (state >> 30)).wrapping_mul(0xbf58_476d_1ce4_e5b9);
        let picked = ((mixed ^ (mixed >> 31)) % kinds) as usize;
        if let Some(input_chunk) = input_chunks.get(picked) {
            stream.extend_from_slice(*input_chunk)?;
        }
    }
    Ok(())
}

// Returns the text of an event in the upper half of the buffer.
fn text_of<'a>(event: &EscEvent, buffer: &'a [u8]) -> &'a [u8] {
    let half = buffer.len() / 2;
    let out = &buffer[half..];
    if event.kind != OSC && event.kind != APC && event.kind != DCS {
        return &[];
    }
    let length = event.length.min(out.len());
    &out[..length]
}

// Returns the run of an event in the bytes of the call.
fn run_of<'a>(event: &EscEvent, bytes: &'a [u8]) -> &'a [u8] {
    if event.kind != TEXT && event.kind != DATA {
        return &[];
    }
    let start = event.start.min(bytes.len());
    let rest = &bytes[start..];
    let length = event.length.min(rest.len());
    &rest[..length]
}

// Feeds a chunk.
fn feed(parser: &mut EscParser, buffer: &mut [u8], input_chunk: &[u8], log: &mut Log) {
    let mut event = EscEvent::new();
    let mut rest = input_chunk;
    for _ in 0..100_000 {
        let taken = next(parser, buffer, rest, &mut event);
        if event.kind == NONE {
            return;
        }
        if event.kind != LIMIT {
            log.note(&event, text_of(&event, buffer), run_of(&event, rest));
        }
        rest = &rest[taken..];
    }
}

// Returns the events of the stream, in chunks of this size.
fn by_input_chunks(alloc: Global, stream: &[u8], size: usize) -> Log
    requires { 0 < size }
{
    let mut log = Log::new(alloc);
    let mut parser = EscParser::new();
    let mut buffer = [0; 64];
    for input_chunk in stream.chunks(size) {
        feed(&mut parser, &mut buffer, input_chunk, &mut log);
    }
    log
}

// Returns the events of the stream, whole.
fn by_parser(alloc: Global, stream: &[u8]) -> Log {
    let mut log = Log::new(alloc);
    let mut parser = VTParser::with_limit(alloc, 32);
    if parser.parse(stream, &mut log).is_err() {
        log.is_refused = true;
    }
    log
}

// Returns whether two logs have the same, and all of it.
fn is_same(one: &Log, other: &Log) -> bool {
    !one.is_refused && !other.is_refused && one.items.as_slice() == other.items.as_slice()
}

// Returns whether both are the same, in chunks of each size.
fn is_same_in_input_chunks(alloc: Global, stream: &[u8]) -> bool {
    let wanted = by_parser(alloc, stream);
    let mut is_right = true;
    for size in 1..=40usize {
        is_right = is_right && is_same(&by_input_chunks(alloc, stream, size), &wanted);
    }
    is_right
}
