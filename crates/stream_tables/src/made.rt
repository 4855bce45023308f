//! Streams that are made from numbers, and two ways to read each: a parser, and the segments of the
//! stream, each by itself.
use crate::gathered::{Gathered, is_same};
use crate::noise::make_stream;
use crate::random::Random;
use crate::reading::{Reading, is_alike};
use crate::report::Report;
use crate::row::Row;
use escape_stream::{Action, ParseError, Parser};
use std::alloc::Global;

// Says how many bytes more than one a chunk has at most.
const LONGEST: u8 = 11;

/// Notes the first of the streams of a row whose readings differ, with the number that it is made
/// from.
pub fn check_made(alloc: Global, row: &Row, report: &mut Report) {
    let first = row.number("seed", report) as u64;
    let count = row.number("count", report) as u64;
    let differences = report.differences;
    for i in 0..count {
        check_seed(alloc, row.name, first.wrapping_add(i), report);
        if report.differences > differences {
            break;
        }
    }
}

// Notes if the readings of the stream of this number differ.
fn check_seed(alloc: Global, name: &str, seed: u64, report: &mut Report) {
    let mut random = Random::new(seed);
    let mut stream = Vec::new(alloc);
    report.note_fault(name, make_stream(alloc, &mut random, &mut stream));
    if let Some(fault) = difference(alloc, &stream, &mut random) {
        match format!(in alloc; "seed {seed}: {fault}: {stream:?}") {
            Ok(line) => report.note(name, line.as_str()),
            Err(_) => report.note(name, fault),
        }
    }
}

// Returns the reading of a parser that differs from that of the segments, if one does.
fn difference(alloc: Global, stream: &[u8], random: &mut Random) -> Option<&'static str> {
    if !is_alike(alloc, stream, Reading::Whole) {
        return Some("the stream whole differs");
    }
    if !is_alike(alloc, stream, Reading::Bytes) {
        return Some("the stream byte by byte differs");
    }
    let wanted = Reading::Segments.read(alloc, stream);
    if !is_same(wanted, in_input_chunks(alloc, stream, random)) {
        return Some("the stream in parts differs");
    }
    None
}

// Returns the actions that a parser hands out for the stream in chunks.
fn in_input_chunks(
    alloc: Global,
    stream: &[u8],
    random: &mut Random,
) -> Result<Vec<Action>, ParseError> {
    let mut parser = Parser::new(alloc);
    let mut gathered = Gathered::new(alloc);
    let mut rest = stream;
    for _ in 0..stream.len() {
        let len = random.up_to(LONGEST).saturating_add(1).min(rest.len());
        let (input_chunk, others) = rest.split_at(len);
        gathered.add(parser.parse_as_vec(input_chunk));
        rest = others;
    }
    gathered.ended()
}
