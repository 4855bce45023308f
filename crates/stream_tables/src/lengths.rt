//! Streams of each length, under ample memory.
use crate::asked::normalised;
use crate::call::Call;
use crate::reading::{Reading, by_calls};
use crate::report::Report;
use crate::row::Row;
use crate::texts::encoded;
use escape_stream::Parser;
use std::alloc::{AllocError, Global};

/// Checks that every stream of the family is read by every call, and written as it came.
pub fn check_lengths(alloc: Global, row: &Row, report: &mut Report) {
    let numbers = row.text(alloc, "times", report);
    for word in numbers.split(' ') {
        let (from, to) = range(row.name, word, report);
        for number in from..to {
            let stream = stream_of(alloc, row, number, report);
            check_text(alloc, row.name, stream.as_str(), report);
        }
    }
}

// Returns the stream of a row that has its chunk so many times, or this number in its place.
fn stream_of(alloc: Global, row: &Row, number: usize, report: &mut Report) -> String {
    let mut stream = row.text(alloc, "begins", report);
    let input_chunk = row.text(alloc, "part", report);
    let added = if row.has("part") {
        add_times(&mut stream, input_chunk.as_str(), number)
    } else {
        write!(stream, "{number}")
    };
    let ends = row.text(alloc, "ends", report);
    if added.is_err() || stream.push_str(ends.as_str()).is_err() {
        report.note(row.name, "out of memory");
    }
    stream
}

// Adds a chunk so many times.
fn add_times(stream: &mut String, input_chunk: &str, times: usize) -> Result<(), AllocError> {
    for _ in 0..times {
        stream.push_str(input_chunk)?;
    }
    Ok(())
}

// Returns the numbers that a word names: `a..b`, the last of which is left out, or one.
fn range(row: &str, word: &str, report: &mut Report) -> (usize, usize) {
    match word.split_once("..") {
        Some((from, to)) => (report.number_of(row, from), report.number_of(row, to)),
        None => {
            let only = report.number_of(row, word);
            (only, only.saturating_add(1))
        }
    }
}

// The ways in which each is read.
const READINGS: [(Reading, &str); 3] = [
    (Reading::Whole, "written"),
    (Reading::Halves, "read in halves"),
    (Reading::Segments, "read by segments"),
];

fn check_text(alloc: Global, name: &str, stream: &str, report: &mut Report) {
    let bytes = stream.as_bytes();
    for (reading, how) in READINGS {
        let got = encoded(alloc, alloc, reading.read(alloc, bytes));
        report.expect(name, how, stream, got);
    }
    let got = encoded(alloc, alloc, by_calls(alloc, bytes));
    report.expect(name, "given to a closure", stream, got);
    report.expect(name, "normalised", stream, normalised(alloc, alloc, bytes));
    for call in [Call::First, Call::Prefix] {
        let is_right = begins_rightly(alloc, call, bytes);
        report.note_unless(is_right, name, "no first action");
    }
}

// Returns whether this call of a new parser returns an action if there are bytes.
fn begins_rightly(alloc: Global, call: Call, bytes: &[u8]) -> bool {
    let mut parser = Parser::new(alloc);
    match call.shown(alloc, &mut parser, bytes) {
        Ok(first) => first.starts_with("Ok(Some(") != bytes.is_empty(),
        Err(_) => false,
    }
}
