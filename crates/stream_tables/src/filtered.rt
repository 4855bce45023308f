//! The text that a filter writes for a stream.
use crate::questions::is_asked_once;
use crate::report::Report;
use crate::row::Row;
use crate::texts::written;
use esc_filter::{
    Filter, FilterError, Guard, LineFilter, Policy, Returns, StreamFilter, Unicode, filter_stream,
    pump,
};
use escape_stream::Watched;
use failing_alloc::Refusing;
use failing_alloc::byte_reader::ByteReader;
use failing_alloc::fixed_writer::FixedWriter;
use std::alloc::{AllocError, Allocator, Global};
use std::io::{Read, Write};

const LIMIT: usize = 1_048_576;

const MOST_REQUESTS: u64 = 10_000;

const POLICIES: [Policy; 4] = [Policy::Text, Policy::Color, Policy::Screen, Policy::All];

// A filter of a stream.
#[derive(Clone, Copy)]
enum Way {
    // That of a policy.
    Policy(Policy),
    // One that admits all actions, and writes characters that deceive in this way.
    Characters(Unicode),
    // One by lines that admits all actions, and writes carriage returns within a line in this way.
    Lines(Returns),
}

// The ways whose text a row need not have, and the word before the text.
const WAYS: [(Way, &str); 6] = [
    (Way::Characters(Unicode::Join), "joined"),
    (Way::Characters(Unicode::Show), "shown"),
    (Way::Characters(Unicode::Drop), "dropped"),
    (Way::Lines(Returns::Keep), "lines-kept"),
    (Way::Lines(Returns::Show), "lines-shown"),
    (Way::Lines(Returns::Drop), "lines-dropped"),
];

/// Checks the text that each policy lets through of a stream, read whole and byte by byte, that it
/// is flushed, and that a policy is asked once about each action; and the text that is written if a
/// read, a write or a request for memory fails, at each of them in turn.
pub fn check_filtered(alloc: Global, row: &Row, report: &mut Report) {
    let bytes = row.bytes(alloc, "stream", report);
    let stream = bytes.as_slice();
    for policy in POLICIES {
        let word = word_of(row, policy);
        check_way(alloc, row, (Way::Policy(policy), word), stream, report);
    }
    for (way, word) in WAYS {
        if row.has(word) {
            check_way(alloc, row, (way, word), stream, report);
        }
    }
    let wanted = row.text(alloc, word_of(row, Policy::All), report);
    check_faults(alloc, row.name, stream, wanted.as_str(), report);
}

// Notes if the text that is written in this way, of the stream whole or byte by byte, is not the
// text after this word.
fn check_way(alloc: Global, row: &Row, named: (Way, &str), stream: &[u8], report: &mut Report) {
    let (way, word) = named;
    let wanted = row.text(alloc, word, report);
    let whole = way.written(alloc, stream);
    report.expect(row.name, word, wanted.as_str(), whole);
    let by_bytes = way.written(alloc, byte_by_byte(stream, 0));
    report.expect(row.name, word, wanted.as_str(), by_bytes);
}

// Returns the word before the text that a policy lets through: that of the one before it, if it has
// no line.
fn word_of(row: &Row, policy: Policy) -> &'static str {
    match policy {
        Policy::All if row.has("as-all") => "as-all",
        Policy::All | Policy::Screen if row.has("as-screen") => "as-screen",
        Policy::All | Policy::Screen | Policy::Color if row.has("as-color") => "as-color",
        _ => "as-text",
    }
}

// Checks the text that is written if something fails, and the questions to a policy.
fn check_faults(alloc: Global, name: &str, stream: &[u8], wanted: &str, report: &mut Report) {
    let is_read = are_read_faults(alloc, stream, wanted);
    report.note_unless(is_read, name, "a read that fails changes what is written");
    let is_written = are_write_faults(alloc, stream, wanted);
    report.note_unless(
        is_written,
        name,
        "a write that fails changes what is written",
    );
    let is_flushed = is_flushed(alloc, stream, wanted);
    report.note_unless(is_flushed, name, "what a read adds is not flushed");
    let is_asked = is_asked_once(alloc, stream, LIMIT);
    report.note_unless(is_asked, name, "a policy is not asked of each action once");
    let is_refused = are_requests_right(alloc, stream, wanted);
    report.note_unless(
        is_refused,
        name,
        "a refused request changes what is written",
    );
}

fn byte_by_byte(stream: &[u8], fails_at: usize) -> ByteReader<'_> {
    ByteReader {
        rest: stream,
        calls: 0,
        fails_at,
    }
}

impl Way {
    // Returns the text that is written for a stream.
    fn written<R: Read + Drop>(self, alloc: Global, reader: R) -> Result<String, AllocError> {
        match self {
            Way::Policy(policy) => filtered(alloc, reader, policy),
            Way::Characters(unicode) => {
                let filter = Filter::with_unicode(alloc, LIMIT, Policy::All, unicode);
                written_by(alloc, reader, filter)
            }
            Way::Lines(returns) => {
                let guard = Guard {
                    characters: Unicode::Keep,
                    returns,
                };
                let filter = LineFilter::with_guard(alloc, LIMIT, Policy::All, guard);
                written_by(alloc, reader, filter)
            }
        }
    }
}

// Returns the text that this filter writes.
fn written_by<R: Read + Drop, F: StreamFilter<Global> + Drop>(
    alloc: Global,
    reader: R,
    filter: F,
) -> Result<String, AllocError> {
    let mut filter = filter;
    let mut reader = Watched::new(reader);
    let mut writer = Watched::new(Vec::new(alloc));
    let ending = pump(alloc, &mut filter, &mut reader, &mut writer);
    written(alloc, ending, writer.into_inner())
}

// Says how a filter ends, and its writer then.
fn run<A: Allocator + Copy, R: Read + Drop, W: Write + Drop>(
    heap: A,
    reader: R,
    writer: W,
    policy: Policy,
) -> (Result<(), FilterError>, W) {
    let mut reader = Watched::new(reader);
    let mut writer = Watched::new(writer);
    let ending = filter_stream(heap, &mut reader, &mut writer, LIMIT, policy);
    (ending, writer.into_inner())
}

// Returns the actions of a stream that pass.
fn filtered<R: Read + Drop>(
    alloc: Global,
    reader: R,
    policy: Policy,
) -> Result<String, AllocError> {
    let (ending, text) = run(alloc, reader, Vec::new(alloc), policy);
    written(alloc, ending, text)
}

// Returns whether a read that fails is an error, and the output is a prefix.
fn are_read_faults(alloc: Global, stream: &[u8], wanted: &str) -> bool {
    let mut is_right = true;
    for at in 1..=stream.len().saturating_add(1) {
        is_right &= is_read_fault(alloc, stream, at, wanted);
    }
    is_right
}

// Does the same for a read with this number.
fn is_read_fault(alloc: Global, stream: &[u8], at: usize, wanted: &str) -> bool {
    let reader = byte_by_byte(stream, at);
    let (ending, text) = run(alloc, reader, Vec::new(alloc), Policy::All);
    (ending == Err(FilterError::Read)) & wanted.as_bytes().starts_with(&text)
}

// Returns whether a writer that fails, of one byte a call, is an error, and holds the bytes that it
// took before.
fn are_write_faults(alloc: Global, stream: &[u8], wanted: &str) -> bool {
    let mut is_right = true;
    for at in 0..wanted.len().min(64) {
        is_right &= is_write_fault(alloc, stream, &wanted.as_bytes()[..at]);
    }
    is_right
}

// Does the same for a write after this text.
fn is_write_fault(alloc: Global, stream: &[u8], wanted: &[u8]) -> bool {
    let writer = FixedWriter::new(64, 1, wanted.len().saturating_add(1));
    let (ending, held) = run(alloc, stream, writer, Policy::All);
    (ending == Err(FilterError::Write)) & held.holds(wanted)
}

// Returns whether the text that a read adds is flushed before the next read, and the text that the
// end adds. A longer text is not tried.
fn is_flushed(alloc: Global, stream: &[u8], wanted: &str) -> bool {
    let writer = FixedWriter::new(64, 64, 0);
    let (ending, held) = run(alloc, byte_by_byte(stream, 0), writer, Policy::All);
    let is_each = held.flushes == stream.len().saturating_add(1);
    (wanted.len() > 64) | (ending.is_ok() & is_each)
}

// Returns whether each request for memory that is refused is an error or changes nothing, and there
// are not too many.
fn are_requests_right(alloc: Global, stream: &[u8], wanted: &str) -> bool {
    let heap = Refusing::new(alloc);
    for at in 1..MOST_REQUESTS {
        heap.refuse_at(at);
        let is_right = is_unchanged(alloc, &heap, stream, wanted);
        if !is_right || !heap.has_refused() {
            return is_right;
        }
    }
    false
}

// Returns whether a filter over this heap writes the text, or if it is refused memory a beginning
// of it.
fn is_unchanged<A: Allocator + Copy>(alloc: Global, heap: A, stream: &[u8], wanted: &str) -> bool {
    let (ending, text) = run(heap, stream, Vec::new(alloc), Policy::All);
    if ending.is_ok() {
        return text.as_slice() == wanted.as_bytes();
    }
    (ending == Err(FilterError::Memory)) & wanted.as_bytes().starts_with(&text)
}
