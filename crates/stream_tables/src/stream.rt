//! A stream, its meaning, and the text of that.
use crate::asked::{Asked, normalised};
use crate::firsts::finds_firsts;
use crate::limited::Limited;
use crate::reading::{Reading, by_calls, is_read_alike};
use crate::report::Report;
use crate::row::Row;
use crate::texts::{encoded, is_displayed, shown};
use std::alloc::{AllocError, Global};

/// A stream, the Debug text of the list of its actions, as a call returns it, the text that
/// `encode` writes for these, and whether the stream's last segment is finished.
#[derive(Clone, Copy)]
pub struct Stream<'a> {
    pub name: &'a str,
    pub bytes: &'a [u8],
    pub actions: &'a str,
    pub text: &'a str,
    pub is_finished: bool,
}

/// Checks the bytes of a stream, its actions, and their text, as the stream came if the row has no
/// text; under a limit, if the row has one.
pub fn check_stream(alloc: Global, row: &Row, report: &mut Report) {
    let bytes = row.bytes(alloc, "stream", report);
    let actions = row.actions(alloc, report);
    let text = row.written(alloc, report);
    let stream = Stream {
        name: row.name,
        bytes: bytes.as_slice(),
        actions: actions.as_str(),
        text: text.as_str(),
        is_finished: !row.has("unfinished"),
    };
    if row.has("limit") {
        let limited = Limited {
            stream,
            limit: row.number("limit", report),
            keeps: row.number("keeps", report),
        };
        limited.check(alloc, report);
    } else {
        stream.check(alloc, report);
    }
}

// Longer streams are not cut at each place, and are refused no memory.
const CUT_UP_TO: usize = 2000;

// For a longer stream no proper prefix is read by its segments.
const PREFIXES_UP_TO: usize = 200;

// Longer streams are read whole, and by no other call.
const EACH_BYTE_UP_TO: usize = 200_000;

impl Stream<'_> {
    /// Notes each way in which the library reads or writes it otherwise.
    pub fn check(&self, alloc: Global, report: &mut Report) {
        self.check_input_chunks(alloc, report);
        self.check_calls(alloc, report);
        self.check_prefixes(alloc, report);
        self.check_text(alloc, report);
        self.check_memory(alloc, report);
    }

    // Checks the stream in one chunk, and in two chunks, cut at each place.
    fn check_input_chunks(&self, alloc: Global, report: &mut Report) {
        self.is_read(alloc, "read whole", Reading::Whole, report);
        self.is_read(alloc, "read by segments", Reading::Segments, report);
        if self.bytes.len() > CUT_UP_TO {
            return;
        }
        let differences = report.differences;
        for at in 0..=self.bytes.len() {
            self.is_read(alloc, "read in two parts", Reading::Cut(at), report);
            if report.differences > differences {
                break;
            }
        }
    }

    // Byte by byte, and by the calls that return the actions of a prefix.
    fn check_calls(&self, alloc: Global, report: &mut Report) {
        if self.bytes.len() > EACH_BYTE_UP_TO {
            return;
        }
        self.is_read(alloc, "read byte by byte", Reading::Bytes, report);
        if self.is_finished {
            self.is_read(alloc, "read by prefixes", Reading::Prefixes, report);
        }
        let got = shown(alloc, by_calls(alloc, self.bytes));
        report.expect(self.name, "given to a closure", self.actions, got);
        let is_found = finds_firsts(alloc, self.bytes);
        report.note_unless(is_found, self.name, "first actions differ");
    }

    // Checks each prefix, the stream itself too, also with a byte after it, by its segments and a
    // parser.
    fn check_prefixes(&self, alloc: Global, report: &mut Report) {
        let len = self.bytes.len();
        if len > EACH_BYTE_UP_TO {
            return;
        }
        let first = if len > PREFIXES_UP_TO { len } else { 0 };
        for end in first..=len {
            if !is_read_alike(alloc, &self.bytes[..end]) {
                return report.note(self.name, "a prefix is read otherwise by segments");
            }
        }
    }

    // Checks the text of the actions, and the actions that are read from it again.
    fn check_text(&self, alloc: Global, report: &mut Report) {
        let actions = Reading::Whole.read(alloc, self.bytes);
        self.is_written("written", encoded(alloc, alloc, actions), report);
        let again = Reading::Bytes.read(alloc, self.text.as_bytes());
        self.is_written("written again", encoded(alloc, alloc, again), report);
        self.is_written("normalised", normalised(alloc, alloc, self.bytes), report);
        let actions = Reading::Halves.read(alloc, self.bytes);
        let is_displayed = is_displayed(alloc, actions, self.text);
        report.note_unless(is_displayed, self.name, "displayed otherwise");
    }

    // Checks the calls with each request for memory refused in turn.
    fn check_memory(&self, alloc: Global, report: &mut Report) {
        if self.bytes.len() > CUT_UP_TO {
            return;
        }
        for asked in Asked::ALL {
            let errors = asked.refuse_each(alloc, self, report);
            let is_seen = errors > 0 || !asked.grows(self);
            report.note_unless(is_seen, self.name, "no refused request makes an error");
        }
    }

    // Checks that the stream has these actions, read in this way.
    fn is_read(&self, alloc: Global, how: &str, reading: Reading, report: &mut Report) {
        let got = shown(alloc, reading.read(alloc, self.bytes));
        report.expect(self.name, how, self.actions, got);
    }

    // Checks that the text that is written for the stream in this way is its text.
    fn is_written(&self, how: &str, got: Result<String, AllocError>, report: &mut Report) {
        report.expect(self.name, how, self.text, got);
    }
}
