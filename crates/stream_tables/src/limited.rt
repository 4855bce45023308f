//! Streams that are read under a limit.
use crate::gathered::Gathered;
use crate::reading::is_read_alike;
use crate::report::Report;
use crate::stream::Stream;
use crate::texts::{shown, written};
use escape_stream::{Action, ParseError, Parser, Watched, is_normal_limited, normalise_limited};
use std::alloc::{AllocError, Global};

/// A stream, the limit that it is read under, and how many bytes are kept after it.
#[derive(Clone, Copy)]
pub struct Limited<'a> {
    pub stream: Stream<'a>,
    pub limit: usize,
    pub keeps: usize,
}

impl Limited<'_> {
    /// Notes each way in which the library reads or writes it otherwise, however it is cut.
    pub fn check(&self, alloc: Global, report: &mut Report) {
        self.check_input_chunks(alloc, report);
        let Stream {
            name,
            bytes,
            actions,
            text,
            ..
        } = self.stream;
        let got = shown(alloc, self.by_bytes(alloc));
        report.expect(name, "read byte by byte", actions, got);
        report.expect(name, "normalised", text, self.normalised(alloc));
        let is_compared = self.is_compared(alloc);
        report.note_unless(is_compared, name, "compared with its normal form otherwise");
        // without the limit, by a parser and by its segments
        let is_alike = is_read_alike(alloc, bytes);
        report.note_unless(is_alike, name, "read otherwise by segments");
    }

    // Checks the stream in two chunks, cut at each place.
    fn check_input_chunks(&self, alloc: Global, report: &mut Report) {
        let stream = self.stream;
        for at in 0..=stream.bytes.len() {
            let (begins, ends) = stream.bytes.split_at(at);
            let got = shown(alloc, self.in_input_chunks(alloc, begins, ends));
            report.expect(stream.name, "read in two parts", stream.actions, got);
        }
    }

    // Returns the actions of two chunks.
    fn in_input_chunks(
        &self,
        alloc: Global,
        begins: &[u8],
        ends: &[u8],
    ) -> Result<Vec<Action>, ParseError> {
        let mut parser = Parser::with_limit(alloc, self.limit);
        let mut gathered = Gathered::new(alloc);
        gathered.add(parser.parse_as_vec(begins));
        gathered.add(parser.parse_as_vec(ends));
        gathered.ended()
    }

    // Returns the actions of the stream byte by byte. No more is kept than the limit, and so much
    // after all of it; otherwise it fails.
    fn by_bytes(&self, alloc: Global) -> Result<Vec<Action>, ParseError> {
        let mut parser = Parser::with_limit(alloc, self.limit);
        let mut gathered = Gathered::new(alloc);
        for byte in self.stream.bytes {
            gathered.add(parser.parse_as_vec(&[*byte]));
            if parser.kept() > self.limit {
                gathered.check(Err(ParseError::Failed));
            }
        }
        if parser.kept() != self.keeps {
            gathered.check(Err(ParseError::Failed));
        }
        gathered.ended()
    }

    // Returns its normal form.
    fn normalised(&self, alloc: Global) -> Result<String, AllocError> {
        let mut normal = Watched::new(Vec::new(alloc));
        let mut reader = Watched::new(self.stream.bytes);
        let ending = normalise_limited(alloc, &mut reader, &mut normal, self.limit);
        written(alloc, ending, normal.into_inner())
    }

    // Returns whether it is compared rightly with its normal form.
    fn is_compared(&self, alloc: Global) -> bool {
        let is_same = self.stream.text.as_bytes() == self.stream.bytes;
        match is_normal_limited(alloc, &mut Watched::new(self.stream.bytes), self.limit) {
            Ok(verdict) => verdict == is_same,
            Err(_) => false,
        }
    }
}
