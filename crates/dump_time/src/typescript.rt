//! Typescripts of script(1), by their timing.

use crate::time_error::TimeError;
use crate::timing::{Entry, entry_in, line_of};
use memchr::memchr;

/// Some bytes of a typescript that came at one time.
#[derive(Clone, Copy)]
pub struct Run<'b> {
    /// When they came.
    pub time: u64,
    /// They.
    pub text: &'b [u8],
    /// Says whether more came at this time.
    pub has_more: bool,
    /// Says whether they are of the direction that is asked for.
    pub is_asked: bool,
    /// The bytes after them.
    pub rest: &'b [u8],
}

/// A typescript of script(1) that comes in chunks, by its timing file. Its first line is a header,
/// and bytes after those that the timing counts are no part of it (scriptreplay(1)).
#[derive(Clone, Copy, Drop)]
pub struct Typescript<'t> {
    // The rest of the timing.
    timing: &'t [u8],
    // Says whether the typed input is asked for, and not the output that the terminal got.
    is_input: bool,
    // The files of output and of input.
    output_log: &'t [u8],
    input_log: &'t [u8],
    // Says whether the header line of the typescript has ended.
    is_begun: bool,
    // Says how many bytes are left of the entry, and whether they are of the direction that is
    // asked for.
    left: u64,
    is_asked: bool,
    // Says how many lines of the timing were read.
    count: u64,
    time: u64,
}

impl<'t> Typescript<'t> {
    /// Returns a typescript with this timing, to which nothing came, for the typed input or for the
    /// output that the terminal got.
    pub fn new(timing: &'t [u8], is_input: bool) -> Typescript<'t> {
        Typescript {
            timing,
            is_input,
            output_log: b"",
            input_log: b"",
            is_begun: false,
            left: 0,
            is_asked: false,
            count: 0,
            time: 0,
        }
    }

    /// Returns the bytes that come next, and came at one time; none, if all of these are taken, or
    /// no entry of the timing is left. The error is that a line of the timing is no entry.
    pub fn next<'b>(&mut self, bytes: &'b [u8]) -> Result<Option<Run<'b>>, TimeError> {
        let bytes = self.begin(bytes);
        if bytes.is_empty() || !self.has_entry()? {
            return Ok(None);
        }
        let most = usize::try_from(self.left).unwrap_or(usize::MAX);
        let (text, rest) = bytes.split_at(bytes.len().min(most));
        self.left = self.left.saturating_sub(text.len() as u64);
        Ok(Some(Run {
            time: self.time,
            text,
            has_more: self.left > 0,
            is_asked: self.is_asked,
            rest,
        }))
    }

    /// Ends the typescript. The error is that entries are left.
    pub fn finish(&mut self) -> Result<(), TimeError> {
        if self.has_entry()? {
            Err(TimeError::Short)
        } else {
            Ok(())
        }
    }

    // Returns the bytes after the header line.
    fn begin<'b>(&mut self, bytes: &'b [u8]) -> &'b [u8] {
        if self.is_begun {
            return bytes;
        }
        match memchr(b'\n', bytes) {
            Some(at) => {
                self.is_begun = true;
                &bytes[at + 1..]
            }
            None => b"",
        }
    }

    // Returns whether an entry has bytes of this file: reads entries up to one that has.
    fn has_entry(&mut self) -> Result<bool, TimeError> {
        for _ in 0..u64::MAX {
            if self.left > 0 {
                return Ok(true);
            }
            if self.timing.is_empty() {
                return Ok(false);
            }
            let (line, rest) = line_of(self.timing);
            self.timing = rest;
            self.count = self.count.saturating_add(1);
            self.read(entry_in(line))?;
        }
        Ok(false)
    }

    // Takes an entry.
    fn read(&mut self, entry: Entry<'t>) -> Result<(), TimeError> {
        match entry {
            Entry::Output(delay, count) => self.come(delay, count, !self.is_input),
            Entry::Input(delay, count) => self.come(delay, count, self.is_input),
            Entry::Either(delay, count) => self.come(delay, count, true),
            Entry::Passed(delay) => self.time = self.time.saturating_add(delay),
            Entry::Header(b"OUTPUT_LOG", name) => self.output_log = name,
            Entry::Header(b"INPUT_LOG", name) => self.input_log = name,
            Entry::Header(_, _) | Entry::Nothing => {}
            Entry::Wrong => return Err(TimeError::Entry(self.count)),
        }
        Ok(())
    }

    // Takes bytes that came after a delay. Those of the other direction are in this file if one
    // file has both.
    fn come(&mut self, delay: u64, count: u64, is_asked: bool) {
        self.time = self.time.saturating_add(delay);
        self.is_asked = is_asked;
        if is_asked || self.has_both() {
            self.left = count;
        }
    }

    // Returns whether one file has the output that the terminal got and the typed input.
    fn has_both(&self) -> bool {
        !self.output_log.is_empty() && self.output_log == self.input_log
    }
}
