//! The timing of typescripts of script(1).

use crate::aside::Aside;
use crate::recording::{Fault, MEMORY};
use crate::scripted::Timed;
use command_line::Shown;
use dump_time::{Run, TimeError, Typescript};
use esc_filter::FilterError;
use esc_normal::Watched;
use memchr::memchr;
use std::alloc::Global;
use std::io;
use std::io::Write;

// The microseconds of a second.
const SECOND: u64 = 1_000_000;

// The first line of a typescript is kept up to this many bytes.
const MOST: usize = 4096;

/// The timing of a typescript of script(1), and the new one, in the form of the old one. The first
/// line of the typescript stays, escaped. The words that the user typed are left out, and so are
/// the bytes that the timing does not count.
#[derive(Drop)]
pub struct Script<'a> {
    typescript: Typescript<'a>,
    // the unfinished first line; none after its end
    first: Option<Vec<u8>>,
    // the beginning of an entry of output in the timing
    mark: &'static str,
    // the time of the last entry of the new timing
    told: u64,
    // the file of the new timing
    timing: Option<Aside>,
}

impl<'a> Script<'a> {
    /// The beginning of a typescript with this timing. The headers of the new timing go to its
    /// file.
    pub fn new(alloc: Global, timing: &'a [u8], aside: Option<Aside>) -> Script<'a> {
        Script {
            typescript: Typescript::new(timing, false),
            first: Some(Vec::new(alloc)),
            mark: mark_of(timing),
            told: 0,
            timing: with_headers(timing, aside),
        }
    }

    /// The file of the new timing.
    pub fn into_timing(self) -> Option<Aside> {
        let Script {
            typescript: _,
            first: _,
            mark: _,
            told: _,
            timing,
        } = self;
        timing
    }
}

impl<'a> Timed for Script<'a> {
    fn take_first<W: Write>(&mut self, bytes: &[u8], writer: &mut Watched<W>) -> Result<(), Fault> {
        let Some(mut first) = self.first.take() else {
            return Ok(());
        };
        match memchr(b'\n', bytes) {
            Some(at) => {
                grow(&mut first, &bytes[..at])?;
                write_first(&first, writer)
            }
            None => {
                grow(&mut first, bytes)?;
                self.first = Some(first);
                Ok(())
            }
        }
    }

    fn next<'b>(&mut self, bytes: &'b [u8]) -> Result<Option<Run<'b>>, TimeError> {
        self.typescript.next(bytes)
    }

    fn tell(&mut self, time: u64, count: usize) {
        let mark = self.mark;
        let delay = time.saturating_sub(self.told);
        self.told = time;
        let (seconds, micros) = (delay / SECOND, delay % SECOND);
        if let Some(timing) = &mut self.timing {
            let _ = writeln!(timing, "{mark}{seconds}.{micros:06} {count}");
        }
    }

    fn flush(&mut self) {
        if let Some(timing) = &mut self.timing {
            let _ = timing.flush();
        }
    }

    fn finish(&mut self) -> Result<(), TimeError> {
        self.typescript.finish()
    }
}

// Adds bytes to the first line, up to the most that it keeps.
fn grow(first: &mut Vec<u8>, bytes: &[u8]) -> Result<(), Fault> {
    let most = MOST.saturating_sub(first.len());
    match first.extend_from_slice(&bytes[..bytes.len().min(most)]) {
        Ok(()) => Ok(()),
        Err(_) => Err(MEMORY),
    }
}

// Writes the first line of a typescript, with its controls and bytes that are no UTF-8 escaped.
fn write_first<W: Write>(line: &[u8], writer: &mut Watched<W>) -> Result<(), Fault> {
    match write_escaped(line, writer) {
        Ok(()) => Ok(()),
        Err(_) => Err(Fault::Stream(FilterError::Write)),
    }
}

// Writes a line, with its controls and bytes that are no UTF-8 escaped.
fn write_escaped<W: Write>(line: &[u8], writer: &mut Watched<W>) -> io::Result<()> {
    for chunk in line.utf8_chunks() {
        write_text(chunk.valid(), writer)?;
        for byte in chunk.invalid() {
            write!(writer, "\\x{byte:02x}")?;
        }
    }
    writer.write_all(b"\n")
}

// Writes text, with its controls escaped.
fn write_text<W: Write>(text: &str, writer: &mut Watched<W>) -> io::Result<()> {
    let mut is_first = true;
    for part in text.split('\0') {
        let mark = if is_first { "" } else { "\\u{0}" };
        write!(writer, "{mark}{}", Shown(part))?;
        is_first = false;
    }
    Ok(())
}

// The beginning of an entry of output in the form of this timing: a letter in the advanced form.
fn mark_of(timing: &[u8]) -> &'static str {
    match timing {
        [b'H' | b'I' | b'O' | b'S', ..] => "O ",
        _ => "",
    }
}

// The file of the new timing, with the headers of the old one, but without names of files.
fn with_headers(timing: &[u8], aside: Option<Aside>) -> Option<Aside> {
    match aside {
        Some(mut aside) => {
            tell_headers(timing, &mut aside);
            Some(aside)
        }
        None => None,
    }
}

// Writes the headers of a timing, but without names of files.
fn tell_headers(timing: &[u8], aside: &mut Aside) {
    let mut rest = timing;
    for _ in 0..u64::MAX {
        if rest.is_empty() {
            break;
        }
        let (line, after) = parted(rest, b'\n');
        if is_told(line) {
            let _ = aside.write_all(line);
            let _ = aside.write_all(b"\n");
        }
        rest = after;
    }
}

// The text before the first byte of this value, and the text after it: all and none without one.
fn parted(text: &[u8], by: u8) -> (&[u8], &[u8]) {
    match memchr(by, text) {
        Some(at) => (&text[..at], &text[at + 1..]),
        None => (text, &[]),
    }
}

// Whether a line is a header that stays: it is printable ASCII, and names no file of output, input
// or timing.
fn is_told(line: &[u8]) -> bool {
    match line {
        [b'H', b' ', rest @ ..] => is_plain(rest) && !names_file(rest),
        _ => false,
    }
}

// Whether each byte is printable ASCII.
fn is_plain(line: &[u8]) -> bool {
    for byte in line {
        if *byte < 0x20 || *byte > 0x7e {
            return false;
        }
    }
    true
}

// Whether a header, without its letter, names a file.
fn names_file(line: &[u8]) -> bool {
    let (_, header) = parted(line, b' ');
    let (name, _) = parted(header, b' ');
    name.ends_with(b"_LOG")
}
