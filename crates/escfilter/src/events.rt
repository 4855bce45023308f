//! The losses of streams, one after another, in lines of JSON (RFC 8259).
ghost use Rattle.std.specs.Prelude.{◌≡◌, OnErr};
ghost use Rattle.std.specs.Global.{Global};
ghost use Rattle.fallible_alloc.specs.Refusals.{Refused};

use crate::aside::Aside;
use crate::json::{put_fate, put_name, put_place, put_text};
use crate::name::Name;
use crate::saying::{put, put_number};
use base64::engine::general_purpose::STANDARD;
use esc_account::{Entry, Fate, Place};
use esc_segments::{Segment, SegmentKind};
use std::alloc::{AllocError, Global};
use std::io;
use std::io::Write;

// How many bytes of a thing its line has at most.
const MOST: usize = 4096;

// How many bytes are written at once in base64, which are four digits for three of them.
const BYTES: usize = 48;

const DIGITS: usize = 64;

/// Lines about the losses of streams, which are written as they are found.
#[derive(Drop)]
pub struct Events {
    aside: Aside,
    // the name of the stream
    stream: String,
    // the last event, if the terminator of a string may follow
    found: Option<Event>,
    // the first of its bytes
    bytes: Vec<u8>,
}

// A segment that did not pass.
#[derive(Clone, Copy)]
struct Event {
    fate: Fate,
    name: Name,
    first: Place,
    // how many bytes it has
    length: u64,
}

impl Events {
    /// Lines that go there. Takes no memory.
    pub fn new(alloc: Global, aside: Aside) -> Events {
        Events {
            aside,
            stream: String::new(alloc),
            found: None,
            bytes: Vec::new(alloc),
        }
    }

    /// Goes on with the stream of this name.
    pub fn start(&mut self, stream: &str) {
        self.stream.clear();
        if let Err(error) = self.stream.push_str(stream) {
            self.aside.fail(&io::Error::from(error));
        }
    }

    /// Takes an entry of the account of the stream that is no terminator and is called so.
    pub fn begin(&mut self, made: Entry<'_>, name: Name) -> Result<(), AllocError>
        ensures { OnErr result (Refused Global) }
    {
        self.end();
        let first = Place {
            byte: made.place,
            line: made.line,
        };
        self.found = Some(Event {
            fate: made.fate,
            name,
            first,
            length: 0,
        });
        self.bytes.clear();
        self.grow(made.segment.bytes)?;
        if !awaits_end(made.segment) {
            self.end();
        }
        Ok(())
    }

    /// Takes the terminator of the string that came last.
    pub fn go_on(&mut self, bytes: &[u8]) -> Result<(), AllocError>
        ensures { OnErr result (Refused Global) }
    {
        self.grow(bytes)?;
        self.end();
        Ok(())
    }

    /// Writes the event that was found last, if it is not written yet.
    pub fn end(&mut self) {
        if let Some(event) = self.found {
            put_event(&self.stream, event, &self.bytes, &mut self.aside);
            let _ = self.aside.flush();
        }
        self.found = None;
    }

    /// The file that they go to.
    pub fn into_aside(self) -> Aside
        ensures { result ≡ self.aside }
    {
        let Events {
            aside,
            stream: _,
            found: _,
            bytes: _,
        } = self;
        aside
    }

    // Takes bytes more of what was found last.
    fn grow(&mut self, bytes: &[u8]) -> Result<(), AllocError>
        ensures { OnErr result (Refused Global) }
    {
        if let Some(event) = &mut self.found {
            event.length = event.length.saturating_add(bytes.len() as u64);
        }
        let room = MOST.saturating_sub(self.bytes.len());
        fallible_alloc::extend(&mut self.bytes, &bytes[..bytes.len().min(room)])
    }
}

// Whether it is a string whose terminator may be a segment of its own.
fn awaits_end(segment: Segment<'_>) -> bool {
    match segment.kind {
        SegmentKind::Osc => segment.finished && segment.bytes.last() != Some(&0x07),
        SegmentKind::Dcs | SegmentKind::Apc | SegmentKind::Ignored => segment.finished,
        _ => false,
    }
}

// Writes the line of what was found in the stream of this name.
fn put_event<W: Write>(stream: &str, event: Event, bytes: &[u8], writer: &mut W) {
    put("{\"file\":", writer);
    put_text(stream, writer);
    put_place(event.first, writer);
    put(",\"fate\":", writer);
    put_fate(event.fate, writer);
    put(",", writer);
    put_name(event.name, writer);
    put_number(",\"length\":", event.length, writer);
    put(",\"bytes\":\"", writer);
    put_base64(bytes, writer);
    put("\"}\n", writer);
}

// Writes bytes in base64.
fn put_base64<W: Write>(bytes: &[u8], writer: &mut W) {
    for chunk in bytes.chunks(BYTES) {
        let mut digits = [0; DIGITS];
        if let Ok(length) = STANDARD.encode_slice(chunk, &mut digits) {
            let _ = writer.write_all(digits.get(..length).unwrap_or(&[]));
        }
    }
}
