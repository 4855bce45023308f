//! Reads recordings of asciinema, line by line.

use crate::clock::Clock;
use crate::time_error::TimeError;
use asciicast::{Event, event_in};
use json::Scratch;
use memchr::memchr;
use std::alloc::Global;
use std::str;

/// A text of a recording, with its time.
#[derive(Clone, Copy)]
pub struct Heard<'a> {
    /// The time.
    pub time: u64,
    /// The text.
    pub text: &'a str,
    /// Says whether a user typed it, and no program wrote it.
    pub is_input: bool,
}

/// A recording of asciinema, version 2 or 3, which comes in chunks.
#[derive(Drop)]
pub struct Cast {
    alloc: Global,
    scratch: Scratch<Global>,
    // The line so far.
    line: Vec<u8>,
    // Says whether it is whole.
    is_whole: bool,
    // The number of lines so far.
    count: u64,
    clock: Clock,
}

impl Cast {
    /// Returns the beginning of a recording. Takes no memory.
    pub fn new(alloc: Global) -> Cast {
        Cast {
            alloc,
            scratch: Scratch::new(alloc),
            line: Vec::new(alloc),
            is_whole: false,
            count: 0,
            clock: Clock::new(false),
        }
    }

    /// Takes the bytes up to a line feed, and returns those after it. The line can then be
    /// [`heard`](Cast::heard). Without a line feed it takes all bytes, and returns none. The error
    /// is that memory was refused.
    pub fn take<'b>(&mut self, bytes: &'b [u8]) -> Result<Option<&'b [u8]>, TimeError> {
        if self.is_whole {
            self.is_whole = false;
            self.line.clear();
        }
        match memchr(b'\n', bytes) {
            Some(at) => {
                self.grow(&bytes[..at])?;
                self.is_whole = true;
                Ok(Some(&bytes[at + 1..]))
            }
            None => {
                self.grow(bytes)?;
                Ok(None)
            }
        }
    }

    // Adds bytes to the line.
    fn grow(&mut self, bytes: &[u8]) -> Result<(), TimeError> {
        match self.line.extend_from_slice(bytes) {
            Ok(()) => Ok(()),
            Err(_) => Err(TimeError::Memory),
        }
    }

    /// Returns whether a line without a line feed came. The last line may have none.
    pub fn has_rest(&self) -> bool {
        !self.is_whole && !self.line.is_empty()
    }

    /// Returns the text of the line, if it has one. The error is that it is no line of a recording,
    /// or that memory was refused.
    pub fn heard(&mut self) -> Result<Option<Heard<'_>>, TimeError> {
        self.count = self.count.saturating_add(1);
        self.is_whole = true;
        let count = self.count;
        let alloc = self.alloc;
        heard_in(alloc, count, &self.line, &mut self.scratch, &mut self.clock)
    }
}

// Returns the text of the line with this number, if it has one.
fn heard_in<'a>(
    alloc: Global,
    count: u64,
    line: &'a [u8],
    scratch: &'a mut Scratch<Global>,
    clock: &mut Clock,
) -> Result<Option<Heard<'a>>, TimeError> {
    let event = event_at(alloc, count, line, scratch)?;
    Ok(heard_by(event, clock))
}

// Returns the event of the line with this number.
fn event_at<'a>(
    alloc: Global,
    count: u64,
    line: &'a [u8],
    scratch: &'a mut Scratch<Global>,
) -> Result<Event<'a>, TimeError> {
    let Ok(line) = str::from_utf8(line) else {
        return Err(TimeError::Line(count));
    };
    match event_in(alloc, line, scratch) {
        Ok(Event::Wrong) => Err(TimeError::Line(count)),
        Ok(event) => Ok(event),
        Err(_) => Err(TimeError::Memory),
    }
}

// Returns the text of an event, if it has one, with its time by the clock.
fn heard_by<'a>(event: Event<'a>, clock: &mut Clock) -> Option<Heard<'a>> {
    match event {
        Event::Output(time, text) => Some(heard_at(clock.next(time), text, false)),
        Event::Input(time, text) => Some(heard_at(clock.next(time), text, true)),
        Event::Passed(time) => {
            clock.next(time);
            None
        }
        Event::Header(is_relative) => {
            *clock = Clock::new(is_relative);
            None
        }
        Event::Nothing | Event::Wrong => None,
    }
}

// Returns a text with its time.
fn heard_at<'a>(time: u64, text: &'a str, is_input: bool) -> Heard<'a> {
    Heard {
        time,
        text,
        is_input,
    }
}
