//! A recording that is played.

use crate::display::{Display, Output};
use crate::fault::Fault;
use crate::frames::Frames;
use crate::kept::put;
use crate::options::{DEFAULT_SIZE, Options, Size};
use asciicast::{Event, event_in};
use dump_time::micros_in;
use json::{Scratch, Value};
use memchr::memchr;
use std::alloc::Global;
use std::{mem, str};

/// A recording, line by line, and the terminal that got the texts of its events.
#[derive(Drop)]
pub struct Recorded {
    alloc: Global,
    options: Options,
    scratch: Scratch,
    // the bytes so far of the line that is unfinished
    line: Vec<u8>,
    // says how many lines were taken
    count: u64,
    clock: Clock,
    // none before the header
    display: Option<Display>,
}

// The time of a recording.
#[derive(Clone, Copy)]
struct Clock {
    // the time of the last event, in microseconds
    now: u64,
    // says whether the time of an event is counted from the event before
    is_relative: bool,
    // says whether an event came after the time that is asked for
    is_over: bool,
}

impl Recorded {
    /// Returns a recording to which nothing came. Takes no memory.
    pub fn new(alloc: Global, options: Options) -> Recorded {
        Recorded {
            alloc,
            options,
            scratch: Scratch::new(alloc),
            line: Vec::new(alloc),
            count: 0,
            clock: Clock {
                now: 0,
                is_relative: false,
                is_over: false,
            },
            display: None,
        }
    }

    /// Returns whether an event came after the time that is asked for.
    pub fn is_over(&self) -> bool {
        self.clock.is_over
    }

    /// Takes bytes more.
    pub fn take<F: Frames>(&mut self, bytes: &[u8], frames: &mut F) -> Result<(), Fault> {
        let mut rest = bytes;
        while let Some(at) = memchr(b'\n', rest) {
            self.line.extend_from_slice(&rest[..at])?;
            self.end_line(frames)?;
            rest = &rest[at + 1..];
        }
        self.line.extend_from_slice(rest)?;
        Ok(())
    }

    /// Takes the last line, if it has no line feed. If it is no line of a recording, the recording
    /// is cut there.
    pub fn end<F: Frames>(&mut self, frames: &mut F) -> Result<(), Fault> {
        if self.line.is_empty() {
            return Ok(());
        }
        let done = self.end_line(frames);
        self.with_cut(done)
    }

    // Keeps the place of the cut, if the last line had this fault. Before the header there is no
    // recording that is cut.
    fn with_cut(&mut self, done: Result<(), Fault>) -> Result<(), Fault> {
        let Err(Fault::Line(number)) = done else {
            return done;
        };
        let Some(display) = &mut self.display else {
            return done;
        };
        display.cut = Some(number);
        Ok(())
    }

    /// Returns the terminal, and its lines so far. The error is that there was no header.
    pub fn into_display(self) -> Result<Display, Fault> {
        let Recorded {
            alloc: _,
            options: _,
            scratch: _,
            line: _,
            count,
            clock: _,
            display,
        } = self;
        match display {
            Some(display) => Ok(display),
            None => Err(Fault::Line(count.saturating_add(1))),
        }
    }

    // Takes the line, if the recording goes on.
    fn end_line<F: Frames>(&mut self, frames: &mut F) -> Result<(), Fault> {
        self.count = self.count.saturating_add(1);
        let line = mem::replace(&mut self.line, Vec::new(self.alloc));
        if self.clock.is_over {
            return Ok(());
        }
        match str::from_utf8(&line) {
            Ok(text) => self.take_line(text, frames),
            Err(_) => Err(Fault::Line(self.count)),
        }
    }

    // Takes a line.
    fn take_line<F: Frames>(&mut self, line: &str, frames: &mut F) -> Result<(), Fault> {
        let mut scratch = mem::replace(&mut self.scratch, Scratch::new(self.alloc));
        let event = event_in(self.alloc, line, &mut scratch)?;
        match event {
            Event::Output(time, text) => {
                self.clock.pass(time, self.options.at);
                self.play(Output::Text(text), frames)
            }
            Event::Input(time, _) => {
                self.clock.pass(time, self.options.at);
                Ok(())
            }
            Event::Passed(time) => {
                self.clock.pass(time, self.options.at);
                self.resize(line, frames)
            }
            Event::Header(is_relative) => {
                self.clock.is_relative = is_relative;
                self.begin(line)
            }
            Event::Nothing => Ok(()),
            Event::Wrong => Err(Fault::Line(self.count)),
        }
    }

    // Gives the terminal the size that an event of the kind `r` names, unless one was asked for.
    fn resize<F: Frames>(&mut self, line: &str, frames: &mut F) -> Result<(), Fault> {
        if self.options.size.is_some() {
            return Ok(());
        }
        match new_size_in(self.alloc, line)? {
            Some(size) => self.play(Output::Size(size), frames),
            None => Ok(()),
        }
    }

    // Gives the terminal a text, or a size, if that is not too late. Before it, the screen goes to
    // `frames` if it is the first of another stretch of time.
    fn play<F: Frames>(&mut self, output: Output<'_>, frames: &mut F) -> Result<(), Fault> {
        if self.clock.is_over {
            return Ok(());
        }
        match &mut self.display {
            Some(display) => {
                if self.clock.is_later(display.time, self.options.every) {
                    frames.take_frame(display)?;
                }
                display.time = Some(self.clock.now);
                Ok(display.take(output)?)
            }
            None => Err(Fault::Line(self.count)),
        }
    }

    // Makes the terminal, by the header. A second header is no line of the recording.
    fn begin(&mut self, line: &str) -> Result<(), Fault> {
        if self.display.is_some() {
            return Err(Fault::Line(self.count));
        }
        let size = match self.options.size {
            Some(size) => size,
            None => size_in(self.alloc, line)?,
        };
        let display = Display::new(self.alloc, size, self.options)?;
        put(&mut self.display, display);
        Ok(())
    }
}

impl Clock {
    // Returns whether it is in a later stretch of so many microseconds than this time was.
    fn is_later(self, time: Option<u64>, every: Option<u64>) -> bool {
        match (time, every) {
            (Some(time), Some(every)) => stretch_of(time, every) < stretch_of(self.now, every),
            _ => false,
        }
    }

    // Passes to the time of an event.
    fn pass(&mut self, time: &str, end: Option<u64>) {
        let time = micros_in(time.as_bytes()).unwrap_or(0);
        self.now = if self.is_relative {
            self.now.saturating_add(time)
        } else {
            time
        };
        if let Some(end) = end {
            self.is_over = self.is_over || end < self.now;
        }
    }
}

// Returns which stretch of so many microseconds a time is in, from 0 on.
fn stretch_of(time: u64, every: u64) -> u64 {
    time / every.max(1)
}

// Returns the size that a header has: `width` and `height`, and from version 3 on `cols` and `rows`
// of `term`.
fn size_in(alloc: Global, header: &str) -> Result<Size, Fault> {
    let mut scratch = Scratch::new(alloc);
    let Ok(value) = Value::parse(alloc, header, &mut scratch) else {
        return Err(Fault::Memory);
    };
    let size = match value.get("term") {
        Some(term) => size_of(term, "cols", "rows"),
        None => size_of(&value, "width", "height"),
    };
    Ok(size.unwrap_or(DEFAULT_SIZE))
}

// Returns the size that an object has under these names.
fn size_of(value: &Value<'_>, columns: &str, rows: &str) -> Option<Size> {
    let columns = value.get(columns)?.as_u64()?;
    let rows = value.get(rows)?.as_u64()?;
    Some(Size::within(columns, rows))
}

// Returns the size that an event has, if it is of the kind `r`: columns, `x` and rows.
fn new_size_in(alloc: Global, event: &str) -> Result<Option<Size>, Fault> {
    let mut scratch = Scratch::new(alloc);
    let Ok(value) = Value::parse(alloc, event, &mut scratch) else {
        return Err(Fault::Memory);
    };
    Ok(new_size_of(&value))
}

fn new_size_of(event: &Value<'_>) -> Option<Size> {
    match event.at(1)?.as_str()? {
        "r" => Size::limited(event.at(2)?.as_str()?),
        _ => None,
    }
}
