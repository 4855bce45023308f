//! The text of a recording of asciinema.
ghost use Rattle.std.specs.Prelude.{◌≤◌, length};

use crate::carried::Carried;
use crate::linking::copied;
use dump_time::{Cast, TimeError};
use esc_decode::Encoding;
use std::alloc::{AllocError, Global};
use std::io;
use std::io::Read;

// Says how many bytes are read at once.
const BYTES: usize = 8192;

// Says how many microseconds a millisecond has.
const MILLI: u64 = 1000;

/// The part of a recording that is read.
#[derive(Clone, Copy)]
pub struct Recorded {
    /// Says whether the stream is a recording; else all of it is read as it is.
    pub is_on: bool,
    /// Says whether each line begins with the time at which its first byte came.
    pub has_times: bool,
    /// Says whether renditions end before such a time, and go on after it.
    pub is_plain: bool,
}

/// Reads the text that a terminal got, by a recording of asciinema that another reader reads:
/// version 2 or 3, which are lines of JSON. A line that is none ends it:
/// [`wrong`](Casting::wrong) has its number then.
///
/// It keeps a line of the recording, and the text of the lines that were read at once.
#[derive(Drop)]
pub struct Casting<R> {
    inner: R,
    alloc: Global,
    recorded: Recorded,
    cast: Cast,
    timed: Timed,
    at: usize,
    has_ended: bool,
    wrong: Option<u64>,
}

// The text, and the place from which it goes on.
#[derive(Drop)]
struct Timed {
    alloc: Global,
    recorded: Recorded,
    carried: Carried,
    made: Vec<u8>,
    begins_line: bool,
}

impl<R: Read> Casting<R> {
    /// Returns a reader of the text of this one, from its beginning. Takes no memory.
    pub fn new(alloc: Global, recorded: Recorded, inner: R) -> Casting<R> {
        Casting {
            inner,
            alloc,
            recorded,
            cast: Cast::new(alloc),
            timed: Timed {
                alloc,
                recorded,
                carried: Carried::new(alloc, Encoding::Utf8),
                made: Vec::new(alloc),
                begins_line: true,
            },
            at: 0,
            has_ended: false,
            wrong: None,
        }
    }

    /// Returns the number of the line that is no line of a recording, if one came.
    pub fn wrong(&self) -> Option<u64> {
        self.wrong
    }

    // Hands out the text that was made, as much as there is room for.
    fn hand_out(&mut self, buf: &mut [u8]) -> usize
        ensures { result ≤ length buf.new }
    {
        let at = self.at;
        let count = match self.timed.made.as_slice().get(at..) {
            Some(rest) => copied(rest, buf),
            None => 0,
        };
        self.at = at.saturating_add(count);
        count
    }

    // Reads more, in place of the text that was handed out.
    fn refill(&mut self) -> io::Result<()> {
        let mut bytes = [0; BYTES];
        let count = self.inner.read(&mut bytes)?;
        self.timed.made.clear();
        self.at = 0;
        let taken = match bytes.get(..count) {
            Some(read) if count > 0 => self.take(read),
            _ => self.end(),
        };
        match taken {
            Ok(()) => Ok(()),
            Err(TimeError::Line(number)) => {
                self.wrong = Some(number);
                self.has_ended = true;
                Ok(())
            }
            Err(_) => Err(AllocError.into()),
        }
    }

    // Takes bytes more.
    fn take(&mut self, bytes: &[u8]) -> Result<(), TimeError> {
        let mut rest = bytes;
        for _ in 0..=bytes.len() {
            match self.cast.take(rest)? {
                Some(more) => rest = more,
                None => return Ok(()),
            }
            self.hear()?;
        }
        Ok(())
    }

    // Takes the end, if the last line may have no line feed.
    fn end(&mut self) -> Result<(), TimeError> {
        self.has_ended = true;
        if self.cast.has_rest() {
            self.hear()
        } else {
            Ok(())
        }
    }

    // Takes the event of a line.
    fn hear(&mut self) -> Result<(), TimeError> {
        let Some(heard) = self.cast.heard()? else {
            return Ok(());
        };
        if heard.is_input {
            return Ok(());
        }
        match self.timed.take(heard.time, heard.text.as_bytes()) {
            Ok(()) => Ok(()),
            Err(_) => Err(TimeError::Memory),
        }
    }
}

impl Timed {
    // Takes text that came at this time.
    fn take(&mut self, time: u64, text: &[u8]) -> Result<(), AllocError> {
        if !self.recorded.has_times {
            return fallible_alloc::extend(&mut self.made, text);
        }
        let mut rest = text;
        for _ in 0..text.len() {
            if rest.is_empty() {
                break;
            }
            let count = self.take_some(time, rest)?;
            rest = rest.get(count.max(1)..).unwrap_or(b"");
        }
        Ok(())
    }

    // Takes some of this text, no more than a line; returns how much.
    fn take_some(&mut self, time: u64, text: &[u8]) -> Result<usize, AllocError> {
        if self.begins_line {
            self.push_time(time)?;
        }
        let (count, begins_line) = self.carried.take_some(text);
        self.begins_line = begins_line;
        fallible_alloc::extend(&mut self.made, text.get(..count).unwrap_or(text))?;
        Ok(count)
    }

    // Appends a time, without the renditions that hold.
    fn push_time(&mut self, time: u64) -> Result<(), AllocError> {
        let renditions = if self.recorded.is_plain {
            self.carried.text(self.alloc)?
        } else {
            String::new(self.alloc)
        };
        if !renditions.as_str().is_empty() {
            fallible_alloc::extend(&mut self.made, b"\x1b[m")?;
        }
        let seconds = time / (MILLI * MILLI);
        self.push_number(seconds / 3600, 2, b':')?;
        self.push_number(seconds / 60 % 60, 2, b':')?;
        self.push_number(seconds % 60, 2, b'.')?;
        self.push_number(time / MILLI % MILLI, 3, b' ')?;
        fallible_alloc::extend(&mut self.made, renditions.as_str().as_bytes())
    }

    // Appends a number of so many digits at least, and the byte after it.
    fn push_number(&mut self, number: u64, digits: usize, after: u8) -> Result<(), AllocError> {
        let mut reversed = [b'0'; 20];
        let mut left = number;
        let mut count = 0usize;
        for place in &mut reversed {
            if left == 0 && digits <= count {
                break;
            }
            *place = b'0'.saturating_add(u8::try_from(left % 10).unwrap_or(0));
            left /= 10;
            count = count.saturating_add(1);
        }
        for digit in reversed[..count.min(20)].iter().rev() {
            fallible_alloc::extend(&mut self.made, &[*digit])?;
        }
        fallible_alloc::extend(&mut self.made, &[after])
    }
}

impl<R: Read> Read for Casting<R> {
    fn read(&mut self, buf: &mut [u8]) -> io::Result<usize> {
        if !self.recorded.is_on {
            return self.inner.read(buf);
        }
        for _ in 0..u64::MAX {
            if buf.is_empty() || self.at < self.timed.made.len() || self.has_ended {
                return Ok(self.hand_out(buf));
            }
            self.refill()?;
        }
        Err(io::Error::from(io::ErrorKind::TimedOut))
    }
}
