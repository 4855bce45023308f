//! The first lines of a stream, or the last ones.
ghost use Rattle.std.specs.Prelude.{◌≡◌, ◌≤◌, ◌+◌, ◌-◌, ◌^◌, length, min, take};
ghost use Rattle.std.specs.Io.{ReadsAtMost};
ghost use Rattle.std.specs.Io.KnownBytes.{ReadConsumes};
ghost use Rattle.page_input.specs.Lines.{feeds, first_lines, first_of, open_after, window_of};

use crate::carried::Carried;
use esc_decode::Encoding;
use memchr::{memchr, memrchr};
use std::alloc::{AllocError, Global};
use std::io::{ErrorKind, Read};
use std::{io, mem};

// Says how many bytes are read at once.
const BYTES: usize = 8192;

// The least number of bytes that are kept before those are let go that are no part of the last
// lines.
const ROOM: usize = 65_536;

/// The lines of a stream that are written: the last of the first ones.
#[derive(Clone, Copy)]
pub struct Cut {
    /// The number of lines that come first, if not all do.
    pub head: Option<u64>,
    /// The number of them that come last, if not all do.
    pub tail: Option<u64>,
}

impl Cut {
    /// Returns whether not all of them are.
    pub fn is_some(self) -> bool {
        self.head.is_some() || self.tail.is_some()
    }
}

/// Says how many lines some text has.
#[derive(Clone, Copy)]
struct Count {
    // those that a line feed ended
    ended: u64,
    // says whether more came after the last line feed
    is_open: bool,
}

impl Count {
    // Returns the count of no text.
    fn new() -> Count {
        Count {
            ended: 0,
            is_open: false,
        }
    }

    // Returns the count with more text.
    fn and(self, bytes: &[u8]) -> Count
        ensures ended { result.ended ≡ min (self.ended + feeds bytes.now) (2 ^ 64 - 1) }
        ensures open { result.is_open ≡ open_after self.is_open bytes.now }
    {
        Count {
            ended: self.ended.saturating_add(count_feeds(bytes)),
            is_open: is_open_after(self.is_open, bytes),
        }
    }

    fn lines(self) -> u64 {
        self.ended.saturating_add(u64::from(self.is_open))
    }
}

/// A reader around another, which reads some of its lines. If these are the last ones, they are
/// kept, and begin with the renditions that the lines before them leave on.
#[derive(Drop)]
pub struct Window<R> {
    inner: R,
    alloc: Global,
    // the number of lines more that come first, if not all do
    left: Option<u64>,
    // the number of them that come last, if not all do
    tail: Option<u64>,
    // the lines that were left out before them, and after them
    before: Count,
    after: Count,
    carried: Carried,
    // the last lines so far, and the number of bytes that there may be before some are let go
    kept: Vec<u8>,
    most: usize,
    // says how many bytes of them were handed out
    at: usize,
    // why no more can be read
    fault: Option<io::Error>,
}

impl<R: Read> Window<R> {
    /// Returns a reader of these lines of the stream of `inner`, in this encoding. Takes no memory.
    pub fn new(alloc: Global, encoding: Encoding, cut: Cut, inner: R) -> Window<R> {
        Window {
            inner,
            alloc,
            left: cut.head,
            tail: cut.tail,
            before: Count::new(),
            after: Count::new(),
            carried: Carried::new(alloc, encoding),
            kept: Vec::new(alloc),
            most: ROOM,
            at: 0,
            fault: None,
        }
    }

    /// Reads on to the last lines, if these are read. A fault is an error of the read after them.
    pub fn prepare(&mut self) {
        let Some(tail) = self.tail else {
            return;
        };
        if let Err(error) = self.read_all(tail) {
            self.fault = Some(error);
        }
        if let Err(error) = self.begin(tail) {
            self.fault = Some(error.into());
        }
    }

    /// Returns the other reader.
    pub fn inner(&self) -> &R {
        &self.inner
    }

    /// Returns how many lines were left out before those that are read.
    pub fn before(&self) -> u64 {
        self.before.lines()
    }

    /// Reads the rest; returns the number of lines that were left out after those that were read.
    pub fn after(&mut self) -> io::Result<u64> {
        if self.left.is_none() {
            return Ok(0);
        }
        let mut bytes = [0; BYTES];
        for _ in 0..u64::MAX {
            let count = read_some(&mut self.inner, &mut bytes)?;
            match bytes.get(..count) {
                Some(read) if count > 0 => self.after = self.after.and(read),
                _ => break,
            }
        }
        Ok(self.after.lines())
    }

    // Reads the first part to its end, and keeps the last lines of it.
    fn read_all(&mut self, tail: u64) -> io::Result<()> {
        let mut bytes = [0; BYTES];
        for _ in 0..u64::MAX {
            let count = self.read_first(&mut bytes)?;
            match bytes.get(..count) {
                Some(read) if count > 0 => self.keep(tail, read)?,
                _ => break,
            }
        }
        Ok(())
    }

    // Reads the first part.
    fn read_first(&mut self, buf: &mut [u8]) -> io::Result<usize>
        ensures bound { ReadsAtMost result buf.new }
        ensures bytes { ReadConsumes (first_of self.old.left (R.remaining self.old.inner))
            (first_of self.new.left (R.remaining self.new.inner)) result buf.new }
        ensures same { self.new.tail ≡ self.old.tail }
    {
        let Some(left) = self.left else {
            return read_some(&mut self.inner, buf);
        };
        if left == 0 {
            return Ok(0);
        }
        let count = read_some(&mut self.inner, buf)?;
        let read = &buf[..count];
        let first = length_of_first(read, left);
        self.left = Some(left.saturating_sub(count_feeds(&read[..first])));
        self.after = self.after.and(&read[first..]);
        Ok(first)
    }

    // Keeps more.
    fn keep(&mut self, tail: u64, bytes: &[u8]) -> Result<(), AllocError> {
        fallible_alloc::extend(&mut self.kept, bytes)?;
        if self.kept.len() < self.most {
            return Ok(());
        }
        self.let_go(tail)?;
        self.most = self.kept.len().saturating_mul(2).saturating_add(ROOM);
        Ok(())
    }

    // Lets go the bytes that are no part of the last lines.
    fn let_go(&mut self, tail: u64) -> Result<(), AllocError> {
        let start = start_of_last(self.kept.as_slice(), tail).min(self.kept.len());
        let (gone, rest) = self.kept.as_slice().split_at(start);
        self.before = self.before.and(gone);
        self.carried.take(gone);
        let rest = fallible_alloc::copied(self.alloc, rest)?;
        self.kept = rest;
        Ok(())
    }

    // Begins the last lines with the renditions that hold there.
    fn begin(&mut self, tail: u64) -> Result<(), AllocError> {
        self.let_go(tail)?;
        let mut text = self.carried.text(self.alloc)?.into_bytes();
        fallible_alloc::extend(&mut text, self.kept.as_slice())?;
        self.kept = text;
        Ok(())
    }

    // Hands out the bytes that were kept, as much as there is room for.
    fn hand_out(&mut self, buf: &mut [u8]) -> io::Result<usize>
        ensures bound { ReadsAtMost result buf.new }
        ensures same { self.new.tail ≡ self.old.tail }
    {
        let at = self.at.min(self.kept.len());
        let rest = &self.kept.as_slice()[at..];
        let count = rest.len().min(buf.len());
        if count == 0 {
            return match mem::replace(&mut self.fault, None) {
                Some(error) => Err(error),
                None => Ok(0),
            };
        }
        buf[..count].copy_from_slice(&rest[..count]);
        self.at = at.saturating_add(count);
        Ok(count)
    }
}

impl<R: Read> Read for Window<R> {
    ghost remaining = { λ w. window_of w.tail w.left (R.remaining w.inner) };

    fn read(&mut self, buf: &mut [u8]) -> io::Result<usize>
        ensures bound { ReadsAtMost result buf.new }
        ensures bytes { ReadConsumes
            (window_of self.old.tail self.old.left (R.remaining self.old.inner))
            (window_of self.new.tail self.new.left (R.remaining self.new.inner)) result buf.new }
    {
        match self.tail {
            Some(_) => self.hand_out(buf),
            None => self.read_first(buf),
        }
    }
}

// Reads, also if a signal came between.
fn read_some<R: Read>(reader: &mut R, buf: &mut [u8]) -> io::Result<usize>
    ensures bound { ReadsAtMost result buf.new }
    ensures bytes { ReadConsumes (R.remaining reader.old) (R.remaining reader.new) result buf.new }
{
    for _ in 0..u64::MAX {
        match reader.read(buf) {
            Ok(count) => return Ok(count),
            Err(error) => {
                if error.kind() != ErrorKind::Interrupted {
                    return Err(error);
                }
            }
        }
    }
    Err(io::Error::from(ErrorKind::TimedOut))
}

// Returns how many line feeds there are.
fn count_feeds(bytes: &[u8]) -> u64
    ensures { result ≡ feeds bytes.now }
{
    let mut count = 0u64;
    let mut rest = bytes;
    while let Some(at) = memchr(b'\n', rest) {
        count += 1;
        rest = &rest[at + 1..];
    }
    count
}

// Returns whether bytes come after the last line feed, if before these some do or not.
fn is_open_after(is_open: bool, bytes: &[u8]) -> bool
    ensures { result ≡ open_after is_open bytes.now }
{
    if bytes.is_empty() {
        is_open
    } else {
        bytes[bytes.len() - 1] != b'\n'
    }
}

// Returns the number of bytes of the first lines, so many.
fn length_of_first(bytes: &[u8], lines: u64) -> usize
    ensures within { result ≤ length bytes.now }
    ensures first { take result bytes.now ≡ first_lines lines bytes.now }
{
    let mut end = 0usize;
    let mut left = lines;
    while 0 < left {
        let Some(at) = memchr(b'\n', &bytes[end..]) else {
            return bytes.len();
        };
        end += at + 1;
        left -= 1;
    }
    end
}

// Returns the beginning of the last lines, so many.
fn start_of_last(bytes: &[u8], lines: u64) -> usize {
    let mut left = lines;
    let mut rest = match bytes {
        [rest @ .., b'\n'] => rest,
        _ => bytes,
    };
    while let Some(at) = memrchr(b'\n', rest) {
        left = left.saturating_sub(1);
        if left == 0 {
            return at.saturating_add(1);
        }
        rest = &rest[..at];
    }
    0
}
