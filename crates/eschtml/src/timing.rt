//! Times that lines of HTML begin with, in elements of their own.
ghost use Rattle.std.specs.Io.{WritesAtMost};

use memchr::{memchr, memchr2};
use page_input::{Stamp, stamp_of};
use std::alloc::{AllocError, Global};
use std::io;
use std::io::Write;

// How many bytes of a line are looked at.
const MOST: usize = 48;

// The start tag of a time, if the page has a style sheet.
const BEGIN: &[u8] = b"<span class=\"es-time\">";

// And if it has none.
const INLINE: &[u8] = b"<span style=\"color:#6e7781;-webkit-user-select:none;user-select:none;\">";

const END: &[u8] = b"</span>";

// The place in HTML, which consists of tags, characters and character references.
#[derive(Clone, Copy)]
enum Place {
    // at the beginning of a line, in a tag or not
    Begin,
    Tag,
    // after that
    Line,
}

/// A writer of HTML around another, which puts the time that a line begins with into an element, so
/// that it is not copied with the line. It changes nothing unless it is told to.
///
/// It keeps the first bytes of a line that may be a time, at most 48.
#[derive(Drop)]
pub struct Timing<W> {
    inner: W,
    alloc: Global,
    is_on: bool,
    begin: &'static [u8],
    place: Place,
    held: Vec<u8>,
}

impl<W: Write> Timing<W> {
    /// A writer around `inner`, which was given nothing. Takes no memory.
    pub fn new(alloc: Global, is_on: bool, is_inline: bool, inner: W) -> Timing<W> {
        Timing {
            inner,
            alloc,
            is_on,
            begin: if is_inline { INLINE } else { BEGIN },
            place: Place::Begin,
            held: Vec::new(alloc),
        }
    }

    // The text that is written for these bytes, after those that were kept.
    fn timed(&mut self, bytes: &[u8]) -> Result<Vec<u8>, AllocError> {
        let mut all = fallible_alloc::copied(self.alloc, self.held.as_slice())?;
        self.held.clear();
        fallible_alloc::extend(&mut all, bytes)?;
        let mut text = Vec::new(self.alloc);
        let mut rest = all.as_slice();
        while !rest.is_empty() {
            let n = self.take(rest, &mut text)?;
            rest = &rest[n.max(1).min(rest.len())..];
        }
        Ok(text)
    }

    // Takes some of these bytes, and says how many.
    fn take(&mut self, bytes: &[u8], text: &mut Vec<u8>) -> Result<usize, AllocError> {
        match self.place {
            Place::Line => self.take_to(bytes, b'\n', Place::Begin, text),
            Place::Tag => self.take_to(bytes, b'>', Place::Begin, text),
            Place::Begin => self.take_begin(bytes, text),
        }
    }

    // Takes those up to this one, after which HTML goes on at this place.
    fn take_to(
        &mut self,
        bytes: &[u8],
        last: u8,
        next: Place,
        text: &mut Vec<u8>,
    ) -> Result<usize, AllocError> {
        let Some(at) = memchr(last, bytes) else {
            fallible_alloc::extend(text, bytes)?;
            return Ok(bytes.len());
        };
        let n = at.saturating_add(1).min(bytes.len());
        fallible_alloc::extend(text, &bytes[..n])?;
        self.place = next;
        Ok(n)
    }

    // Takes the beginning of a line, or keeps it.
    fn take_begin(&mut self, bytes: &[u8], text: &mut Vec<u8>) -> Result<usize, AllocError> {
        if bytes.starts_with(b"<") {
            self.place = Place::Tag;
            return self.take_to(bytes, b'>', Place::Begin, text);
        }
        let first = first_of(bytes);
        match stamp_of(first) {
            Stamp::Ends(length) => self.push_stamp(first, length, text),
            Stamp::More if first.len() == bytes.len() && bytes.len() < MOST => {
                fallible_alloc::extend(&mut self.held, first)?;
                Ok(first.len())
            }
            Stamp::More | Stamp::No => {
                self.place = Place::Line;
                self.take_to(bytes, b'\n', Place::Begin, text)
            }
        }
    }

    // Writes a time of this length, with the tags around it.
    fn push_stamp(
        &mut self,
        first: &[u8],
        length: usize,
        text: &mut Vec<u8>,
    ) -> Result<usize, AllocError> {
        let stamp = first.get(..length).unwrap_or(first);
        fallible_alloc::extend(text, self.begin)?;
        fallible_alloc::extend(text, stamp)?;
        fallible_alloc::extend(text, END)?;
        self.place = Place::Line;
        Ok(stamp.len())
    }
}

impl<W: Write + Drop> Timing<W> {
    /// Writes the bytes that were kept.
    pub fn end(self) -> io::Result<()> {
        let Timing {
            mut inner,
            held,
            ..
        } = self;
        if held.is_empty() {
            return Ok(());
        }
        inner.write_all(&held)?;
        inner.flush()
    }
}

impl<W: Write> Write for Timing<W> {
    fn write(&mut self, buf: &[u8]) -> io::Result<usize>
        ensures bound { WritesAtMost result buf.now }
    {
        if !self.is_on {
            return self.inner.write(buf);
        }
        let text = self.timed(buf)?;
        self.inner.write_all(&text)?;
        Ok(buf.len())
    }

    fn flush(&mut self) -> io::Result<()> {
        self.inner.flush()
    }
}

// The bytes before a tag or the end of the line, among those that are looked at.
fn first_of(bytes: &[u8]) -> &[u8] {
    let first = &bytes[..MOST.min(bytes.len())];
    let end = memchr2(b'<', b'\n', first).unwrap_or(first.len());
    first.get(..end).unwrap_or(first)
}
