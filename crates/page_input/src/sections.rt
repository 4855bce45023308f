//! A log, group after group.

use crate::linking::copied;
use crate::marks::{Mark, Name, is_end, mark_length, mark_of, name_of};
use memchr::memchr;
use std::alloc::{AllocError, Global};
use std::io;
use std::io::Read;

// Says how many bytes are read at once.
const BYTES: usize = 8192;

// Says how many bytes of a line are looked at, to see whether it is a mark: a line of so many bytes
// before its end is text.
const LINE: usize = 4096;

/// Says how many groups may be one in another: a mark that begins one more is text.
pub const MOST_DEPTH: usize = 16;

// A group that is open.
#[derive(Drop)]
struct Group {
    is_section: bool,
    name: Vec<u8>,
}

impl Group {
    // Returns whether this is its name.
    fn has(&self, name: Name<'_>) -> bool {
        self.is_section == name.is_section() && self.name.as_slice() == name.text()
    }
}

// The next part.
#[derive(Clone, Copy)]
enum Next {
    // so many bytes of text, which end a line or not
    Text(usize, bool),
    // so many bytes of a mark
    Mark(usize),
    // nothing
    End,
}

/// Reads the stream of another reader, up to a line that begins or ends a group: `##[group]NAME`
/// and `##[endgroup]`, or `::group::NAME` and `::endgroup::`, maybe after a time, as GitHub has
/// them; or `section_start:TIME:NAME` and `section_end:TIME:NAME`, a carriage return and `ESC [0K`,
/// as GitLab. [`mark`](Sections::mark) says then which it is, and the next read begins after it.
///
/// An end is a mark if a group of its kind is open, which for GitLab has its name too. It ends the
/// groups in that one as well.
///
/// It keeps a line up to its end, but at most 4 KiB and the bytes of one read, and the names of the
/// groups that are open. A longer line is no mark. If no groups are asked for, it reads the stream
/// of the other reader.
#[derive(Drop)]
pub struct Sections<R> {
    inner: R,
    is_on: bool,
    alloc: Global,
    // the bytes that were read, and the number of those that were handed out
    kept: Vec<u8>,
    at: usize,
    has_ended: bool,
    // says whether a line begins there
    begins_line: bool,
    // the groups that are open
    groups: Vec<Group>,
}

impl<R: Read> Sections<R> {
    /// Returns a reader of the stream of this one, from its beginning; group after group, or not.
    /// Takes no memory.
    pub fn new(alloc: Global, is_on: bool, inner: R) -> Sections<R> {
        Sections {
            inner,
            is_on,
            alloc,
            kept: Vec::new(alloc),
            at: 0,
            has_ended: false,
            begins_line: true,
            groups: Vec::new(alloc),
        }
    }

    /// Returns how many groups are open.
    pub fn depth(&self) -> usize {
        self.groups.len()
    }

    /// This reader.
    pub fn into_inner(self) -> R {
        self.inner
    }

    /// Returns whether text comes next.
    pub fn has_text(&mut self) -> io::Result<bool> {
        match self.next()? {
            Next::Text(_, _) => Ok(true),
            Next::Mark(_) | Next::End => Ok(false),
        }
    }

    /// Takes the mark that comes next, if one does; and whether a line ends with it. An end of a
    /// group with others in it is taken for each of these first.
    pub fn mark(&mut self) -> io::Result<Option<(Mark, bool)>> {
        let Next::Mark(length) = self.next()? else {
            return Ok(None);
        };
        let ends_line = ends_line(self.first(length));
        let is_last = if is_end(self.first(length)) {
            self.end_group(length)
        } else {
            self.begin_group(length)?;
            true
        };
        let mark = mark_of(self.alloc, self.first(length))?;
        if is_last {
            self.at = self.at.saturating_add(length);
        }
        Ok(Some((mark, is_last && ends_line)))
    }

    // Begins the group of the mark of this length that comes next.
    fn begin_group(&mut self, length: usize) -> Result<(), AllocError> {
        let name = name_of(self.first(length));
        let is_section = name.is_section();
        let name = fallible_alloc::copied(self.alloc, name.text())?;
        fallible_alloc::push(&mut self.groups, Group { is_section, name })?;
        Ok(())
    }

    // Ends the last group that is open; returns whether the mark of this length is of its name.
    fn end_group(&mut self, length: usize) -> bool {
        match self.groups.pop() {
            Some(group) => group.has(name_of(self.first(length))),
            None => true,
        }
    }

    // Reads a line of text, or as much of it as there is room for.
    fn read_line(&mut self, buf: &mut [u8]) -> io::Result<usize> {
        let Next::Text(length, ends_line) = self.next()? else {
            return Ok(0);
        };
        let text = self.first(length);
        let count = copied(text, buf);
        let is_whole = count == text.len();
        self.begins_line = ends_line && is_whole;
        self.at = self.at.saturating_add(count);
        Ok(count)
    }

    // Returns whether a whole line was read.
    fn has_line(&self) -> bool {
        memchr(b'\n', self.rest()).is_some()
    }

    // Returns the bytes that were read and not handed out.
    fn rest(&self) -> &[u8] {
        let at = self.at.min(self.kept.len());
        &self.kept.as_slice()[at..]
    }

    // Returns the first bytes of it, at most so many.
    fn first(&self, length: usize) -> &[u8] {
        let rest = self.rest();
        &rest[..length.min(rest.len())]
    }

    // Returns the next part.
    fn next(&mut self) -> io::Result<Next> {
        for _ in 0..u64::MAX {
            let rest = self.rest();
            let end = memchr(b'\n', rest);
            if end.is_some() || self.has_ended || LINE <= rest.len() {
                return Ok(self.next_of(rest, end));
            }
            if !self.begins_line && !rest.is_empty() {
                return Ok(Next::Text(rest.len(), false));
            }
            self.refill()?;
        }
        Ok(Next::End)
    }

    // Returns the kind of these bytes, if their first line has this end.
    fn next_of(&self, bytes: &[u8], end: Option<usize>) -> Next {
        let length = match end {
            Some(end) => end.saturating_add(1).min(bytes.len()),
            None => bytes.len(),
        };
        let line = bytes.get(..length).unwrap_or(bytes);
        if line.is_empty() {
            return Next::End;
        }
        let is_short = end.unwrap_or(bytes.len()) < LINE;
        match mark_length(line) {
            Some(length) if is_short && self.begins_line && self.may_mark(line) => {
                Next::Mark(length)
            }
            _ => Next::Text(length, end.is_some()),
        }
    }

    // Returns whether the mark of this line may be one here.
    fn may_mark(&self, line: &[u8]) -> bool {
        if is_end(line) {
            self.has_open(name_of(line))
        } else {
            self.groups.len() < MOST_DEPTH
        }
    }

    // Returns whether a group of this name is open.
    fn has_open(&self, name: Name<'_>) -> bool {
        for group in &self.groups {
            if group.has(name) {
                return true;
            }
        }
        false
    }

    // Reads more, after the bytes that were not handed out.
    fn refill(&mut self) -> io::Result<()> {
        let mut bytes = [0; BYTES];
        let count = self.inner.read(&mut bytes)?;
        match bytes.get(..count) {
            Some(read) if count > 0 => Ok(self.keep(read)?),
            _ => {
                self.has_ended = true;
                Ok(())
            }
        }
    }

    fn keep(&mut self, bytes: &[u8]) -> Result<(), AllocError> {
        let mut kept = fallible_alloc::copied(self.alloc, self.rest())?;
        fallible_alloc::extend(&mut kept, bytes)?;
        self.kept = kept;
        self.at = 0;
        Ok(())
    }
}

impl<R: Read> Read for Sections<R> {
    fn read(&mut self, buf: &mut [u8]) -> io::Result<usize> {
        if !self.is_on {
            return self.inner.read(buf);
        }
        if buf.is_empty() {
            return Ok(0);
        }
        let mut count = self.read_line(buf)?;
        for _ in 0..BYTES {
            let Some(room) = buf.get_mut(count..) else {
                break;
            };
            if count == 0 || room.is_empty() || !self.has_line() {
                break;
            }
            let more = self.read_line(room)?;
            if more == 0 {
                break;
            }
            count = count.saturating_add(more);
        }
        Ok(count.min(buf.len()))
    }
}
// Returns whether a line feed ends it.
fn ends_line(line: &[u8]) -> bool {
    matches!(line, [.., b'\n'])
}
