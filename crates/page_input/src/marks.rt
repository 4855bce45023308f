//! The marks of groups of lines in logs.

use crate::stamp::{Stamp, stamp_of};
use crate::titles::title_of;
use memchr::memchr;
use std::alloc::{AllocError, Global};

const BYTE_ORDER_MARK: &[u8] = b"\xef\xbb\xbf";

/// The beginning or the end of a group of lines.
#[derive(Drop)]
pub enum Mark {
    /// A group begins.
    Begin {
        /// Its title, as text.
        title: String,
        /// Says whether it is closed at first.
        is_closed: bool,
    },
    /// The last one that began ends.
    End,
}

// The mark that a line begins with.
#[derive(Clone, Copy)]
enum Found<'a> {
    // a group with this title, which is closed at first or not; if it has no title, with this name
    Begin(&'a [u8], Name<'a>, bool),
    // the end of one with this name
    End(Name<'a>),
}

/// The name of a group.
#[derive(Clone, Copy)]
pub(crate) enum Name<'a> {
    /// Any of GitHub.
    Workflow,
    /// A section of GitLab, with its own.
    Section(&'a [u8]),
}

impl<'a> Name<'a> {
    /// Returns its text.
    pub fn text(self) -> &'a [u8] {
        match self {
            Name::Workflow => b"group",
            Name::Section(name) => name,
        }
    }

    /// Returns whether it is of a section.
    pub fn is_section(self) -> bool {
        match self {
            Name::Workflow => false,
            Name::Section(_) => true,
        }
    }
}

/// Returns the number of bytes of a line that are a mark, if it begins with one: all but the text
/// after the mark of GitLab that ends a section, or begins one and has a mark after it.
pub(crate) fn mark_length(line: &[u8]) -> Option<usize> {
    let (_, rest) = read_mark(line)?;
    Some(line.len().saturating_sub(rest.len()).max(1))
}

/// Returns whether the mark that a line begins with ends a group.
pub(crate) fn is_end(line: &[u8]) -> bool {
    matches!(read_mark(line), Some((Found::End(_), _)))
}

/// Returns the name of the group that the mark begins or ends that a line begins with.
pub(crate) fn name_of(line: &[u8]) -> Name<'_> {
    match read_mark(line) {
        Some((Found::Begin(_, name, _), _)) => name,
        Some((Found::End(name), _)) => name,
        None => Name::Workflow,
    }
}

/// Returns the mark that a line begins with. The error is that memory was refused.
pub(crate) fn mark_of(alloc: Global, line: &[u8]) -> Result<Mark, AllocError> {
    let Some((Found::Begin(title, name, is_closed), _)) = read_mark(line) else {
        return Ok(Mark::End);
    };
    let mut text = title_of(alloc, title)?;
    if text.is_empty() {
        text = title_of(alloc, name.text())?;
    }
    Ok(Mark::Begin {
        title: text,
        is_closed,
    })
}

// Returns the mark that a line begins with, and the rest.
fn read_mark(line: &[u8]) -> Option<(Found<'_>, &[u8])> {
    let text = after_time(line);
    match text {
        [b'#', b'#', b'[', rest @ ..] => workflow(rest, b"group]", b"endgroup]"),
        [b':', b':', rest @ ..] => workflow(rest, b"group::", b"endgroup::"),
        [0x1b, ..] | [b's', ..] => section(text),
        _ => None,
    }
}

// Returns the rest after the time that a line begins with, or the line; after a byte order mark
// too. Where renditions end before a time, as in a recording with times, they may go on after it.
fn after_time(line: &[u8]) -> &[u8] {
    let text = after(line, BYTE_ORDER_MARK).unwrap_or(line);
    let plain = after_renditions(text);
    match after_stamp(plain) {
        Some(rest) if plain.len() < text.len() => after_renditions(rest),
        Some(rest) => rest,
        None => text,
    }
}

// Returns the rest after a time and a space.
fn after_stamp(text: &[u8]) -> Option<&[u8]> {
    match stamp_of(text) {
        Stamp::Ends(length) => text.get(length..),
        Stamp::More | Stamp::No => None,
    }
}

// Returns the rest after the renditions that come first.
fn after_renditions(text: &[u8]) -> &[u8] {
    let mut rest = text;
    for _ in 0..text.len() {
        match after_rendition(rest) {
            Some(more) => rest = more,
            None => break,
        }
    }
    rest
}

// Returns the rest after a control sequence of renditions.
fn after_rendition(text: &[u8]) -> Option<&[u8]> {
    let body = after(text, b"\x1b[")?;
    let mut length = 0usize;
    for byte in body {
        if !byte.is_ascii_digit() && *byte != b';' && *byte != b':' {
            break;
        }
        length = length.saturating_add(1);
    }
    after(body.get(length..)?, b"m")
}

// Returns the mark of GitHub with this text after its beginning.
fn workflow<'a>(
    text: &'a [u8],
    begin: &'static [u8],
    end: &'static [u8],
) -> Option<(Found<'a>, &'a [u8])> {
    if let Some(title) = after(text, begin) {
        return Some((Found::Begin(title, Name::Workflow, true), b""));
    }
    after(text, end)?;
    Some((Found::End(Name::Workflow), b""))
}

// Returns the mark of GitLab: `section_start:TIME:NAME`, or `section_end`, maybe with options in
// square brackets, a carriage return and `ESC [0K`; and the title, up to the end of the line.
fn section(line: &[u8]) -> Option<(Found<'_>, &[u8])> {
    let text = after_erasing(line);
    if let Some(rest) = after(text, b"section_start:") {
        let (name, is_closed, rest) = named(rest)?;
        let name = Name::Section(name);
        if is_section(rest) {
            return Some((Found::Begin(b"", name, is_closed), rest));
        }
        return Some((Found::Begin(rest, name, is_closed), b""));
    }
    let (name, _, rest) = named(after(text, b"section_end:")?)?;
    Some((Found::End(Name::Section(name)), without_end(rest)))
}

// Returns whether such a mark comes.
fn is_section(line: &[u8]) -> bool {
    let text = after_erasing(line);
    after(text, b"section_start:").is_some() || after(text, b"section_end:").is_some()
}

// Returns the rest after the name of a section, and whether it is closed at first.
fn named(text: &[u8]) -> Option<(&[u8], bool, &[u8])> {
    let colon = memchr(b':', text)?;
    let (time, rest) = text.split_at(colon.min(text.len()));
    for byte in time {
        if !byte.is_ascii_digit() {
            return None;
        }
    }
    let rest = rest.get(1..)?;
    let end = memchr(b'\r', rest)?;
    let (name, rest) = rest.split_at(end.min(rest.len()));
    let (name, options) = name.split_at(memchr(b'[', name).unwrap_or(name.len()).min(name.len()));
    Some((
        name,
        options.starts_with(b"[collapsed=true"),
        after_erasing(rest.get(1..)?),
    ))
}

// Returns the rest after sequences that erase the line, `ESC [0K`.
fn after_erasing(text: &[u8]) -> &[u8] {
    let mut rest = text;
    while let [0x1b, b'[', b'0', b'K', more @ ..] = rest {
        rest = more;
    }
    rest
}

// Returns the rest after this in a text.
fn after<'a>(text: &'a [u8], start: &'static [u8]) -> Option<&'a [u8]> {
    if text.starts_with(start) {
        text.get(start.len()..)
    } else {
        None
    }
}

// Returns the rest after the end of a line that a text begins with, or the text.
fn without_end(text: &[u8]) -> &[u8] {
    match text {
        [b'\r', b'\n', rest @ ..] | [b'\n', rest @ ..] => rest,
        _ => text,
    }
}
