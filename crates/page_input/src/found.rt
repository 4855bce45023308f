//! The places of images in a stream.

use crate::commands::{header_length, shows_image};
use crate::files::{begins_file, may_begin_file, shows_file};
use crate::leads::{ESC, Lead, lead_of, terminator_length};
use esc_decode::Encoding;

const BEL: u8 = 0x07;

const CAN: u8 = 0x18;

const SUB: u8 = 0x1a;

// The most bytes of the parameters of a device control string, if it is an image.
const MOST_HEADER: usize = 64;

/// The content that a command may have: a file of iTerm2 or a part of one, an image of kitty, or
/// sixels.
#[derive(Clone, Copy, PartialEq, Eq)]
pub(crate) enum Kind {
    File,
    Image,
    Sixels,
}

/// The part that bytes begin with.
#[derive(Clone, Copy)]
pub(crate) enum Found {
    /// So many bytes of text.
    Text(usize),
    /// A command of so many bytes; the two places are after its opener and before its end.
    Command {
        kind: Kind,
        from: usize,
        to: usize,
        length: usize,
    },
    /// A command that is larger than the limit, from this place on: so many bytes of it.
    Large(Kind, usize, usize),
    /// It is not known yet.
    More,
}

// The string that begins after an opener.
#[derive(Clone, Copy)]
enum Begun {
    // the beginning of a command of this kind
    Command(Kind),
    // something else
    Other,
    // it is not known yet
    More,
}

/// Returns the part that bytes of a stream in this encoding begin with; nothing may follow them. So
/// many bytes of a command were searched for its end already: before these bytes it does not end.
pub(crate) fn found_in(
    bytes: &[u8],
    encoding: Encoding,
    limit: usize,
    seen: usize,
    has_ended: bool,
) -> (Found, usize) {
    let mut at = 0usize;
    for _ in 0..=bytes.len() {
        let rest = bytes.get(at..).unwrap_or(b"");
        if rest.is_empty() {
            break;
        }
        let (length, kind) = match lead_of(rest, encoding) {
            Lead::Text(length) => (length, None),
            Lead::Control(letter, length) => {
                match begun_by(letter, rest.get(length..).unwrap_or(b"")) {
                    Begun::Command(kind) => (length, Some(kind)),
                    Begun::More if !has_ended => return (text_or(at, Found::More), 0),
                    Begun::More | Begun::Other => (length, None),
                }
            }
            Lead::More if !has_ended => return (text_or(at, Found::More), 0),
            Lead::More => (rest.len(), None),
        };
        match kind {
            Some(_) if 0 < at => return (Found::Text(at), 0),
            Some(kind) => return command_in(bytes, kind, length, encoding, limit, seen, has_ended),
            None => at = at.saturating_add(length.max(1)),
        }
    }
    (text_or(bytes.len(), Found::More), 0)
}

// Returns so many bytes of text, or if there are none, this.
fn text_or(length: usize, other: Found) -> Found {
    if length == 0 {
        other
    } else {
        Found::Text(length)
    }
}

// Returns the string that begins after ESC and this letter.
fn begun_by(letter: u8, text: &[u8]) -> Begun {
    match letter {
        b']' if begins_file(text) => Begun::Command(Kind::File),
        b']' if may_begin_file(text) => Begun::More,
        b'_' => match text.first() {
            Some(b'G') => Begun::Command(Kind::Image),
            Some(_) => Begun::Other,
            None => Begun::More,
        },
        b'P' => {
            let length = header_length(text);
            match text.get(length) {
                Some(b'q') if length <= MOST_HEADER => Begun::Command(Kind::Sixels),
                None if length <= MOST_HEADER => Begun::More,
                _ => Begun::Other,
            }
        }
        _ => Begun::Other,
    }
}

// Returns a command of this kind, from this place on, if its end is there.
fn command_in(
    bytes: &[u8],
    kind: Kind,
    from: usize,
    encoding: Encoding,
    limit: usize,
    seen: usize,
    has_ended: bool,
) -> (Found, usize) {
    let to = end_of(bytes, kind, seen.max(from));
    if limit < to {
        return (Found::Large(kind, from, to), 0);
    }
    let rest = bytes.get(to..).unwrap_or(b"");
    let end = end_length(rest, kind, encoding);
    if 0 < end {
        let length = to.saturating_add(end);
        let found = Found::Command {
            kind,
            from,
            to,
            length,
        };
        return (found, 0);
    }
    let is_cut = rest.is_empty() || (rest.len() == 1 && terminator_length(rest, encoding) == 0);
    let may_end = match rest.first() {
        Some(byte) => *byte == ESC || 0x80 <= *byte,
        None => true,
    };
    if is_cut && may_end && !has_ended {
        (Found::More, to)
    } else {
        (Found::Text(to.max(1)), 0)
    }
}

// Returns the length of the end of a command that comes first; or 0.
fn end_length(bytes: &[u8], kind: Kind, encoding: Encoding) -> usize {
    match bytes.first() {
        Some(byte) if *byte == BEL && kind == Kind::File => 1,
        _ => terminator_length(bytes, encoding),
    }
}

// Returns the first place, from this one on, of a byte that is no part of a command of this kind: a
// control or a byte past ASCII; sixels may have controls that break nothing off.
fn end_of(bytes: &[u8], kind: Kind, from: usize) -> usize {
    let from = from.min(bytes.len());
    let mut at = from;
    for byte in &bytes[from..] {
        let is_part = match kind {
            Kind::File | Kind::Image => b' ' <= *byte && *byte <= b'~',
            Kind::Sixels => byte.is_ascii() && *byte != CAN && *byte != SUB && *byte != ESC,
        };
        if !is_part {
            return at;
        }
        at = at.saturating_add(1);
    }
    at
}

/// Returns whether a command of this kind with this beginning shows an image, if one of this kind
/// is unfinished or not.
pub(crate) fn shows(kind: Kind, text: &[u8], is_unfinished: bool) -> bool {
    match kind {
        Kind::File => shows_file(text, is_unfinished),
        Kind::Image => shows_image(text, is_unfinished),
        Kind::Sixels => true,
    }
}
