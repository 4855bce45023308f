//! Commands of iTerm2 with a file, in one command or in more.

use crate::commands::{Command, Loss, has_key, is_plain, shown, unread};
use crate::picture::Picture;
use esc_iterm::ITermFileData;
use esc_values::base64_text::read_base64;
use memchr::memchr;
use std::alloc::{AllocError, Global};

/// The first bytes of a command of iTerm2, after its opener.
pub(crate) const PROPRIETARY: &[u8] = b"1337;";

// The beginning of one with a file after that, and the words that begin, go on with and end a file
// that comes in more commands.
const FILE: &[u8] = b"File=";

const BEGIN: &[u8] = b"MultipartFile=";

const PART: &[u8] = b"FilePart=";

const END: &[u8] = b"FileEnd";

/// A file that is unfinished: its name, and the part of its content in base64 so far.
#[derive(Drop)]
pub(crate) struct Parts {
    name: String,
    text: Vec<u8>,
}

/// Returns whether a command of iTerm2 with this text after its opener has a file or a part of one.
pub(crate) fn begins_file(text: &[u8]) -> bool {
    match after(text, PROPRIETARY) {
        Some(text) => {
            text.starts_with(FILE)
                || text.starts_with(BEGIN)
                || text.starts_with(PART)
                || text.starts_with(END)
        }
        None => false,
    }
}

/// Returns whether it may have one, if this is its beginning.
pub(crate) fn may_begin_file(text: &[u8]) -> bool {
    match after(text, PROPRIETARY) {
        Some(text) => {
            FILE.starts_with(text)
                || BEGIN.starts_with(text)
                || PART.starts_with(text)
                || END.starts_with(text)
        }
        None => PROPRIETARY.starts_with(text),
    }
}

/// Returns whether a command of iTerm2 shows a file, and is none to save, or is a part of one that
/// does: the keys before the first `:` are in this much of it.
pub(crate) fn shows_file(text: &[u8], is_part: bool) -> bool {
    let text = after(text, PROPRIETARY).unwrap_or(b"");
    match (after(text, FILE), after(text, BEGIN)) {
        (Some(keys), _) => is_shown(keys),
        (None, Some(keys)) => is_shown(keys),
        (None, None) => is_part && text.starts_with(PART),
    }
}

// Returns whether a file of these keys is shown.
fn is_shown(keys: &[u8]) -> bool {
    has_key(keys, b':', b';', b"inline=1")
}

/// Returns whether a command of iTerm2 with this text between its number and its end goes on with a
/// file that is unfinished, or ends it.
pub(crate) fn continues_file(text: &[u8]) -> bool {
    text.starts_with(PART) || text == END
}

/// Returns the kind of a command of iTerm2 with this text between its number and its end, if this
/// file is unfinished. Parts of it come in more commands, up to one that ends it.
pub(crate) fn file_command(
    alloc: Global,
    unfinished: &mut Option<Parts>,
    limit: usize,
    text: &[u8],
) -> Result<Command, AllocError> {
    let before = unfinished.take();
    if !is_plain(text) {
        return Ok(Command::Other);
    }
    if text == END {
        return finished(alloc, before);
    }
    match (after(text, BEGIN), after(text, PART), before) {
        (Some(keys), _, _) => begin(alloc, unfinished, keys),
        (None, Some(part), Some(file)) => take_part(unfinished, limit, file, part),
        (None, _, _) => whole(alloc, text),
    }
}

// Returns the rest after this, if a text begins with it.
fn after<'t>(text: &'t [u8], first: &'static [u8]) -> Option<&'t [u8]> {
    if text.starts_with(first) {
        text.get(first.len()..)
    } else {
        None
    }
}

// Returns the command that has all of a file.
fn whole(alloc: Global, text: &[u8]) -> Result<Command, AllocError> {
    match parsed(alloc, text)? {
        Some(file) if file.inline => {
            let name = name_of(alloc, &file)?;
            let bytes = fallible_alloc::copied(alloc, file.content.as_slice())?;
            Ok(shown(Picture::of(bytes, name)))
        }
        Some(_) => Ok(Command::Other),
        None => Ok(unread(is_shown(after(text, FILE).unwrap_or(b"")))),
    }
}

// Returns the command that begins a file, of these keys.
fn begin(
    alloc: Global,
    unfinished: &mut Option<Parts>,
    keys: &[u8],
) -> Result<Command, AllocError> {
    let mut text = fallible_alloc::copied(alloc, FILE)?;
    fallible_alloc::extend(&mut text, keys)?;
    fallible_alloc::extend(&mut text, b":")?;
    match parsed(alloc, &text)? {
        Some(file) if file.inline => {
            let name = name_of(alloc, &file)?;
            *unfinished = Some(Parts {
                name,
                text: Vec::new(alloc),
            });
            Ok(Command::Part)
        }
        Some(_) => Ok(Command::Other),
        None => Ok(unread(is_shown(keys))),
    }
}

// Adds the part of a file that a command has.
fn take_part(
    unfinished: &mut Option<Parts>,
    limit: usize,
    mut file: Parts,
    part: &[u8],
) -> Result<Command, AllocError> {
    if limit.saturating_sub(file.text.len()) < part.len() {
        return Ok(Command::Lost(Loss::Large));
    }
    fallible_alloc::extend(&mut file.text, part)?;
    *unfinished = Some(file);
    Ok(Command::Part)
}

// Returns the file, which is all there.
fn finished(alloc: Global, file: Option<Parts>) -> Result<Command, AllocError> {
    let Some(Parts { name, text }) = file else {
        return Ok(Command::Other);
    };
    match read_base64(alloc, &text)? {
        Some(bytes) => Ok(shown(Picture::of(bytes, name))),
        None => Ok(Command::Lost(Loss::Other)),
    }
}

// Returns the file of a command, if it can be read.
fn parsed(alloc: Global, text: &[u8]) -> Result<Option<ITermFileData>, AllocError> {
    let mut parts = Vec::new(alloc);
    let mut rest = text;
    while let Some(at) = memchr(b';', rest) {
        fallible_alloc::extend(&mut parts, &[&rest[..at]])?;
        rest = &rest[at + 1..];
    }
    fallible_alloc::extend(&mut parts, &[rest])?;
    ITermFileData::parse(alloc, &parts)
}

// Returns the name of a file, which may be empty.
fn name_of(alloc: Global, file: &ITermFileData) -> Result<String, AllocError> {
    match &file.name {
        Some(name) => fallible_alloc::text(alloc, name.as_str()),
        None => Ok(String::new(alloc)),
    }
}
