//! Texts of the results of calls.
use escape_stream::{Action, ParseError, encode};
use std::alloc::{AllocError, Allocator, Global};
use std::fmt::{Debug, Display};

/// Returns the Debug text of a value.
pub fn shown<T: Debug + Drop>(alloc: Global, value: T) -> Result<String, AllocError> {
    format!(in alloc; "{value:?}")
}

/// Returns whether this is the Debug text of a value.
pub fn is_shown<T: Debug + Drop>(alloc: Global, value: T, wanted: &str) -> bool {
    is_text(&shown(alloc, value), wanted)
}

/// Returns whether a text was written, and is this one.
pub fn is_text<E: Drop>(written: &Result<String, E>, wanted: &str) -> bool {
    match written {
        Ok(text) => text.as_str() == wanted,
        Err(_) => false,
    }
}

/// Returns the text that `encode` writes for these actions, or the Debug text of the error.
pub fn encoded<A: Allocator + Copy>(
    alloc: Global,
    heap: A,
    actions: Result<Vec<Action<A>, A>, ParseError>,
) -> Result<String, AllocError> {
    match actions {
        Ok(actions) => text_of(alloc, encode(heap, &actions)),
        Err(error) => shown(alloc, error),
    }
}

// Returns a text, or the Debug text of the error.
fn text_of<A: Allocator, E: Debug + Drop>(
    alloc: Global,
    text: Result<String<A>, E>,
) -> Result<String, AllocError> {
    match text {
        Ok(text) => String::from_str(alloc, text.as_str()),
        Err(error) => format!(in alloc; "Err({error:?})"),
    }
}

/// Returns the text that a call wrote that ended so, in this form: after an error nothing is to be
/// written.
pub fn written<E: Debug + Drop>(
    alloc: Global,
    ending: Result<(), E>,
    bytes: Vec<u8>,
) -> Result<String, AllocError> {
    match (ending, String::from_utf8(bytes)) {
        (Ok(()), Ok(text)) => Ok(text),
        (Err(error), Ok(text)) => format!(in alloc; "Err({error:?}){text}"),
        (_, Err(_)) => String::from_str(alloc, "no UTF-8"),
    }
}

// The text of a terminator.
const TERMINATOR: &[u8] = b"\x1b\\";

/// Returns whether the Display texts of these items are this text, but for string terminators.
pub fn is_displayed<T: Display + Drop>(
    alloc: Global,
    items: Result<Vec<T>, ParseError>,
    text: &str,
) -> bool {
    match items {
        Ok(items) => are_displayed(alloc, &items, text),
        Err(_) => false,
    }
}

fn are_displayed<T: Display>(alloc: Global, items: &[T], text: &str) -> bool {
    let mut rest = Some(text.as_bytes());
    for item in items {
        rest = match format!(in alloc; "{item}") {
            Ok(shown) => skip(rest, shown.as_bytes()),
            Err(_) => None,
        };
    }
    match rest {
        Some(rest) => rest.is_empty() || rest == TERMINATOR,
        None => false,
    }
}

// Returns the rest after the text of an item, before which a terminator may come. A terminator may
// be left out.
fn skip<'a>(text: Option<&'a [u8]>, shown: &[u8]) -> Option<&'a [u8]> {
    let text = text?;
    if let Some(after) = text.strip_prefix(shown) {
        return Some(after);
    }
    if shown == TERMINATOR {
        return Some(text);
    }
    text.strip_prefix(TERMINATOR)?.strip_prefix(shown)
}

/// Returns the Debug text of a list of a command, and its Display text.
pub fn both<T: Debug + Display + Drop>(
    alloc: Global,
    command: Result<T, AllocError>,
) -> Result<String, AllocError> {
    match command {
        Ok(command) => { format!(in alloc; "Ok([OperatingSystemCommand({command:?})]) {command}") }
        Err(error) => Err(error),
    }
}
