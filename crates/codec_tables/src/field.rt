//! The bytes that the fields of a row stand for.
use std::alloc::{AllocError, Global};

/// Returns the bytes of a field: `\xNN` is a byte, and any other character is itself, in UTF-8.
pub fn unescaped(alloc: Global, field: &str) -> Result<Vec<u8>, AllocError> {
    let mut bytes = Vec::new(alloc);
    match add(&mut bytes, field) {
        Ok(()) => Ok(bytes),
        Err(error) => Err(error),
    }
}

/// Returns the bytes of a field, in which `{TEXT*N}` is the text so many times.
pub fn expanded(alloc: Global, field: &str) -> Result<Vec<u8>, AllocError> {
    let mut bytes = Vec::new(alloc);
    match add_expanded(alloc, &mut bytes, field) {
        Ok(()) => Ok(bytes),
        Err(error) => Err(error),
    }
}

// A text that is repeated, and the texts before and after it.
#[derive(Clone, Copy)]
struct Repeated<'a> {
    before: &'a str,
    text: &'a str,
    times: usize,
    after: &'a str,
}

// Returns the repeated text in a field, if there is one.
fn repetition(field: &str) -> Option<Repeated<'_>> {
    let (before, rest) = field.split_once('{')?;
    let (text, rest) = rest.rsplit_once('*')?;
    let (times, after) = rest.split_once('}')?;
    match times.parse::<usize>() {
        Ok(times) => Some(Repeated {
            before,
            text,
            times,
            after,
        }),
        Err(_) => None,
    }
}

fn add_expanded(alloc: Global, bytes: &mut Vec<u8>, field: &str) -> Result<(), AllocError> {
    let Some(repeated) = repetition(field) else {
        return add(bytes, field);
    };
    add(bytes, repeated.before)?;
    let text = unescaped(alloc, repeated.text)?;
    for _ in 0..repeated.times {
        bytes.extend_from_slice(&text)?;
    }
    add(bytes, repeated.after)
}

// Appends the bytes of a text.
fn add(bytes: &mut Vec<u8>, text: &str) -> Result<(), AllocError> {
    let (literal, escapes) = text.split_once("\\x").unwrap_or((text, ""));
    bytes.extend_from_slice(literal.as_bytes())?;
    for input_chunk in escapes.split("\\x") {
        add_escape(bytes, input_chunk.as_bytes())?;
    }
    Ok(())
}

// Appends the byte of the two hexadecimal digits that a chunk begins with, and the rest.
fn add_escape(bytes: &mut Vec<u8>, input_chunk: &[u8]) -> Result<(), AllocError> {
    let [high, low, rest @ ..] = input_chunk else {
        return Ok(());
    };
    bytes.push(digit(*high) << 4 | digit(*low))?;
    bytes.extend_from_slice(rest)
}

// Returns the value of a hexadecimal digit.
fn digit(byte: u8) -> u8 {
    match byte {
        b'0'..=b'9' => byte - b'0',
        b'a'..=b'f' => byte - b'a' + 10,
        _ => 0,
    }
}
