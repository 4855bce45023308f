//! Links of many parameters. This ends in time only if the work for a parameter grows with the
//! logarithm of their number.
use crate::texts::is_text;
use escape_stream::{encode, parse_chunks};
use std::alloc::{AllocError, Global};

const KEYS: usize = 100_000;

// Returns a link of as many parameters as `KEYS`. Their keys are numbers of six digits, which rise,
// or fall if `falls` is true.
fn link_of_keys(alloc: Global, falls: bool) -> Result<String, AllocError> {
    let mut stream = String::new(alloc);
    stream.push_str("\x1b]8;")?;
    for i in 0..KEYS {
        let number = if falls { 199_999 - i } else { 100_000 + i };
        let separator = if i == 0 { "" } else { ":" };
        write!(stream, "{separator}{number}=1")?;
    }
    stream.push_str(";u\x1b\\")?;
    Ok(stream)
}

// Returns whether the text that is written for the stream is this text.
fn is_written(alloc: Global, stream: &str, text: &str) -> bool {
    match parse_chunks(alloc, &[stream.as_bytes()]) {
        Ok(actions) => is_text(&encode(alloc, &actions), text),
        Err(_) => false,
    }
}

/// Returns whether links of rising and of falling keys are written with rising ones.
pub fn are_sorted(alloc: Global) -> bool {
    match (link_of_keys(alloc, true), link_of_keys(alloc, false)) {
        (Ok(falling), Ok(rising)) => {
            is_written(alloc, falling.as_str(), rising.as_str())
                && is_written(alloc, rising.as_str(), rising.as_str())
        }
        _ => false,
    }
}
