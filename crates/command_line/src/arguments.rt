//! A program's words.

use std::alloc::{AllocError, Allocator};
use std::env::{Env, FillError};
use std::io;
use std::io::ErrorKind;

/// The message about a file whose name is no text, since the toolchain's library opens none.
pub const NO_TEXT: &str = "its name is not UTF-8: it can be read as standard input alone";

// The longest argument that Linux hands to a program, with its end.
const LONGEST: usize = 0x2_0001;

/// Returns the words of a program, which are its arguments after its name. A byte that is no part
/// of UTF-8 is U+0000 there, which no argument has, with the character of that number after it.
///
/// The error says that memory was refused, or that a word has more than 128 KiB.
pub fn program_words<E: Env, A: Allocator + Copy>(
    env: &E,
    alloc: A,
) -> io::Result<Vec<String<A>, A>> {
    let mut words = Vec::new(alloc);
    match add_words(env, alloc, &mut words) {
        Ok(()) => Ok(words),
        Err(error) => Err(error),
    }
}

// Adds the words of a program.
fn add_words<E: Env, A: Allocator + Copy>(
    env: &E,
    alloc: A,
    words: &mut Vec<String<A>, A>,
) -> io::Result<()> {
    let mut bytes = Vec::new(alloc);
    bytes.resize(LONGEST, 0)?;
    add_each(env, alloc, bytes.as_mut_slice(), words)
}

// Adds them one after another, each by way of these bytes.
fn add_each<E: Env, A: Allocator + Copy>(
    env: &E,
    alloc: A,
    bytes: &mut [u8],
    words: &mut Vec<String<A>, A>,
) -> io::Result<()> {
    for at in 1..usize::MAX {
        match env.arg(at, bytes) {
            Ok(n) => add_word(alloc, bytes.get(..n).unwrap_or(&[]), words)?,
            Err(FillError::NotPresent) => return Ok(()),
            Err(FillError::TooLong) => return Err(io::Error::from(ErrorKind::InvalidInput)),
        }
    }
    Ok(())
}

// Adds the word of these bytes.
fn add_word<A: Allocator + Copy>(
    alloc: A,
    bytes: &[u8],
    words: &mut Vec<String<A>, A>,
) -> Result<(), AllocError> {
    let mut word = String::new(alloc);
    push_bytes(&mut word, bytes)?;
    words.push(word)?;
    Ok(())
}

/// Returns whether a word is text: all of its bytes are UTF-8.
pub fn is_text(word: &str) -> bool {
    !word.contains('\0')
}

// Adds these bytes to a word.
fn push_bytes<A: Allocator>(word: &mut String<A>, bytes: &[u8]) -> Result<(), AllocError> {
    for chunk in bytes.utf8_chunks() {
        word.push_str(chunk.valid())?;
        push_invalid(word, chunk.invalid())?;
    }
    Ok(())
}

// Adds bytes that are no part of UTF-8 to a word.
fn push_invalid<A: Allocator>(word: &mut String<A>, bytes: &[u8]) -> Result<(), AllocError> {
    for byte in bytes {
        word.push('\0')?;
        word.push(char::from(*byte))?;
    }
    Ok(())
}
