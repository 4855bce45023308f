//! The lines of a row.
use crate::fault::Fault;

/// A line: its word, how many times its text is repeated, and the text.
#[derive(Clone, Copy)]
pub struct Line<'a> {
    pub word: &'a str,
    pub times: usize,
    pub text: &'a str,
}

// The words that lines begin with.
const WORDS: &str = "row stream parts action more kept text unfinished first prefix gives begins \
part ends times limit keeps as-text as-color as-screen as-all joined shown dropped lines-kept \
lines-shown lines-dropped seed count holds input";

impl<'a> Line<'a> {
    /// Reads a line. None if it is empty or a comment.
    pub fn read(line: &'a str) -> Result<Option<Line<'a>>, Fault> {
        if line.is_empty() || line.starts_with('#') {
            return Ok(None);
        }
        let (head, text) = cut(line, ' ', "");
        let (word, count) = cut(head, '*', "1");
        if !is_word(word) {
            return Err(Fault("a line begins with no word of a row"));
        }
        Ok(Some(Line {
            word,
            times: number(count)?,
            text: text.trim_start(),
        }))
    }
}

// Returns the texts on either side of the first mark; without one the text and the other.
fn cut<'a>(text: &'a str, mark: char, other: &'a str) -> (&'a str, &'a str) {
    match text.split_once(mark) {
        Some(parts) => parts,
        None => (text, other),
    }
}

fn is_word(word: &str) -> bool {
    for known in WORDS.split(' ') {
        if known == word {
            return true;
        }
    }
    false
}

/// Returns the number that a text is.
pub fn number(text: &str) -> Result<usize, Fault> {
    match text.parse::<usize>() {
        Ok(number) => Ok(number),
        Err(_) => Err(Fault("a number cannot be read")),
    }
}
