//! The right word that is nearest to a wrong one.

use crate::table::Known;

// A word is not near from so many edits on.
const FAR: usize = 3;

/// The right word that is nearest to a wrong one, of those that came so far.
#[derive(Clone, Copy)]
struct Nearest {
    edits: usize,
    word: Option<&'static str>,
}

// None: no word came.
const NONE: Nearest = Nearest {
    edits: FAR,
    word: None,
};

impl Nearest {
    // This one, or the right word if it is nearer.
    fn or(self, right: &'static str, wrong: &str) -> Nearest {
        let edits = edits(right, wrong);
        if edits >= self.edits {
            return self;
        }
        Nearest {
            edits,
            word: Some(right),
        }
    }
}

/// Returns the word among these that is nearest to the wrong one, the first of several, if one is
/// near: if at most two bytes of each, in one place, make the difference, or the wrong one is its
/// beginning.
pub fn nearest_word(words: &[&'static str], wrong: &str) -> Option<&'static str> {
    let mut nearest = NONE;
    for word in words {
        nearest = nearest.or(*word, wrong);
    }
    nearest.word
}

/// Returns the name of an option that is nearest to the wrong one, if one is near.
pub fn nearest_name(known: &[Known], wrong: &str) -> Option<&'static str> {
    let mut nearest = NONE;
    for option in known {
        nearest = nearest.or(option.name, wrong);
    }
    nearest.word
}

// Returns the number of bytes, in one place, that have to change to give the right word; one less
// than too many if the wrong one is a beginning of it.
fn edits(right: &str, wrong: &str) -> usize {
    if !wrong.is_empty() && right.starts_with(wrong) {
        return FAR - 1;
    }
    let (right, wrong) = without_start(right.as_bytes(), wrong.as_bytes());
    let (right, wrong) = without_end(right, wrong);
    right.len().max(wrong.len())
}

// Returns the rest of two texts without the bytes that both begin with.
fn without_start<'a>(mut one: &'a [u8], mut other: &'a [u8]) -> (&'a [u8], &'a [u8]) {
    while let (Some((a, more)), Some((b, others))) = (one.split_first(), other.split_first()) {
        if a != b {
            break;
        }
        one = more;
        other = others;
    }
    (one, other)
}

// Returns the rest of two texts without the bytes that both end with.
fn without_end<'a>(mut one: &'a [u8], mut other: &'a [u8]) -> (&'a [u8], &'a [u8]) {
    while let (Some((a, more)), Some((b, others))) = (one.split_last(), other.split_last()) {
        if a != b {
            break;
        }
        one = more;
        other = others;
    }
    (one, other)
}
