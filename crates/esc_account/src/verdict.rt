//! The fate of a segment, and the character that is written last after it.

use crate::fate::Fate;

/// The fate of a segment, and the character that is written last after it.
#[derive(Clone, Copy, PartialEq, Eq, Debug)]
pub struct Verdict {
    /// The fate of its bytes.
    pub fate: Fate,
    /// The character before the next text, if there is one: a variation selector or a joiner may
    /// belong to it.
    pub before: Option<char>,
}
