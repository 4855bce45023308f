//! The rows of a table of the bytes that did not pass.
#![tactic(auto)]

use crate::fate::Fate;
use crate::place::Place;

/// The segments of a stream that have one fate and one name.
#[derive(Clone, Copy, Debug)]
pub struct Row<N> {
    /// The fate of the segments.
    pub fate: Fate,
    /// The name of the segments.
    pub name: N,
    /// How many segments there are, but for the terminators of strings.
    pub count: u64,
    /// How many bytes they have, with the terminators.
    pub bytes: u64,
    /// The place of the first of them.
    pub first: Place,
}
