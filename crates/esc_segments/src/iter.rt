//! The iterator over segments.
#![tactic(auto)]

ghost use Rattle.std.specs.Prelude.{◌≡◌, length};

use crate::first::first;
use crate::item::Segment;
use esc_frame::laws;
use std::iter::FusedIterator;

/// The segments of some bytes, in order: the segments of the stream's one cut. It takes no memory,
/// and looks at each byte of a segment once; a segment that the bytes leave unfinished comes last.
#[derive(Clone, Copy)]
pub struct Segments<'a> {
    rest: &'a [u8],
}

impl<'a> Segments<'a> {
    ghost use Rattle.esc_segments.specs.Items.{left_bytes};

    /// Returns the segments of the bytes.
    pub fn new(bytes: &'a [u8]) -> Self
        ensures { left_bytes result ≡ bytes.now }
    {
        Segments { rest: bytes }
    }
}

impl<'a> Iterator for Segments<'a> {
    ghost use Rattle.std.specs.Iterator.{at_most};
    ghost use Rattle.esc_segments.specs.Items.{left_bytes, GivesFirst};

    type Item = Segment<'a>;

    ghost next_gives = { GivesFirst };

    ghost remaining = { λ s. at_most (length (left_bytes s)) };

    fn next(&mut self) -> Option<Segment<'a>> {
        laws::one_cut();
        laws::has_cut();
        if self.rest.is_empty() {
            return None;
        }
        let found = first(self.rest);
        let (bytes, rest) = self.rest.split_at(found.len);
        self.rest = rest;
        Some(Segment {
            kind: found.kind,
            bytes,
            finished: found.finished,
        })
    }
}

impl<'a> FusedIterator for Segments<'a> {}
