//! This module says how far a segment goes.
#![tactic(auto)]

ghost use Rattle.std.specs.Prelude.{◌≡◌, ◌+◌, ◌<◌, ◌^◌, true, false};
ghost use Rattle.esc_segments.specs.Places.{found_further, found_at};

use crate::kind::SegmentKind;

/// A segment that has been found, or the part of it after its opener: its kind, the number of its
/// bytes, and whether it is finished.
#[derive(Clone, Copy)]
pub struct Found {
    pub kind: SegmentKind,
    pub len: usize,
    pub finished: bool,
}

impl Found {
    /// Returns one that is finished after so many bytes.
    #[inline(always)]
    pub fn finished(kind: SegmentKind, len: usize) -> Found
        ensures { result ≡ found_at kind len true }
    {
        Found {
            kind,
            len,
            finished: true,
        }
    }

    /// Returns one that takes all bytes, and may go on.
    #[inline(always)]
    pub fn unfinished(kind: SegmentKind, len: usize) -> Found
        ensures { result ≡ found_at kind len false }
    {
        Found {
            kind,
            len,
            finished: false,
        }
    }

    /// Returns the segment with so many bytes more before it.
    #[inline(always)]
    pub fn later(self, count: usize) -> Found
        requires { count + self.len < 2 ^ 64 }
        ensures { result ≡ found_further count self }
    {
        Found {
            kind: self.kind,
            len: count + self.len,
            finished: self.finished,
        }
    }
}
