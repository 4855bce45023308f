//! The judges of the fate of a segment.
#![tactic(auto)]

ghost use Rattle.std.specs.Prelude.{◌≡◌, ◌<◌, ◌≤◌, ℕ, Bool, IfOk, IsTrue, List, OnErr, Option, ◌∷◌, length, take};
ghost use Rattle.esc_frame.specs.Segments.{AreSegments, Segment as Shape, is_finished, joined_bytes};
ghost use Rattle.esc_segments.specs.Items.{IsItem};
ghost use Rattle.esc_account.specs.Leaving.{IsLeftOut, LeavesEnds};
ghost use Rattle.esc_account.specs.Passing.{IsPassedSequence, IsPassing};
ghost use Rattle.esc_account.specs.declared.verdict.Verdict.{Verdict};
ghost use Rattle.fallible_alloc.specs.Refusals.{Refused};

use crate::verdict::Verdict;
use esc_segments::Segment;
use std::alloc::{AllocError, Allocator};

/// Says the fate of a segment by itself: a [`PolicyJudge`](crate::PolicyJudge), or a rule of the
/// caller's own.
pub trait Judge<A: Allocator> {
    // the verdict on each segment, finished or not, after each character
    ghost rule: { Self → Option ℕ → Shape → Bool → Verdict };

    /// Judges this segment, which is the first of those that are left of a stream, and is written
    /// after `before`, if a character comes before it. About any other value of the type nothing is
    /// said but that the call returns. `AllocError` says that a request for memory was refused.
    fn verdict(&self, before: Option<char>, segment: Segment<'_>) -> Result<Verdict, AllocError>
        ensures given { (g : Shape) (gs : List Shape) → AreSegments (g ∷ gs)
            → IsItem segment.entry g (joined_bytes gs)
            → IfOk result (λ v. v ≡ rule self.now before g (is_finished g (joined_bytes gs))) }
        ensures refused { OnErr result (Refused A) };

    /// Counts the first bytes that pass by themselves: characters of text, 20 to 7F or well-formed
    /// UTF-8, and controls of C0 but carriage return and ESC. Returns also the character before the
    /// next text after them, if `before` comes before them. They are entered at once, without a
    /// verdict. The count may be too low, and is 0 by default, so that each byte has a verdict.
    fn passing(&self, before: Option<char>, _bytes: &[u8]) -> (usize, Option<char>)
        ensures few { result.0 ≤ length _bytes.now }
        ensures pass { IsPassing (rule self.now) before (take result.0 _bytes.now) result.1 }
    {
        (0, before)
    }

    /// Returns how many bytes at the beginning are a control sequence after `ESC [` without noise
    /// that is left out whatever character comes before it. It is entered at once, with no call
    /// for its verdict. The default is 0: a verdict for each.
    fn left_ahead(&self, _bytes: &[u8]) -> usize
        ensures few { result ≤ length _bytes.now }
        ensures left { 0 < result → IsLeftOut (rule self.now) (take result _bytes.now) }
    {
        0
    }

    /// Returns how many bytes at the beginning are a control sequence after `ESC [` without noise
    /// that passes whatever character comes before it. It is entered at once, with no call for its
    /// verdict. The default is 0: a verdict for each.
    fn passed_ahead(&self, _bytes: &[u8]) -> usize
        ensures few { result ≤ length _bytes.now }
        ensures passed { 0 < result
            → IsPassedSequence (rule self.now) (take result _bytes.now) }
    {
        0
    }

    /// Returns whether `ESC \` by itself is left out whatever character comes before it. The judge
    /// is then not asked about it, and one that ends a string goes the way of the string. The
    /// default is false.
    fn leaves_ends(&self) -> bool
        ensures { IsTrue result → LeavesEnds (rule self.now) }
    {
        false
    }
}
