//! Laws of visible text and of spans.
ghost use Rattle.std.specs.Prelude.{◌≡◌, ◌++◌, ◌↔◌, ℕ, Bool, List, Option, Some, false, true};
ghost use Rattle.std.specs.List.{flat_map, list_all, list_any};
ghost use Rattle.unicode_visibility.specs.Characters.{is_shown};
ghost use Rattle.esc_values.specs.Clear.{IsTextOf, is_clear};
ghost use Rattle.esc_actions.specs.Meaning.{meaning_within};
ghost use Rattle.esc_actions.specs.Values.{Value, print};
ghost use Rattle.esc_filter.specs.Passing.{passed_text};
ghost use Rattle.esc_frame.specs.Stream.{IsAtGround};
ghost use Rattle.caret_notation.specs.Spans.{is_at_ground, spans, rest};
ghost use Rattle.caret_notation.specs.ReadBack.{is_byte, read_back};
ghost use Rattle.caret_notation.specs.Revealed.{is_kept, revealed_whole, revealed_whole_as};
ghost use Rattle.caret_notation.specs.Spelled.{is_spelled};
ghost use Rattle.caret_notation.specs.Visible.{is_mark, visible_text};
ghost use Rattle.caret_notation.specs.declared.marking.Marking.{Marking as Way};

use crate::marking::Marking;
use std::alloc::Allocator;

/// The visible text of bytes can be read back as these bytes: no two streams have the same.
#[tactic(auto, using(crate::proofs::VisibleText::ReadsBackAsBytes::reads_back))]
pub fn read_back()
    ensures { (s : List ℕ) → list_all is_byte s ≡ true → read_back (visible_text s) ≡ s }
{}

/// It is UTF-8 of characters that show as themselves: it has no control, no line feed, and nothing
/// that is invisible or changes the direction of text.
#[tactic(auto, using(crate::proofs::VisibleText::VisibleShowsItself::shows_characters))]
pub fn shows_characters()
    ensures { (s : List ℕ) → list_all is_byte s ≡ true → IsTextOf is_shown (visible_text s) }
{}

/// A span ends at a place with no segment of the stream unfinished.
#[tactic(auto, using(crate::proofs::Spans::SpansMeanStream::ground_both))]
pub fn spans_end_at_ground()
    ensures { (s : List ℕ) → (is_at_ground s ≡ true) ↔ IsAtGround s }
{}

/// The spans of a stream, one after another, and its rest are the stream.
#[tactic(auto, using(crate::proofs::Spans::SpansMeanStream::together))]
pub fn spans_are_all()
    ensures { (by_lines : Bool) (s : List ℕ)
        → flat_map (λ p. p) (spans by_lines s) ++ rest by_lines s ≡ s }
{}

/// A stream means the values of its spans, each a stream of its own, and of its rest. So showing
/// one span does not change the meaning of another.
#[tactic(auto, using(crate::proofs::Spans::SpansMeanStream::means_spans))]
pub fn spans_are_streams<A: Allocator>()
    ensures { (limit : Option ℕ) (s : List ℕ) → meaning_within {A = A} limit s
        ≡ flat_map (meaning_within limit) (spans false s) ++ meaning_within limit (rest false s) }
{}

/// The revealed text of a stream that has ended, if marks are shown, can be read back as the
/// stream, byte for byte, whatever is admitted and however it is cut.
#[tactic(auto, using(crate::proofs::Streams::RevealedReadsBack::escaped_reads))]
pub fn escaped_reads_back<A: Allocator>()
    ensures { (by_lines : Bool) (limit : ℕ) (admits : Value A → Bool) (s : List ℕ)
        → list_all is_byte s ≡ true
        → read_back (revealed_whole_as Marking.Escaped by_lines limit admits s) ≡ s }
{}

/// If they are not, the same for a stream that has no `^` and no `<`.
#[tactic(auto, using(crate::proofs::Streams::RevealedReadsBack::unmarked_reads))]
pub fn unmarked_reads_back<A: Allocator>()
    ensures { (by_lines : Bool) (limit : ℕ) (admits : Value A → Bool) (s : List ℕ)
        → list_all is_byte s ≡ true → list_any is_mark s ≡ false
        → read_back (revealed_whole by_lines limit admits s) ≡ s }
{}

/// All bytes of a span that stays are in the text that a filter writes for it: that is the span,
/// or the span with another end of its string, or another spelling of a control sequence.
#[tactic(auto, using(crate::proofs::Filters::KeptIsWritten::kept_written))]
pub fn kept_is_written<A: Allocator>()
    ensures { (m : Way) (limit : ℕ) (admits : Value A → Bool) (p : List ℕ)
        → is_kept m limit admits p ≡ true
        → is_spelled p (passed_text (Some limit) admits p) ≡ true }
{}

/// Visible text is written as it is by a filter of each policy that admits clear characters.
#[tactic(auto, using(crate::proofs::VisibleText::VisiblePassesFilters::shown_written))]
pub fn shown_is_written<A: Allocator>()
    ensures { (limit : ℕ) (admits : Value A → Bool) (s : List ℕ) → list_all is_byte s ≡ true
        → ((c : ℕ) → is_clear c ≡ true → admits (print c) ≡ true)
        → passed_text (Some limit) admits (visible_text s) ≡ visible_text s }
{}
