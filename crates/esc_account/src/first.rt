//! The first parts of some bytes.
#![tactic(auto)]

ghost use Rattle.std.specs.Prelude.{◌≡◌, ◌&&◌, ◌<◌, ◌≤◌, IfSome, List, MatchOption, None, [], drop, false, length, true};
ghost use Rattle.esc_frame.specs.Segments.{Segment as Shape, IsCut};
ghost use Rattle.esc_segments.specs.Items.{IsHead};
ghost use Rattle.esc_account.specs.Finished.{IsLast};
ghost use Rattle.esc_account.specs.LineEnds.{ends_so, is_return_feed};

use crate::at_once::segment_at_once;
use esc_frame::laws;
use esc_segments::{Segment, Segments};

/// Returns the first segment of the bytes, or none if there are no bytes.
pub(crate) fn first_segment(bytes: &[u8]) -> Option<Segment<'_>>
    ensures first { (gs : List Shape) → IsCut bytes.now gs → MatchOption result (gs ≡ [])
        (λ x. IsHead bytes.now gs x (drop (length x.bytes.now) bytes.now)) }
    ensures some { IfSome result (λ x. (0 < length x.bytes.now)
        × (length x.bytes.now ≤ length bytes.now)) }
{
    laws::has_cut();
    laws::one_cut();
    match segment_at_once(bytes) {
        Some(segment) => Some(segment),
        None => any_segment(bytes),
    }
}

// The same, however it is spelled.
fn any_segment(bytes: &[u8]) -> Option<Segment<'_>>
    ensures first { (gs : List Shape) → IsCut bytes.now gs → MatchOption result (gs ≡ [])
        (λ x. IsHead bytes.now gs x (drop (length x.bytes.now) bytes.now)) }
    ensures some { IfSome result (λ x. (0 < length x.bytes.now)
        × (length x.bytes.now ≤ length bytes.now)) }
{
    laws::has_cut();
    let mut segments = Segments::new(bytes);
    segments.next()
}

/// The same, but none also if the first segment is unfinished, or if `ends` and the bytes are a
/// carriage return and a line feed.
pub(crate) fn segment_ahead(bytes: &[u8], ends: bool) -> Option<Segment<'_>>
    ensures first { (gs : List Shape) → IsCut bytes.now gs → IfSome result
        (λ x. IsHead bytes.now gs x (drop (length x.bytes.now) bytes.now)) }
    ensures some { IfSome result (λ x. (0 < length x.bytes.now)
        × (length x.bytes.now ≤ length bytes.now)
        × (x.finished ≡ true) × ((ends && is_return_feed bytes.now) ≡ false)) }
    ensures none { result ≡ None → IsLast ends bytes.now }
{
    if is_end(ends, bytes) {
        return None;
    }
    match first_segment(bytes) {
        Some(segment) => if segment.finished {
            Some(segment)
        } else {
            None
        },
        None => None,
    }
}

/// Whether the bytes are the end of a line with a carriage return.
pub(crate) fn is_end(ends: bool, bytes: &[u8]) -> bool
    ensures { result ≡ (ends && is_return_feed bytes.now) }
{
    ends && is_return_feed(bytes)
}

/// Whether the bytes end in a carriage return and a line feed.
pub(crate) fn ends_so(bytes: &[u8]) -> bool
    ensures { result ≡ ends_so bytes.now }
{
    let end = bytes.len().saturating_sub(2);
    is_return_feed(&bytes[end..])
}

// Whether the bytes are a carriage return and a line feed.
fn is_return_feed(bytes: &[u8]) -> bool
    ensures { result ≡ is_return_feed bytes.now }
{
    bytes.len() == 2 && bytes[0] == 0x0d && bytes[1] == 0x0a
}

/// Returns the bytes after so many.
pub(crate) fn after(bytes: &[u8], count: usize) -> &[u8]
    requires { count ≤ length bytes.now }
    ensures { result.now ≡ drop count bytes.now }
{
    &bytes[count..]
}
