//! The bytes that an operating system command keeps of its text.
#![tactic(auto)]

ghost use Rattle.std.specs.Prelude.{◌≡◌, ◌<◌, ◌≤◌, ◌++◌, IfOk, List, OnErr, ℕ, drop, length, true};
ghost use Rattle.esc_frame.specs.Segments.{AreOscUnits, Ending, OscUnit, ending_bytes, text_bytes, text_of};
ghost use Rattle.esc_segments.specs.Parts.{IsLeft, is_over};
ghost use Rattle.esc_segments.specs.Places.{HasLead};
ghost use Rattle.fallible_alloc.specs.Refusals.{Refused};

use crate::sequence::{Ahead, sequence_ahead};
use std::alloc::{AllocError, Allocator};

// U+FFFD, in UTF-8.
const REPLACEMENT: [u8; 3] = [0xef, 0xbf, 0xbd];

/// Returns the bytes that are kept of a whole text: its bytes 20 to 7F, its well-formed sequences,
/// and U+FFFD for each broken one.
pub fn kept_text<A: Allocator>(alloc: A, text: &[u8]) -> Result<Vec<u8, A>, AllocError>
    ensures ok { (ps : List OscUnit) (e : Ending) (after : List ℕ)
        → text.now ≡ text_bytes ps ++ ending_bytes e → AreOscUnits ps (ending_bytes e ++ after)
        → is_over e ≡ true → IfOk result (λ v. v.items ≡ text_of ps) }
    ensures refused { OnErr result (Refused A) }
{
    let mut kept = Vec::new(alloc);
    let mut end = 0;
    while end < text.len() {
        end += keep_unit(&mut kept, &text[end..])?;
    }
    Ok(kept)
}

// Appends the bytes that are kept of the first unit, and returns its length.
fn keep_unit<A: Allocator>(kept: &mut Vec<u8, A>, text: &[u8]) -> Result<usize, AllocError>
    requires { 0 < length text.now }
    ensures kept { (after t : List ℕ) → IsLeft kept.old.items text.now after t
        → IfOk result (λ n. IsLeft kept.new.items (drop n text.now) after t) }
    ensures count { IfOk result (λ n. (0 < n) × (n ≤ length text.now)) }
    ensures refused { OnErr result (Refused A) }
{
    match text[0] {
        0x20..=0x7f => {
            fallible_alloc::push(kept, text[0])?;
            Ok(1)
        }
        0xc2..=0xf4 => keep_sequence(kept, text),
        0x00..=0x1f | 0x80..=0xc1 | 0xf5..=0xff => Ok(1),
    }
}

// Does the same for a sequence of UTF-8.
fn keep_sequence<A: Allocator>(kept: &mut Vec<u8, A>, text: &[u8]) -> Result<usize, AllocError>
    requires { HasLead 0 0xc2 0xf4 text.now }
    ensures kept { (after t : List ℕ) → IsLeft kept.old.items text.now after t
        → IfOk result (λ n. IsLeft kept.new.items (drop n text.now) after t) }
    ensures count { IfOk result (λ n. (0 < n) × (n ≤ length text.now)) }
    ensures refused { OnErr result (Refused A) }
{
    match sequence_ahead(text) {
        Ahead::Whole(count) => {
            fallible_alloc::extend(kept, &text[..count])?;
            Ok(count)
        }
        Ahead::Broken(count) => {
            fallible_alloc::extend(kept, &REPLACEMENT)?;
            Ok(count)
        }
        Ahead::Pending => {
            fallible_alloc::extend(kept, &REPLACEMENT)?;
            Ok(text.len())
        }
        Ahead::Control(_) => Ok(text.len()),
    }
}
