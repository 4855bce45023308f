//! Control sequences that a policy judges by their parameters.
#![tactic(auto)]

ghost use Rattle.std.specs.Prelude.{◌≡◌, ◌==◌, ◌<◌, ◌≤◌, ◌∷◌, ◌++◌, Bool, IfSome, IsTrue, List, None, Option, false, length, map, take, ℕ};
ghost use Rattle.esc_frame.specs.Segments.{AreSegments, Segment as Shape, is_finished, joined_bytes};
ghost use Rattle.esc_sequences.specs.Csis.{csi_of, csi_text, unspecified};
ghost use Rattle.esc_segments.specs.Items.{IsItem};
ghost use Rattle.esc_segments.specs.declared.kind.SegmentKind.TheVariants as kinds;
ghost use Rattle.esc_actions.specs.Values.{csi};
ghost use Rattle.esc_filter.specs.declared.guard.Guard.{Guard};
ghost use Rattle.esc_write.specs.Plain.{IsPlain, indexed_text, last_text};
ghost use Rattle.esc_account.specs.AtOnce.{IsOther};
ghost use Rattle.esc_account.specs.Leaving.{IsLeftOut};
ghost use Rattle.esc_account.specs.Passing.{passed_as};
ghost use Rattle.esc_account.specs.Rules.{left_as, rule_of, verdict_on};

use crate::account::is_same;
use crate::at_once::sequence_end;
use crate::fate::Fate;
use crate::first::after;
use crate::reading::{is_csi, is_short, short_final};
use crate::verdict::Verdict;
use esc_filter::Admit;
use esc_frame::unfinished::short::Short;
use esc_segments::Segment;
use esc_values::CsiParam;
use esc_write::indexed::Indexed;
use esc_write::short_numbers::ShortNumbers;
use std::alloc::Allocator;

/// Returns the verdict on a short control sequence after `ESC [`, if the policy knows that it does
/// not pass, or that it does and is written as it came.
pub(crate) fn sequence_verdict<P: Admit<A>, A: Allocator>(
    policy: &P,
    limit: usize,
    before: Option<char>,
    segment: Segment<'_>,
) -> Option<Verdict>
    ensures { (lined : Bool) (u : Guard) (g : Shape) (gs : List Shape) → AreSegments (g ∷ gs)
        → IsItem segment.entry g (joined_bytes gs) → IfSome result (λ v. v
        ≡ rule_of lined u limit (P.admits policy.now) before g (is_finished g (joined_bytes gs))) }
{
    if !is_csi(segment.kind) {
        return None;
    }
    if is_left(policy, segment) {
        return Some(Verdict {
            fate: Fate::LeftOut,
            before,
        });
    }
    if !is_short(limit, segment) {
        return None;
    }
    let mut params = Short::new();
    match short_final(&mut params, segment) {
        Some(last) => known_verdict(policy, before, segment.bytes, params.as_slice(), last),
        None => None,
    }
}

// Whether it is no rendition, and the policy lets none pass but renditions.
fn is_left<P: Admit<A>, A: Allocator>(policy: &P, segment: Segment<'_>) -> bool
    ensures { IsTrue result → (lined : Bool) (u : Guard) (limit : ℕ) (b : Option ℕ) (g : Shape)
        (gs : List Shape) → AreSegments (g ∷ gs) → IsItem segment.entry g (joined_bytes gs)
        → left_as b
        ≡ rule_of lined u limit (P.admits policy.now) b g (is_finished g (joined_bytes gs)) }
{
    if !policy.known().no_functions {
        return false;
    }
    if !is_csi(segment.kind) {
        return false;
    }
    is_other(segment.bytes)
}

// Whether the bytes are `ESC [`, the body of a control sequence without noise, and another final
// byte than `m`.
fn is_other(bytes: &[u8]) -> bool
    ensures { IsTrue result → IsOther bytes.now }
{
    let count = other_ahead(bytes);
    if count == 0 {
        return false;
    }
    count == bytes.len()
}

/// Returns how many bytes at the beginning are a control sequence after `ESC [` without noise
/// that the policy leaves out by its final byte.
#[inline]
pub(crate) fn left_sequence<P: Admit<A>, A: Allocator>(policy: &P, bytes: &[u8]) -> usize
    ensures few { result ≤ length bytes.now }
    ensures left { 0 < result → (lined : Bool) (u : Guard) (limit : ℕ)
        → IsLeftOut (rule_of lined u limit (P.admits policy.now)) (take result bytes.now) }
{
    if policy.known().no_functions {
        other_ahead(bytes)
    } else {
        0
    }
}

// How many bytes come first that are `ESC [`, the body of a control sequence without noise, and
// another final byte than `m`.
#[inline]
fn other_ahead(bytes: &[u8]) -> usize
    ensures few { result ≤ length bytes.now }
    ensures other { 0 < result → IsOther (take result bytes.now) }
{
    if bytes.len() < 3 || bytes[0] != 0x1b || bytes[1] != b'[' {
        return 0;
    }
    let (end, last) = sequence_end(after(bytes, 2));
    if end == 0 || is_rendition(last) {
        return 0;
    }
    end + 2
}

fn is_rendition(last: u8) -> bool
    ensures { result ≡ (last == 0x6d) }
{
    last == b'm'
}

// The same of one with these bytes, parameters and final byte.
fn known_verdict<P: Admit<A>, A: Allocator>(
    policy: &P,
    before: Option<char>,
    bytes: &[u8],
    params: &[CsiParam],
    last: u8,
) -> Option<Verdict>
    ensures { (lined : Bool) (u : Guard) → IfSome result (λ v. v
        ≡ verdict_on lined u (P.admits policy.now) before kinds.Csi bytes.now
        (map csi (csi_of params.now false last))) }
{
    match policy.admits_sequence(params, last) {
        Some(true) => passed_sequence(bytes, params, last),
        Some(false) => left_out(before, last),
        None => None,
    }
}

// The verdict on one that does not pass. Nothing is said of one that ends in `m`, which may be more
// than one rendition.
fn left_out(before: Option<char>, last: u8) -> Option<Verdict>
    ensures { IfSome result (λ v. ((last == 0x6d) ≡ false) × (v ≡ left_as before)) }
{
    if last == b'm' {
        return None;
    }
    Some(Verdict {
        fate: Fate::LeftOut,
        before,
    })
}

// The verdict on one that passes, where its bytes are its text.
fn passed_sequence(bytes: &[u8], params: &[CsiParam], last: u8) -> Option<Verdict>
    ensures { IfSome result (λ v. (IsPlain params.now false last
        × (csi_text (unspecified params.now false last) ≡ bytes.now)) × (v ≡ passed_as None)) }
{
    if !is_written_so(bytes, params, last) {
        return None;
    }
    Some(Verdict {
        fate: Fate::Passed,
        before: None,
    })
}

// Whether the bytes are the text of a rendition of one number, or of a colour of the palette.
fn is_written_so(bytes: &[u8], params: &[CsiParam], last: u8) -> bool
    ensures { IsTrue result → IsPlain params.now false last
        × (csi_text (unspecified params.now false last) ≡ bytes.now) }
{
    match ShortNumbers::of(params, last) {
        Some(ShortNumbers::Lone(number)) => is_headed(bytes, b"\x1b[", number, last),
        Some(ShortNumbers::Palette(numbers)) => is_palette(bytes, numbers, last),
        Some(ShortNumbers::Nothing) | Some(ShortNumbers::Pair(_, _)) | None => false,
    }
}

// Whether they are the text of a control sequence of these numbers.
fn is_palette(bytes: &[u8], numbers: Indexed, last: u8) -> bool
    ensures { IsTrue result
        → indexed_text numbers.first numbers.second numbers.third last ≡ bytes.now }
{
    let (tens, ones) = (48 + numbers.first / 10, 48 + numbers.first % 10);
    let second = 48 + numbers.second;
    let head = [0x1b, b'[', tens, ones, b';', second, b';'];
    is_headed(bytes, &head, numbers.third, last)
}

// Whether they are this head, and then the number and the final byte.
fn is_headed(bytes: &[u8], head: &[u8], number: u8, last: u8) -> bool
    ensures { IsTrue result → head.now ++ last_text number last ≡ bytes.now }
{
    if bytes.len() < head.len() {
        return false;
    }
    let (first, rest) = bytes.split_at(head.len());
    if is_same(first, head) {
        is_last(rest, number, last)
    } else {
        false
    }
}

// Whether they are the number and the final byte.
fn is_last(bytes: &[u8], number: u8, last: u8) -> bool
    ensures { IsTrue result → last_text number last ≡ bytes.now }
{
    if number < 10 {
        is_same(bytes, &[48 + number, last])
    } else if number < 100 {
        is_same(bytes, &[48 + number / 10, 48 + number % 10, last])
    } else {
        let tens = 48 + number / 10 % 10;
        is_same(bytes, &[48 + number / 100, tens, 48 + number % 10, last])
    }
}
