//! Renditions that pass as they came, found at once.
#![tactic(auto)]

ghost use Rattle.std.specs.Prelude.{◌≡◌, ◌<◌, ◌≤◌, ℕ, Bool, IfSome, length, take};
ghost use Rattle.esc_filter.specs.Lines.{IsNumber, IsShortRendition};
ghost use Rattle.esc_filter.specs.declared.guard.Guard.{Guard};
ghost use Rattle.esc_account.specs.Passing.{IsPassedSequence};
ghost use Rattle.esc_account.specs.Rules.{rule_of};

use esc_filter::Admit;
use std::alloc::Allocator;

/// Returns how many bytes at the beginning are a rendition that the policy lets pass, and that is
/// written as it came.
#[inline]
pub(crate) fn passed_rendition<P: Admit<A>, A: Allocator>(policy: &P, bytes: &[u8]) -> usize
    ensures few { result ≤ length bytes.now }
    ensures passed { 0 < result → (lined : Bool) (u : Guard) (limit : ℕ) → IsPassedSequence
        (rule_of lined u limit (P.admits policy.now)) (take result bytes.now) }
{
    if policy.known().renditions {
        rendition_length(bytes)
    } else {
        0
    }
}

// Returns the length of the rendition that comes first and is written as it came, or 0.
#[inline]
fn rendition_length(bytes: &[u8]) -> usize
    ensures few { result ≤ length bytes.now }
    ensures short { 0 < result
        → (lit : Bool) × IsShortRendition (take result bytes.now) lit }
{
    match short_rendition(bytes) {
        Some(count) => count,
        None => 0,
    }
}

// Returns the length of the rendition that comes first, of a number alone or of a colour of the
// palette (`38;5;n` or `48;5;n`), if it is written as it came.
#[inline]
fn short_rendition(bytes: &[u8]) -> Option<usize>
    ensures { IfSome result (λ n. (n ≤ length bytes.now)
        × ((lit : Bool) × IsShortRendition (take n bytes.now) lit)) }
{
    if let Some(rest) = bytes.strip_prefix(b"\x1b[38;5;") {
        return Some(7 + last_number(rest)?);
    }
    if let Some(rest) = bytes.strip_prefix(b"\x1b[48;5;") {
        return Some(7 + last_number(rest)?);
    }
    let number = last_number(bytes.strip_prefix(b"\x1b[")?)?;
    Some(2 + number)
}

// Returns the length of the number of up to three digits at the beginning, as it is written, with
// the `m` after it. For fewer than four bytes it is `None`.
#[inline]
fn last_number(bytes: &[u8]) -> Option<usize>
    ensures { IfSome result (λ n. (n ≤ length bytes.now)
        × ((lit : Bool) × IsNumber (take n bytes.now) lit)) }
{
    if bytes.len() < 4 || !bytes[0].is_ascii_digit() {
        return None;
    }
    if bytes[1] == b'm' {
        return Some(2);
    }
    if bytes[0] == b'0' || !bytes[1].is_ascii_digit() {
        return None;
    }
    if bytes[2] == b'm' {
        return Some(3);
    }
    if !bytes[2].is_ascii_digit() || bytes[3] != b'm' {
        return None;
    }
    Some(4)
}
