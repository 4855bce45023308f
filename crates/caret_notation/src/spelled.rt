//! This module says whether all of a span is in the text of its meaning.
ghost use Rattle.std.specs.Prelude.{◌≡◌, ◌&&◌, ◌≤◌, IfOk, OnErr, Some, length, nat_le};
ghost use Rattle.esc_normal.specs.Normalising.{normal_form};
ghost use Rattle.caret_notation.specs.Spelled.{digits_after, ends_in_bell, is_body, is_end, is_control_sequence, is_single, is_spelled, is_text_of, most_digits};
ghost use Rattle.caret_notation.specs.Visible.{lets_stay};
ghost use Rattle.esc_values.specs.Params.{is_body_byte, is_digit, is_final};
ghost use Rattle.fallible_alloc.specs.Refusals.{Refused};

use crate::marking::Marking;
use esc_normal::normal_text;
use std::alloc::{AllocError, Allocator};

// Digits that a number of 64 bits holds, whatever they are.
const MOST_DIGITS: usize = 18;

/// Returns whether the span stays, if each value that it means passes, or does not.
pub(crate) fn may_stay<A: Allocator + Copy>(
    alloc: A,
    marking: Marking,
    limit: usize,
    passes: bool,
    span: &[u8],
) -> Result<bool, AllocError>
    ensures given { IfOk result (λ k. k ≡ ((nat_le (length span.now) limit
        && lets_stay marking span.now) && (passes
        && is_spelled span.now (normal_form A (Some limit) span.now)))) }
    ensures refused { OnErr result (Refused A) }
{
    if passes && span.len() <= limit && marking.lets_stay(span) {
        is_spelled(alloc, limit, span)
    } else {
        Ok(false)
    }
}

/// Returns whether all bytes of the span are in the text of its meaning. That text is made if the
/// span is neither a byte of ASCII nor a control sequence.
pub(crate) fn is_spelled<A: Allocator + Copy>(
    alloc: A,
    limit: usize,
    span: &[u8],
) -> Result<bool, AllocError>
    ensures given { IfOk result
        (λ k. k ≡ is_spelled span.now (normal_form A (Some limit) span.now)) }
    ensures refused { OnErr result (Refused A) }
{
    if is_single(span) || is_control_sequence(span) {
        return Ok(true);
    }
    match normal_text(alloc, span, Some(limit)) {
        Ok(text) => Ok(is_text_of(span, text.as_bytes())),
        Err(error) => Err(error),
    }
}

// Returns whether the span is one byte of ASCII.
fn is_single(span: &[u8]) -> bool
    ensures { result ≡ is_single span.now }
{
    span.len() == 1 && span[0] < 0x80
}

// Returns whether the span is a control sequence with no control in it, of numbers of few digits.
fn is_control_sequence(span: &[u8]) -> bool
    ensures { result ≡ is_control_sequence span.now }
{
    let n = span.len();
    n >= 3
        && span[0] == 0x1b
        && span[1] == b'['
        && is_final(span[n - 1])
        && is_body(&span[2..n - 1])
}

// Returns whether the bytes are parameters and intermediates, with not too many digits in a row.
fn is_body(bytes: &[u8]) -> bool
    ensures { result ≡ is_body bytes.now }
{
    let mut digits = 0;
    let mut at = 0;
    while at < bytes.len() {
        match digits_after(digits, bytes[at]) {
            Some(n) => digits = n,
            None => return false,
        }
        at += 1;
    }
    true
}

// Returns the number of last digits after this byte, if there were so many before it.
fn digits_after(digits: usize, byte: u8) -> Option<usize>
    ensures { result ≡ digits_after digits byte }
{
    if is_digit(byte) {
        if digits < MOST_DIGITS {
            Some(digits + 1)
        } else {
            None
        }
    } else if is_body_byte(byte) {
        Some(0)
    } else {
        None
    }
}

fn is_digit(byte: u8) -> bool
    ensures { result ≡ is_digit byte }
{
    b'0' <= byte && byte <= b'9'
}

fn is_body_byte(byte: u8) -> bool
    ensures { result ≡ is_body_byte byte }
{
    0x20 <= byte && byte <= 0x3f
}

fn is_final(byte: u8) -> bool
    ensures { result ≡ is_final byte }
{
    0x40 <= byte && byte <= 0x7e
}

// Returns whether the text is the span, or the span with `ESC \` in the place of the BEL that
// ends it.
fn is_text_of(span: &[u8], text: &[u8]) -> bool
    ensures { result ≡ is_text_of span.now text.now }
{
    let last = span.len().saturating_sub(1);
    let end = text.len().saturating_sub(2);
    text == span || (ends_in_bell(span) && is_end(&text[end..]) && text[..end] == span[..last])
}

// Returns whether the last of the bytes is BEL.
fn ends_in_bell(bytes: &[u8]) -> bool
    ensures { result ≡ ends_in_bell bytes.now }
{
    !bytes.is_empty() && bytes[bytes.len() - 1] == 0x07
}

// Returns whether the bytes are `ESC \`.
fn is_end(bytes: &[u8]) -> bool
    ensures { result ≡ is_end bytes.now }
{
    bytes.len() == 2 && bytes[0] == 0x1b && bytes[1] == 0x5c
}
