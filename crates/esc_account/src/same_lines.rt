//! Lines that are the same in two texts.
#![tactic(auto)]

ghost use Rattle.std.specs.Prelude.{◌≡◌, ◌≤◌, length, take, true};
ghost use Rattle.esc_filter.specs.Lines.{ends_line};

use crate::account::is_same;
use memchr::memrchr;

// How many bytes are compared at once.
const BLOCK: usize = 256;

// How many where so many are not the same: few enough for one instruction.
const FEW: usize = 16;

/// How many bytes at the beginning are whole lines, each with its line feed, that are the same in
/// both.
pub(crate) fn same_lines(bytes: &[u8], text: &[u8]) -> usize
    ensures same { take result bytes.now ≡ take result text.now }
    ensures ends { ends_line true (take result bytes.now) ≡ true }
    ensures few { (result ≤ length bytes.now) × (result ≤ length text.now) }
{
    let most = same_bytes(bytes, text);
    match memrchr(b'\n', &bytes[..most]) {
        Some(at) => at + 1,
        None => 0,
    }
}

// How many bytes at the beginning are the same in both.
fn same_bytes(bytes: &[u8], text: &[u8]) -> usize
    ensures same { take result bytes.now ≡ take result text.now }
    ensures few { (result ≤ length bytes.now) × (result ≤ length text.now) }
{
    let most = bytes.len().min(text.len());
    let mut at = 0;
    while most - at >= BLOCK && is_same(&bytes[at..at + BLOCK], &text[at..at + BLOCK]) {
        at += BLOCK;
    }
    while most - at >= FEW && is_same(&bytes[at..at + FEW], &text[at..at + FEW]) {
        at += FEW;
    }
    while at < most && bytes[at] == text[at] {
        at += 1;
    }
    at
}
