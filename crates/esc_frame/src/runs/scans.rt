//! This module finds the ends of runs.
#![tactic(auto)]

ghost use Rattle.std.specs.Prelude.{◌≡◌, ◌+◌, ◌<◌, ◌≤◌, true, length, take, drop, slice_index, IsTrue};
ghost use Rattle.std.specs.List.{prefix_len};
ghost use Rattle.esc_frame.specs.Machine.TextRuns.{IsTextRun, NoUnitAhead};
ghost use Rattle.esc_frame.specs.Scans.{IsPartOfRun, is_text_byte, is_data_byte, is_free_byte, is_unmarked, IsFreeTo, lowest};
ghost use Rattle.esc_frame.specs.Sequences.{is_from};

use crate::utf8::sequence::{ahead, ahead_of_few};
use std::simd::prelude::*;

#[inline(always)]
fn lowest(mask: u64, n: usize) -> usize
    ensures { result ≡ lowest mask n }
{
    if mask == 0 {
        n
    } else {
        mask.trailing_zeros() as usize
    }
}

// Returns how many of the 32 bytes from `at`, from the first, are 20 to `last`, which is 7E or 7F.
#[inline(always)]
fn run_in_wide_lanes(bytes: &[u8], at: usize, last: u8) -> usize
    requires room { at + 32 ≤ length bytes.now }
    requires last { is_from 0x7e 0x7f last ≡ true }
    ensures { result ≡ prefix_len (is_from 0x20 last) (take 32 (drop at bytes.now)) }
{
    let v = u8x32::from_slice(&bytes[at..]);
    let stops = (v - u8x32::splat(0x20)).simd_ge(u8x32::splat(last - 0x1f));
    lowest(stops.to_bitmask(), 32)
}

// Returns the same of 16 bytes.
#[inline(always)]
fn run_in_lanes(bytes: &[u8], at: usize, last: u8) -> usize
    requires room { at + 16 ≤ length bytes.now }
    requires last { is_from 0x7e 0x7f last ≡ true }
    ensures { result ≡ prefix_len (is_from 0x20 last) (take 16 (drop at bytes.now)) }
{
    let v = u8x16::from_slice(&bytes[at..]);
    let stops = (v - u8x16::splat(0x20)).simd_ge(u8x16::splat(last - 0x1f));
    lowest(stops.to_bitmask(), 16)
}

// Returns the length of the longest prefix of bytes 20 to `last`, which is 7E or 7F. Most runs end
// within the first 16 bytes.
#[inline(always)]
fn run_to(bytes: &[u8], last: u8) -> usize
    requires last { is_from 0x7e 0x7f last ≡ true }
    ensures run { result ≡ prefix_len (is_from 0x20 last) bytes.now }
    ensures few { result ≤ length bytes.now }
{
    if bytes.len() < 16 {
        return short_run_to(bytes, last);
    }
    let run = run_in_lanes(bytes, 0, last);
    if run < 16 {
        return run;
    }
    run_from(bytes, 16, last)
}

// Returns the same, apart from the fast code for long runs.
#[inline(never)]
fn short_run_to(bytes: &[u8], last: u8) -> usize
    requires last { is_from 0x7e 0x7f last ≡ true }
    ensures run { result ≡ prefix_len (is_from 0x20 last) bytes.now }
    ensures few { result ≤ length bytes.now }
{
    run_from(bytes, 0, last)
}

// Returns the same, if the bytes before `from` are a part of the run.
#[tactic(auto, using(crate::proofs::ByteRuns::PrefixesPass::runs))]
#[inline(always)]
fn run_from(bytes: &[u8], from: usize, last: u8) -> usize
    requires last { is_from 0x7e 0x7f last ≡ true }
    requires part { IsPartOfRun (is_from 0x20 last) bytes.now from }
    ensures run { result ≡ prefix_len (is_from 0x20 last) bytes.now }
    ensures few { result ≤ length bytes.now }
{
    let mut end = from;
    'by_block: while bytes.len() - end >= 32 {
        let run = run_in_wide_lanes(bytes, end, last);
        if run < 32 {
            return end + run;
        }
        end += 32;
    }
    while end < bytes.len() && 0x20 <= bytes[end] && bytes[end] <= last {
        end += 1;
    }
    end
}

/// Returns the length of the longest prefix of bytes 20 to 7F: the printable characters of ASCII,
/// the space and DEL. It takes no memory.
#[inline(always)]
pub fn ascii_run(bytes: &[u8]) -> usize
    ensures run { result ≡ prefix_len is_text_byte bytes.now }
    ensures few { result ≤ length bytes.now }
{
    run_to(bytes, 0x7f)
}

/// Returns the length of the longest prefix of bytes 20 to 7E.
#[inline(always)]
pub fn data_run(bytes: &[u8]) -> usize
    ensures run { result ≡ prefix_len is_data_byte bytes.now }
    ensures few { result ≤ length bytes.now }
{
    run_to(bytes, 0x7e)
}

// Returns how many of the 16 bytes from `at`, from the first, are no `;`.
#[inline(always)]
fn unmarked_in_lanes(text: &[u8], at: usize) -> usize
    requires { at + 16 ≤ length text.now }
    ensures { result ≡ prefix_len is_unmarked (take 16 (drop at text.now)) }
{
    let marks = u8x16::from_slice(&text[at..]).simd_eq(u8x16::splat(b';'));
    lowest(marks.to_bitmask(), 16)
}

/// Returns the place of the first `;` from `from` on, or the end of the text.
#[tactic(auto, using(crate::proofs::ByteRuns::PrefixesPass::runs))]
#[inline(always)]
pub fn mark_from(text: &[u8], from: usize) -> usize
    requires { from ≤ length text.now }
    ensures at { result ≡ from + prefix_len is_unmarked (drop from text.now) }
    ensures few { result ≤ length text.now }
{
    let mut at = from;
    'by_block: while text.len() - at >= 16 {
        let run = unmarked_in_lanes(text, at);
        if run < 16 {
            return at + run;
        }
        at += 16;
    }
    while at < text.len() && text[at] != b';' {
        at += 1;
    }
    at
}

/// Returns the length of the longest prefix of whole units that an OSC's text keeps as they are:
/// bytes 20 to 7F, and well-formed sequences of UTF-8 that are no controls.
pub fn units_run(bytes: &[u8]) -> usize
    ensures run { IsTextRun (take result bytes.now) }
    ensures few { result ≤ length bytes.now }
    ensures stops { result < length bytes.now → NoUnitAhead (drop result bytes.now) }
{
    let mut end = 0;
    while end < bytes.len() {
        let n = units_ahead(&bytes[end..]);
        if n == 0 {
            return end;
        }
        end += n;
    }
    end
}

// Returns the length of a run of bytes 20 to 7F, or of a sequence.
#[inline(always)]
fn units_ahead(bytes: &[u8]) -> usize
    ensures run { IsTextRun (take result bytes.now) }
    ensures few { result ≤ length bytes.now }
    ensures stops { result ≡ 0 → 0 < length bytes.now → NoUnitAhead bytes.now }
{
    if bytes.is_empty() || bytes[0] < 0x20 {
        return 0;
    }
    if bytes[0] < 0x80 {
        ascii_run(bytes)
    } else if bytes.len() < 4 {
        ahead_of_few(bytes).0
    } else {
        ahead(bytes).0
    }
}

// Returns how many of the 32 bytes from `at`, from the first, are neither a control of C0 nor C2.
#[inline(always)]
fn free_in_wide_lanes(bytes: &[u8], at: usize) -> usize
    requires { at + 32 ≤ length bytes.now }
    ensures run { result ≡ prefix_len is_free_byte (take 32 (drop at bytes.now)) }
    ensures few { result ≤ 32 }
{
    let v = u8x32::from_slice(&bytes[at..]);
    let held = v.simd_lt(u8x32::splat(0x20)) | v.simd_eq(u8x32::splat(0xc2));
    lowest(held.to_bitmask(), 32)
}

// Returns whether no control begins here.
#[inline(always)]
fn is_free_at(bytes: &[u8], at: usize) -> bool
    requires { at < length bytes.now }
    ensures { IsTrue result
        → (0x20 ≤ slice_index bytes.now at)
        × (slice_index bytes.now at ≡ 0xc2 → 0xa0 ≤ slice_index bytes.now (at + 1)) }
{
    if bytes[at] == 0xc2 {
        bytes.len() - at >= 2 && bytes[at + 1] >= 0xa0
    } else {
        bytes[at] >= 0x20
    }
}

// The search for a run of UTF-8 ends after this many bytes, so that one that is not well-formed
// costs no more than that each time.
const FAR: usize = 128;

/// Returns the length of a prefix without a control of C0, and without C2 before 80 to 9F. It is
/// not much longer than 128.
#[inline(always)]
pub fn free_run(bytes: &[u8]) -> usize
    ensures run { IsFreeTo bytes.now result }
    ensures few { result ≤ length bytes.now }
{
    let mut end = 0;
    'by_block: while end < FAR && bytes.len() - end >= 32 {
        let run = free_in_wide_lanes(bytes, end);
        end += run;
        if run < 32 {
            if !is_free_at(bytes, end) {
                return end;
            }
            end += 1;
        }
    }
    while end < FAR && end < bytes.len() && is_free_at(bytes, end) {
        end += 1;
    }
    before_character(bytes, end)
}

// Returns the place of the character that goes past `end`, or `end` itself.
#[inline(always)]
fn before_character(bytes: &[u8], end: usize) -> usize
    requires { end ≤ length bytes.now }
    ensures { result ≤ end }
{
    let mut at = end;
    while end - at < 3 && 0 < at && at < bytes.len() && bytes[at] & 0xc0 == 0x80 {
        at -= 1;
    }
    at
}
