//! Runs that are written as they are: no byte is DEL, and none is written as a reference.
ghost use Rattle.std.specs.Prelude.{◌≡◌, ◌≤◌, ◌+◌, drop, length, take};
ghost use Rattle.std.specs.List.{list_all};
ghost use Rattle.esc_frame.specs.Scans.{lowest};
ghost use Rattle.esc_html.specs.Characters.{is_bare};

use std::simd::prelude::*;

// How many bytes are looked at together.
const LANES: usize = 16;

/// Whether each of its bytes is written as it is.
pub(crate) fn are_bare(text: &str) -> bool
    ensures { result ≡ list_all is_bare text.now }
{
    are_bare_bytes(text.as_bytes())
}

fn are_bare_bytes(bytes: &[u8]) -> bool
    ensures { result ≡ list_all is_bare bytes.now }
{
    if bytes.len() < LANES {
        are_few_bare(bytes)
    } else {
        are_many_bare(bytes)
    }
}

// The same, byte by byte.
#[inline]
fn are_few_bare(bytes: &[u8]) -> bool
    ensures { result ≡ list_all is_bare bytes.now }
{
    bytes.iter().all(|byte| is_bare(*byte))
}

#[inline]
fn is_bare(byte: u8) -> bool
    ensures { result ≡ is_bare byte }
{
    byte != 0x7f && byte != b'&' && byte != b'<' && byte != b'>'
}

// The same, many at once; the last ones of them overlap others.
#[inline]
fn are_many_bare(bytes: &[u8]) -> bool
    requires { 16 ≤ length bytes.now }
    ensures { result ≡ list_all is_bare bytes.now }
{
    let mut at = 0;
    while bytes.len() - at >= LANES {
        if !are_lanes_bare(bytes, at) {
            return false;
        }
        at += LANES;
    }
    are_lanes_bare(bytes, bytes.len() - LANES)
}

// Whether the 16 bytes from `at` are.
#[inline(always)]
fn are_lanes_bare(bytes: &[u8], at: usize) -> bool
    requires { at + 16 ≤ length bytes.now }
    ensures { result ≡ list_all is_bare (take 16 (drop at bytes.now)) }
{
    let lanes = u8x16::from_slice(&bytes[at..]);
    let held = lanes.simd_eq(u8x16::splat(0x7f))
        | lanes.simd_eq(u8x16::splat(b'&'))
        | lanes.simd_eq(u8x16::splat(b'<'))
        | lanes.simd_eq(u8x16::splat(b'>'));
    lowest(held.to_bitmask()) == LANES
}

// The place of the lowest bit that is set, or 16.
#[inline(always)]
fn lowest(mask: u64) -> usize
    ensures { result ≡ lowest mask 16 }
{
    if mask == 0 {
        LANES
    } else {
        mask.trailing_zeros() as usize
    }
}
