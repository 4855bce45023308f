//! The first segment of some bytes.
#![tactic(auto)]

ghost use Rattle.std.specs.Prelude.{◌≡◌, ◌<◌, ◌≤◌, ◌∷◌, false, length, slice_index};
ghost use Rattle.std.specs.List.{prefix_len};
ghost use Rattle.esc_frame.specs.Classes.{class_of, is_noise, opens};
ghost use Rattle.esc_segments.specs.Places.{HasLead, IsFirst, IsRaw, found_further};

use crate::bytes::{is_breaker, is_letter};
use crate::found::Found;
use crate::kind::SegmentKind;
use crate::opened::opened;
use crate::runs::{escape_run, noise_run};
use crate::sequence::{Ahead, sequence_ahead};

/// Returns the first segment.
pub fn first(bytes: &[u8]) -> Found
    requires { 0 < length bytes.now }
    ensures found { IsFirst bytes.now result }
    ensures some { 0 < result.len }
    ensures few { result.len ≤ length bytes.now }
{
    match bytes[0] {
        0x00..=0x1a => Found::finished(SegmentKind::Control, 1),
        0x1b => escape(&bytes[1..]).later(1),
        0x1c..=0x1f => Found::finished(SegmentKind::Control, 1),
        0x20..=0x7f => Found::finished(SegmentKind::Character, 1),
        0x80..=0x9f => control(bytes[0], &bytes[1..]).later(1),
        0xa0..=0xc1 => Found::finished(SegmentKind::Stray, 1),
        0xc2..=0xf4 => character(bytes),
        0xf5..=0xff => Found::finished(SegmentKind::Stray, 1),
    }
}

// Returns the segment that a byte C2 to F4 begins.
fn character(bytes: &[u8]) -> Found
    requires { HasLead 0 0xc2 0xf4 bytes.now }
    ensures found { IsFirst bytes.now result }
    ensures some { 0 < result.len }
    ensures few { result.len ≤ length bytes.now }
{
    match sequence_ahead(bytes) {
        Ahead::Whole(count) => Found::finished(SegmentKind::Character, count),
        Ahead::Broken(count) => Found::finished(SegmentKind::Broken, count),
        Ahead::Pending => Found::unfinished(SegmentKind::Broken, bytes.len()),
        Ahead::Control(b) => control(b, &bytes[2..]).later(2),
    }
}

// Returns the segment that a control of C1 begins, after the control.
fn control(b: u8, body: &[u8]) -> Found
    requires low { 0x80 ≤ b }
    requires high { b ≤ 0x9f }
    ensures found { IsRaw b body.now result }
    ensures few { result.len ≤ length body.now }
{
    if b == 0x9c {
        Found::finished(SegmentKind::Terminator, 0)
    } else if is_letter(b - 0x40) {
        opened(b - 0x40, body)
    } else {
        Found::finished(SegmentKind::Control, 0)
    }
}

// Returns the segment that ESC begins, after it.
fn escape(rest: &[u8]) -> Found
    ensures found { IsFirst (0x1b ∷ rest.now) (found_further 1 result) }
    ensures few { result.len ≤ length rest.now }
{
    let noise = noise_run(rest);
    if noise < rest.len() && is_letter(rest[noise]) {
        opened(rest[noise], &rest[noise + 1..]).later(noise + 1)
    } else {
        escape_sequence(rest, noise)
    }
}

// Returns an escape sequence that opens nothing.
fn escape_sequence(rest: &[u8], noise: usize) -> Found
    requires noise { noise ≡ prefix_len (λ b. is_noise (class_of b)) rest.now }
    requires opens_nothing { noise < length rest.now
        → opens (class_of (slice_index rest.now noise)) ≡ false }
    ensures found { IsFirst (0x1b ∷ rest.now) (found_further 1 result) }
    ensures few { result.len ≤ length rest.now }
{
    let run = escape_run(rest);
    if run == rest.len() {
        Found::unfinished(SegmentKind::CutShort, run)
    } else if is_breaker(rest[run]) {
        Found::finished(SegmentKind::CutShort, run)
    } else {
        Found::finished(SegmentKind::Escape, run + 1)
    }
}
