//! Sequences and strings that are seen at once.
#![tactic(auto)]

ghost use Rattle.std.specs.Prelude.{◌≡◌, ◌<◌, ◌≤◌, IfSome, IsTrue, drop, length, slice_index, take, true};
ghost use Rattle.std.specs.List.{list_all, prefix_len};
ghost use Rattle.esc_frame.specs.Bodies.{is_csi_body, is_csi_parameter, is_private_prefix};
ghost use Rattle.esc_frame.specs.Scans.{is_body_byte};
ghost use Rattle.esc_account.specs.AtOnce.{IsCommand, IsSeen, IsSequence};

use crate::first::after;
use esc_frame::runs::scans::data_run;
use esc_segments::{Segment, SegmentKind};

/// Returns the first segment, if it is seen at once: a control sequence after `ESC [` with no noise
/// and no intermediates, or an operating system command of bytes 20 to 7E after `ESC ]` that BEL or
/// ESC ends.
#[inline]
pub(crate) fn segment_at_once(bytes: &[u8]) -> Option<Segment<'_>>
    ensures { IfSome result (IsSeen bytes.now) }
{
    if bytes.len() < 3 || bytes[0] != 0x1b {
        return None;
    }
    if bytes[1] == b'[' {
        return sequence_at_once(bytes);
    }
    if bytes[1] == b']' {
        return command_at_once(bytes);
    }
    None
}

// The control sequence after `ESC [`.
#[inline]
fn sequence_at_once(bytes: &[u8]) -> Option<Segment<'_>>
    requires some { 3 ≤ length bytes.now }
    requires first { slice_index bytes.now 0 ≡ 0x1b }
    requires second { slice_index bytes.now 1 ≡ 0x5b }
    ensures { IfSome result (IsSeen bytes.now) }
{
    let (end, _) = sequence_end(after(bytes, 2));
    if end == 0 {
        None
    } else {
        Some(Segment {
            kind: SegmentKind::Csi,
            bytes: &bytes[..end + 2],
            finished: true,
        })
    }
}

// The operating system command after `ESC ]`.
#[inline]
fn command_at_once(bytes: &[u8]) -> Option<Segment<'_>>
    requires some { 3 ≤ length bytes.now }
    requires first { slice_index bytes.now 0 ≡ 0x1b }
    requires second { slice_index bytes.now 1 ≡ 0x5d }
    ensures { IfSome result (IsSeen bytes.now) }
{
    let end = command_end(after(bytes, 2));
    if end == 0 {
        None
    } else {
        Some(Segment {
            kind: SegmentKind::Osc,
            bytes: &bytes[..end + 2],
            finished: true,
        })
    }
}

/// Counts the bytes that come first and are the body of a control sequence without intermediates
/// and its final byte, and returns this byte; 0 if there are none.
#[inline]
pub(crate) fn sequence_end(bytes: &[u8]) -> (usize, u8)
    ensures few { result.0 ≤ length bytes.now }
    ensures found { 0 < result.0 → IsSequence (take result.0 bytes.now) result.1 }
{
    let run = body_run(bytes);
    if run == bytes.len() {
        return (0, 0);
    }
    let last = bytes[run];
    if is_final(last) {
        (run + 1, last)
    } else {
        (0, 0)
    }
}

fn is_final(byte: u8) -> bool
    ensures { IsTrue result → (0x40 ≤ byte) × (byte ≤ 0x7e) }
{
    0x40 <= byte && byte <= 0x7e
}

// How many bytes come first that are a private prefix, or none, and parameter bytes.
#[inline]
fn body_run(bytes: &[u8]) -> usize
    ensures few { result ≤ length bytes.now }
    ensures each { list_all is_body_byte (take result bytes.now) ≡ true }
    ensures form { is_csi_body (take result bytes.now) ≡ true }
{
    let prefix = prefix_run(bytes);
    prefix + parameter_run(after(bytes, prefix))
}

// 1 where a private prefix comes first.
#[inline]
fn prefix_run(bytes: &[u8]) -> usize
    ensures few { (result ≤ length bytes.now) × (result ≤ 1) }
    ensures prefix { 0 < result → is_private_prefix (slice_index bytes.now 0) ≡ true }
{
    if bytes.is_empty() {
        0
    } else if is_private_prefix(bytes[0]) {
        1
    } else {
        0
    }
}

#[inline(always)]
fn is_private_prefix(byte: u8) -> bool
    ensures { result ≡ is_private_prefix byte }
{
    0x3c <= byte && byte <= 0x3f
}

// How many parameter bytes come first.
#[inline]
fn parameter_run(bytes: &[u8]) -> usize
    ensures few { result ≤ length bytes.now }
    ensures each { list_all is_csi_parameter (take result bytes.now) ≡ true }
{
    let mut at = 0;
    while at < bytes.len() && is_parameter(bytes[at]) {
        at += 1;
    }
    at
}

#[inline(always)]
fn is_parameter(byte: u8) -> bool
    ensures { result ≡ is_csi_parameter byte }
{
    0x30 <= byte && byte <= 0x3b
}

// How many bytes come first that are the text of an operating system command of bytes 20 to 7E, and
// the BEL that ends it; 0 where neither BEL nor ESC does.
#[inline]
fn command_end(bytes: &[u8]) -> usize
    ensures few { result ≤ length bytes.now }
    ensures found { 0 < result → IsCommand (take result bytes.now) (drop result bytes.now) }
{
    let run = data_run(bytes);
    if run == bytes.len() {
        return 0;
    }
    if bytes[run] == 0x07 {
        return run + 1;
    }
    if bytes[run] == 0x1b {
        return run;
    }
    0
}
