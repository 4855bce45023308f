//! Sequences and strings, after their openers.
#![tactic(auto)]

ghost use Rattle.std.specs.Prelude.{◌≡◌, ◌≤◌, ◌<◌, true, length};
ghost use Rattle.esc_frame.specs.declared.classes.Kind.{Kind};
ghost use Rattle.esc_frame.specs.declared.classes.Kind.TheVariants as kind;
ghost use Rattle.esc_frame.specs.Classes.{is_ignored, letter_of};
ghost use Rattle.esc_segments.specs.Places.{IsOpened};

use crate::bytes::is_breaker;
use crate::found::Found;
use crate::kind::SegmentKind;
use crate::runs::{data_run, header_run};
use crate::text::osc;

/// Returns the segment that this letter opens, after the opener.
pub fn opened(letter: u8, body: &[u8]) -> Found
    ensures found { (k : Kind) → letter ≡ letter_of k → IsOpened k body.now result }
    ensures few { result.len ≤ length body.now }
{
    match letter {
        b'[' => csi(body),
        b']' => osc(body),
        b'P' => dcs(body),
        b'_' => apc(body),
        _ => ignored(body),
    }
}

// Returns a control sequence.
fn csi(body: &[u8]) -> Found
    ensures found { IsOpened kind.Csi body.now result }
    ensures few { result.len ≤ length body.now }
{
    let run = header_run(body);
    if run == body.len() {
        Found::unfinished(SegmentKind::CutShort, run)
    } else if is_breaker(body[run]) {
        Found::finished(SegmentKind::CutShort, run)
    } else {
        Found::finished(SegmentKind::Csi, run + 1)
    }
}

// Returns a device control string.
fn dcs(body: &[u8]) -> Found
    ensures found { IsOpened kind.Dcs body.now result }
    ensures few { result.len ≤ length body.now }
{
    let run = header_run(body);
    if run == body.len() {
        Found::unfinished(SegmentKind::CutShort, run)
    } else if is_breaker(body[run]) {
        Found::finished(SegmentKind::CutShort, run)
    } else {
        let end = run + 1 + data_run(&body[run + 1..]);
        Found {
            kind: SegmentKind::Dcs,
            len: end,
            finished: end < body.len(),
        }
    }
}

// Returns an application program command.
fn apc(body: &[u8]) -> Found
    ensures found { IsOpened kind.Apc body.now result }
    ensures few { result.len ≤ length body.now }
{
    let end = data_run(body);
    Found {
        kind: SegmentKind::Apc,
        len: end,
        finished: end < body.len(),
    }
}

// Returns a start of string or a privacy message.
fn ignored(body: &[u8]) -> Found
    ensures found { (k : Kind) → is_ignored k ≡ true → IsOpened k body.now result }
    ensures few { result.len ≤ length body.now }
{
    let end = data_run(body);
    Found {
        kind: SegmentKind::Ignored,
        len: end,
        finished: end < body.len(),
    }
}
