//! Strings, and the terminators that end them.
#![tactic(auto)]

ghost use Rattle.std.specs.Prelude.{◌≡◌, ◌≤◌, IsTrue, length, take, true};
ghost use Rattle.esc_account.specs.Accounts.{awaits_terminator, ends_in_bell, fate_after, is_end, is_terminator};
ghost use Rattle.esc_account.specs.Leaving.{LeavesEnds};

use crate::fate::Fate;
use crate::judge::Judge;
use esc_segments::SegmentKind;
use std::alloc::Allocator;

// Whether the bytes are `ESC \`.
pub(crate) fn is_end(bytes: &[u8]) -> bool
    ensures { result ≡ is_end bytes.now }
{
    bytes.len() == 2 && bytes[0] == 0x1b && bytes[1] == 0x5c
}

// Returns whether `ESC \` comes first.
#[inline(always)]
fn begins_with_end(bytes: &[u8]) -> bool
    ensures few { IsTrue result → 2 ≤ length bytes.now }
    ensures end { IsTrue result → is_end (take 2 bytes.now) ≡ true }
{
    bytes.len() >= 2 && is_end(&bytes[..2])
}

/// Returns whether `ESC \` comes first, and the judge leaves it out by itself.
#[inline(always)]
pub(crate) fn leaves_end<A: Allocator, J: Judge<A>>(judge: &J, bytes: &[u8]) -> bool
    ensures few { IsTrue result → 2 ≤ length bytes.now }
    ensures end { IsTrue result → is_end (take 2 bytes.now) ≡ true }
    ensures leaves { IsTrue result → LeavesEnds (J.rule judge.now) }
{
    begins_with_end(bytes) && judge.leaves_ends()
}

// Whether the last of the bytes is BEL.
fn ends_in_bell(bytes: &[u8]) -> bool
    ensures { result ≡ ends_in_bell bytes.now }
{
    !bytes.is_empty() && bytes[bytes.len() - 1] == 0x07
}

/// Whether the segment is a string that a terminator may end. An operating system command that
/// ends in BEL has its end already.
pub fn awaits_terminator(kind: SegmentKind, bytes: &[u8]) -> bool
    ensures { result ≡ awaits_terminator kind bytes.now }
{
    match kind {
        SegmentKind::Osc => !ends_in_bell(bytes),
        SegmentKind::Dcs | SegmentKind::Apc | SegmentKind::Ignored => true,
        _ => false,
    }
}

/// Whether the segment is a string terminator: 9C, C2 9C or `ESC \`.
pub fn is_terminator(kind: SegmentKind, bytes: &[u8]) -> bool
    ensures { result ≡ is_terminator kind bytes.now }
{
    match kind {
        SegmentKind::Terminator => true,
        SegmentKind::Escape => is_end(bytes),
        _ => false,
    }
}

/// Returns the fate of a segment that by itself has this fate, after a string that had that one:
/// the terminator of a string goes the way of the string. If the string passed, `ESC \` ends it in
/// the output too, and any other terminator is respelled.
pub fn fate_after(string: Option<Fate>, kind: SegmentKind, bytes: &[u8], own: Fate) -> Fate
    ensures { result ≡ fate_after string kind bytes.now own }
{
    match string {
        None => own,
        Some(fate) => {
            if !is_terminator(kind, bytes) {
                own
            } else if is_end(bytes) || fate != Fate::Passed {
                fate
            } else {
                Fate::Respelled
            }
        }
    }
}
