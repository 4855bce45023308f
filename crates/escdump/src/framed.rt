//! The bytes that are given to the framer.

use crate::item::Item;
use esc_segments::SegmentKind;

/// Returns whether a segment that comes in chunks is given to the framer: it is a control sequence,
/// or one in which controls may be. Others leave the framer as it was.
pub fn is_framed(kind: SegmentKind) -> bool {
    match kind {
        SegmentKind::Escape
        | SegmentKind::Csi
        | SegmentKind::Dcs
        | SegmentKind::Osc
        | SegmentKind::Apc
        | SegmentKind::Ignored
        | SegmentKind::CutShort => true,
        SegmentKind::Character
        | SegmentKind::Broken
        | SegmentKind::Stray
        | SegmentKind::Control
        | SegmentKind::Terminator => false,
    }
}

/// Returns whether the last byte of a segment does not end it for the framer.
pub fn is_left_open(kind: SegmentKind) -> bool {
    is_framed(kind) && kind != SegmentKind::Escape && kind != SegmentKind::Csi
}

/// Returns whether an item that came whole is a control sequence, or may have controls inside it:
/// the controls of a string come before its text.
pub fn may_hold_controls(kind: SegmentKind, item: &Item) -> bool {
    match kind {
        SegmentKind::Csi => true,
        SegmentKind::Osc | SegmentKind::Apc | SegmentKind::Ignored => item.has_controls(),
        SegmentKind::Escape | SegmentKind::Dcs | SegmentKind::CutShort => {
            has_control_after_first(item.bytes())
        }
        SegmentKind::Character
        | SegmentKind::Broken
        | SegmentKind::Stray
        | SegmentKind::Control
        | SegmentKind::Terminator => false,
    }
}

// Returns whether bytes after the first are controls of C0.
fn has_control_after_first(bytes: &[u8]) -> bool {
    let mut has_any = false;
    if let [_, rest @ ..] = bytes {
        for byte in rest {
            has_any = (*byte < 0x20) | has_any;
        }
    }
    has_any
}
