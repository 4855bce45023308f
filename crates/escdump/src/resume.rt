//! This module says how an unfinished segment goes on.

use esc_segments::{Segment, SegmentKind};

/// Returns some bytes that are as unfinished as this segment without the bytes that are [held
/// back](held_back): whatever follows goes on in the same way. So no byte of a long segment has to
/// be looked at twice.
pub fn resumed(segment: Segment<'_>) -> &'static [u8] {
    match segment.kind {
        SegmentKind::Osc => b"\x1b]",
        SegmentKind::Apc => b"\x1b_",
        SegmentKind::Ignored => b"\x1bX",
        SegmentKind::Dcs => b"\x1bPp",
        SegmentKind::CutShort => opening(segment.bytes),
        SegmentKind::Character
        | SegmentKind::Broken
        | SegmentKind::Stray
        | SegmentKind::Control
        | SegmentKind::Terminator
        | SegmentKind::Escape
        | SegmentKind::Csi => b"",
    }
}

// Returns the opener of a sequence that is cut short: a control sequence, a device control string,
// or an escape sequence without or with intermediates.
fn opening(bytes: &[u8]) -> &'static [u8] {
    match bytes {
        [0x1b, rest @ ..] => {
            for byte in rest {
                match *byte {
                    b'[' => return b"\x1b[",
                    b'P' => return b"\x1bP",
                    0x20..=0x7e => return b"\x1b ",
                    _ => {}
                }
            }
            b"\x1b"
        }
        [0x90, ..] | [0xc2, 0x90, ..] => b"\x1bP",
        _ => b"\x1b[",
    }
}

/// Returns the number of bytes at the end of this unfinished segment that may turn out to belong to
/// the next: those of a character that is begun in the text of an operating system command, since
/// C2 may be half of a control, and of one that is begun in text.
pub fn held_back(segment: Segment<'_>) -> usize {
    match segment.kind {
        SegmentKind::Osc => begun_character(segment.bytes),
        SegmentKind::Broken => segment.bytes.len(),
        SegmentKind::Character
        | SegmentKind::Stray
        | SegmentKind::Control
        | SegmentKind::Terminator
        | SegmentKind::Escape
        | SegmentKind::Csi
        | SegmentKind::Dcs
        | SegmentKind::Apc
        | SegmentKind::Ignored
        | SegmentKind::CutShort => 0,
    }
}

// Returns the number of bytes of an operating system command's text from the last one on that
// begins a character, if that is one of the last three.
fn begun_character(bytes: &[u8]) -> usize {
    let opener = match bytes {
        [0xc2, ..] => 2,
        _ => 1,
    };
    let mut count = 0;
    for at in opener.max(bytes.len().saturating_sub(3))..bytes.len() {
        if bytes[at] >= 0xc2 {
            count = bytes.len() - at;
        }
    }
    count
}
