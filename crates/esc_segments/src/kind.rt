//! Kinds of segments.
#![tactic(auto)]

/// The kind of a segment. Bytes are in hexadecimal.
#[derive(Clone, Copy, PartialEq, Eq, Debug)]
pub enum SegmentKind {
    /// A character: 20 to 7F, or a well-formed sequence of UTF-8 that is no control.
    Character,
    /// A prefix of a sequence of UTF-8 whose next byte does not continue it; or, unfinished, at the
    /// end of the input.
    Broken,
    /// A byte A0 to C1 or F5 to FF, which begins no sequence of UTF-8.
    Stray,
    /// A control by itself: one of C0 (ECMA-48, 5.2) but ESC, or one of C1 (5.3) that opens
    /// and ends nothing, raw or as the two bytes of its UTF-8.
    Control,
    /// A string terminator (ST) of C1 by itself: 9C or C2 9C. `ESC \` is an
    /// [`Escape`](SegmentKind::Escape).
    Terminator,
    /// An escape sequence: ESC, intermediates 20 to 2F and a final byte 30 to 7E.
    Escape,
    /// A control sequence (ECMA-48, 5.4): CSI, bytes 20 to 3F and a final byte 40 to 7E, also if
    /// its parameters and intermediates are out of order.
    Csi,
    /// A device control string (ECMA-48, 5.6, as the other strings): DCS, its header up to a final
    /// byte 40 to 7E, and its data, also if its header is out of order.
    Dcs,
    /// An operating system command: OSC, its text, and the BEL that ends it, if one does.
    Osc,
    /// An application program command: APC and its bytes.
    Apc,
    /// A start of string (SOS) or a privacy message (PM), and its bytes.
    Ignored,
    /// An escape sequence, a control sequence or a device control string's header that ends before
    /// its final byte.
    CutShort,
}
