//! Kinds of lines.

use esc_segments::SegmentKind;

/// The kind of a line.
#[derive(Clone, Copy, PartialEq, Eq)]
pub enum Kind {
    /// A run of text.
    Text,
    /// A control.
    Control,
    /// An escape sequence.
    Escape,
    /// A control sequence.
    Csi,
    /// A device control string.
    Dcs,
    /// An operating system command.
    Osc,
    /// An application program command.
    Apc,
    /// A start of string.
    Sos,
    /// A privacy message.
    Pm,
    /// A string terminator of C1.
    St,
    /// A sequence that is cut short.
    Cut,
    /// A character of UTF-8 that is not whole.
    Broken,
    /// A byte that is no part of UTF-8.
    Stray,
    /// A key.
    Key,
    /// A report of the mouse.
    Mouse,
}

/// The words of the options for the kinds, in the order of [`Kind`].
pub const KINDS: &[&str] = &[
    "text", "control", "escape", "csi", "dcs", "osc", "apc", "sos", "pm", "st", "cut", "broken",
    "stray", "key", "mouse",
];

impl Kind {
    /// Returns the kind of a segment that this letter opens.
    pub fn of(segment: SegmentKind, letter: u8) -> Kind {
        match segment {
            SegmentKind::Character => Kind::Text,
            SegmentKind::Broken => Kind::Broken,
            SegmentKind::Stray => Kind::Stray,
            SegmentKind::Control => Kind::Control,
            SegmentKind::Terminator => Kind::St,
            SegmentKind::Escape => Kind::Escape,
            SegmentKind::Csi => Kind::Csi,
            SegmentKind::Dcs => Kind::Dcs,
            SegmentKind::Osc => Kind::Osc,
            SegmentKind::Apc => Kind::Apc,
            SegmentKind::Ignored if letter == b'^' => Kind::Pm,
            SegmentKind::Ignored => Kind::Sos,
            SegmentKind::CutShort => Kind::Cut,
        }
    }

    /// Returns its bit: that of its word in [`KINDS`].
    pub fn bit(self) -> u64 {
        1u64.wrapping_shl(self as u32)
    }

    /// Returns its word.
    pub fn word(self) -> &'static str {
        match KINDS.get(self as usize) {
            Some(word) => *word,
            None => "",
        }
    }

    /// Returns its name.
    pub fn name(self) -> &'static str {
        match self {
            Kind::Text => "text",
            Kind::Control => "control",
            Kind::Escape => "ESC",
            Kind::Csi => "CSI",
            Kind::Dcs => "DCS",
            Kind::Osc => "OSC",
            Kind::Apc => "APC",
            Kind::Sos => "SOS",
            Kind::Pm => "PM",
            Kind::St => "ST",
            Kind::Cut => "sequence cut short",
            Kind::Broken => "broken UTF-8",
            Kind::Stray => "stray byte",
            Kind::Key => "key",
            Kind::Mouse => "mouse",
        }
    }

    /// Words for its kind, if its name does not say it.
    pub fn words(self) -> &'static str {
        match self {
            Kind::Escape => "escape sequence",
            Kind::Csi => "control sequence",
            Kind::Dcs => "device control string",
            Kind::Osc => "operating system command",
            Kind::Apc => "application program command",
            Kind::Sos => "start of string",
            Kind::Pm => "privacy message",
            Kind::St => "string terminator",
            _ => "",
        }
    }

    /// Returns whether it is a string: it has a text.
    pub fn is_string(self) -> bool {
        matches!(
            self,
            Kind::Dcs | Kind::Osc | Kind::Apc | Kind::Sos | Kind::Pm
        )
    }
}
