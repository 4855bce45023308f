//! An event of a call, as numbers and places.
#![tactic(auto)]

ghost use Rattle.std.specs.Prelude.{◌≡◌, false, pos};

/// There is no event: all bytes were taken.
pub const NONE: u32 = 0;

/// A run of characters, as a place in the bytes of the call.
pub const TEXT: u32 = 1;

/// A character that is no place in the bytes of the call: its number is `byte`.
pub const CHARACTER: u32 = 2;

/// A control of C0 or C1: `byte`.
pub const CONTROL: u32 = 3;

/// An escape sequence: its intermediates, and its final byte.
pub const ESCAPE: u32 = 4;

/// A control sequence: its parameters, and its final byte.
pub const CSI: u32 = 5;

/// An operating system command: its text, as a place in the buffer.
pub const OSC: u32 = 6;

/// A device control string begins: its final byte, its intermediates, and its parameter bytes as a
/// place in the buffer.
pub const DCS: u32 = 7;

/// A run of data of a device control string, as a place in the bytes of the call.
pub const DATA: u32 = 8;

/// A byte of data of a device control string.
pub const DATA_BYTE: u32 = 9;

/// A device control string ends.
pub const DCS_END: u32 = 10;

/// An application program command: its text, as a place in the buffer.
pub const APC: u32 = 11;

/// The parser failed, and gives no more events. A state that its own calls reached never fails.
pub const FAILED: u32 = 12;

/// A string, or the header of a device control string, ended and was longer than the lower half of
/// the buffer: its event is not handed out.
pub const LIMIT: u32 = 13;

/// A parameter of a control sequence: a number, or a byte 3A to 3F or 20 to 2F.
#[repr(C)]
#[derive(Clone, Copy)]
pub struct EscEntry {
    /// The number, if the parameter is no byte.
    pub number: i64,
    /// The byte, if the parameter is one.
    pub byte: u8,
    /// Whether the parameter is a byte.
    pub is_byte: bool,
}

impl EscEntry {
    /// Returns the number 0.
    pub fn none() -> Self
        ensures number { result.number ≡ pos 0 }
        ensures kind { result.is_byte ≡ false }
    {
        EscEntry {
            number: 0,
            byte: 0,
            is_byte: false,
        }
    }
}

/// An event. `kind` says which one, and what else has a meaning.
#[repr(C)]
#[derive(Drop)]
pub struct EscEvent {
    /// Which event: [`NONE`] to [`LIMIT`].
    pub kind: u32,
    /// The character, the control, the final byte or the byte of data.
    pub byte: u32,
    /// Where the text begins, and its length in bytes.
    pub start: usize,
    pub length: usize,
    /// The first two intermediates, and how many of them there are.
    pub intermediates: [u8; 2],
    pub kept: usize,
    /// Whether more intermediates, or more parameters, came than are kept.
    pub has_more: bool,
    /// The first 256 parameters, and how many of them there are.
    pub count: usize,
    pub csi_params: [EscEntry; 256],
}

impl EscEvent {
    /// Returns no event.
    pub fn new() -> Self
        ensures { result.kind ≡ NONE }
    {
        EscEvent {
            kind: NONE,
            byte: 0,
            start: 0,
            length: 0,
            intermediates: [0; 2],
            kept: 0,
            has_more: false,
            count: 0,
            csi_params: [EscEntry::none(); 256],
        }
    }

    /// Makes it no event. Its parameters and intermediates stay, and are not counted.
    pub fn clear(&mut self)
        ensures kind { self.new.kind ≡ NONE }
        ensures none { (self.new.start ≡ 0) × (self.new.length ≡ 0) × (self.new.kept ≡ 0)
            × (self.new.count ≡ 0) }
    {
        self.kind = NONE;
        self.byte = 0;
        self.start = 0;
        self.length = 0;
        self.kept = 0;
        self.has_more = false;
        self.count = 0;
    }
}
