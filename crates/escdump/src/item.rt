//! A run of text, or a segment.

use crate::code::Code;
use crate::kind::Kind;
use esc_segments::SegmentKind;
use std::alloc::Global;

/// The item that comes now: a run of text, or a segment.
#[derive(Drop)]
pub struct Item {
    /// Says how many bytes of the stream come before it.
    pub place: u64,
    /// Says how many bytes of it came.
    pub length: u64,
    /// The time of its first byte, in microseconds, if the stream has times.
    pub time: Option<u64>,
    /// The time of the bytes that come now.
    pub now: Option<u64>,
    /// The kind of its last part.
    pub segment: SegmentKind,
    /// Its number, if it is an operating system command.
    pub code: Code,
    // The kind of the input that a terminal sends by it, if its segment does not say that.
    sent: Option<Kind>,
    // The letter that opens it, as `]`; 0, if it has not come.
    letter: u8,
    // Says how many of its bytes come up to that letter.
    opened: usize,
    // Says how many of its bytes are the string terminator that ends it.
    closed: usize,
    bytes: Vec<u8>,
}

impl Item {
    /// Returns an empty item, at the beginning of a stream. Takes no memory.
    pub fn new(alloc: Global) -> Item {
        Item {
            place: 0,
            length: 0,
            time: None,
            now: None,
            segment: SegmentKind::Control,
            code: Code::new(),
            sent: None,
            letter: 0,
            opened: 0,
            closed: 0,
            bytes: Vec::new(alloc),
        }
    }

    /// Returns whether no byte of it came.
    pub fn is_empty(&self) -> bool {
        self.length == 0
    }

    /// Returns whether it is a run of text.
    pub fn is_text(&self) -> bool {
        self.length > 0 && self.segment == SegmentKind::Character
    }

    /// Returns its kind.
    pub fn kind(&self) -> Kind {
        match self.sent {
            Some(kind) => kind,
            None => Kind::of(self.segment, self.letter),
        }
    }

    /// It is of this kind, whatever its segment is.
    pub fn set_kind(&mut self, kind: Kind) {
        self.sent = Some(kind);
    }

    /// Adds some bytes; it keeps as many as the limit allows, and of a run of text all. Returns
    /// whether memory was there for them.
    pub fn add(&mut self, segment: SegmentKind, bytes: &[u8], limit: usize) -> bool {
        if self.length == 0 {
            self.time = self.now;
        }
        self.segment = segment;
        self.length = self.length.saturating_add(bytes.len() as u64);
        if segment == SegmentKind::Character {
            return self.bytes.extend_from_slice(bytes).is_ok();
        }
        let after = if self.letter == 0 {
            self.open(bytes)
        } else {
            bytes
        };
        if segment == SegmentKind::Osc {
            self.code.take(after);
        }
        let room = limit.saturating_sub(self.bytes.len()).min(bytes.len());
        self.bytes.extend_from_slice(&bytes[..room]).is_ok()
    }

    /// Adds the string terminator that ends it, and returns whether memory was there for it.
    pub fn close(&mut self, bytes: &[u8]) -> bool {
        let is_cut = self.is_cut();
        self.length = self.length.saturating_add(bytes.len() as u64);
        if is_cut {
            return true;
        }
        self.closed = bytes.len();
        self.bytes.extend_from_slice(bytes).is_ok()
    }

    // Looks for the letter that opens it: the first byte 20 to 7E, if it begins with ESC, with
    // controls and bytes past 7F before it; or the letter that a control of C1 has after ESC.
    // Returns the rest.
    fn open<'b>(&mut self, bytes: &'b [u8]) -> &'b [u8] {
        for at in 0..bytes.len() {
            let byte = bytes[at];
            self.opened = self.opened.saturating_add(1);
            match byte {
                0x20..=0x7e => self.letter = byte,
                0x80..=0x9f if self.opened <= 2 => self.letter = byte - 0x40,
                _ => {}
            }
            if self.letter != 0 {
                return &bytes[at + 1..];
            }
        }
        &[]
    }

    /// Returns whether bytes come between ESC and the letter that opens it.
    pub fn has_controls(&self) -> bool {
        self.opened > 2
    }

    /// Returns the bytes that are kept.
    pub fn bytes(&self) -> &[u8] {
        &self.bytes
    }

    /// Returns the bytes after the opener of a sequence or a string, without the BEL or the final
    /// byte that ends one.
    pub fn body(&self) -> &[u8] {
        if self.letter == 0 || self.opened > self.bytes.len() {
            return &[];
        }
        let (_, after) = self.bytes.split_at(self.opened);
        let (body, _) = after.split_at(after.len().saturating_sub(self.closed));
        match (self.segment, body) {
            (SegmentKind::Osc, [rest @ .., 0x07]) => rest,
            (SegmentKind::Csi, [rest @ .., 0x40..=0x7e]) => rest,
            _ => body,
        }
    }

    /// Returns the letter that opens it, as `]`, and those that come after it; for an escape
    /// sequence its intermediates and its final byte.
    pub fn letters(&self) -> (u8, &[u8]) {
        (self.letter, self.body())
    }

    /// Returns whether it has the string terminator that ends it.
    pub fn is_closed(&self) -> bool {
        self.closed > 0
    }

    /// Returns whether not all of its bytes are kept.
    pub fn is_cut(&self) -> bool {
        self.length > self.bytes.len() as u64
    }

    /// Ends the item: the next one has its place after it.
    pub fn end(&mut self) {
        self.place = self.place.saturating_add(self.length);
        self.length = 0;
        self.sent = None;
        self.code = Code::new();
        self.letter = 0;
        self.opened = 0;
        self.closed = 0;
        self.bytes.clear();
    }
}
