//! Renditions that go on at the place of a stream's cut.

use crate::leads::{Lead, Sieve, lead_of};
use esc_decode::Encoding;
use esc_frame::{VTActor, VTParser};
use esc_pen::Pen;
use esc_values::CsiParam;
use memchr::memchr3;
use std::alloc::{AllocError, Global};
use typed_functions::Function;

// The controls that begin a line, beside a line feed.
const VT: u8 = 0x0b;

const FF: u8 = 0x0c;

const IND: u8 = 0x84;

const NEL: u8 = 0x85;

/// The renditions that hold after some of a stream.
#[derive(Drop)]
pub(crate) struct Carried {
    encoding: Encoding,
    sieve: Sieve,
    framer: VTParser,
    hold: Hold,
}

impl Carried {
    /// Returns the renditions at the beginning of a stream in this encoding. Takes no memory.
    pub fn new(alloc: Global, encoding: Encoding) -> Carried {
        Carried {
            encoding,
            sieve: Sieve::new(encoding),
            framer: VTParser::with_limit(alloc, 0),
            hold: Hold {
                pen: Pen::plain(),
                begins_line: false,
            },
        }
    }

    /// Takes bytes more.
    pub fn take(&mut self, bytes: &[u8]) {
        let mut rest = bytes;
        while !rest.is_empty() {
            let start = self.text_length(rest).min(rest.len());
            self.pass(&rest[..start]);
            let n = start.saturating_add(self.follow(&rest[start..]));
            rest = &rest[n.max(1).min(rest.len())..];
        }
    }

    /// Returns how many bytes come before the next segment.
    pub fn text_length(&self, bytes: &[u8]) -> usize {
        if !self.framer.is_ground() {
            return 0;
        }
        match lead_of(bytes, self.encoding) {
            Lead::Text(length) => length,
            Lead::Control(_, _) | Lead::More => 0,
        }
    }

    /// Takes some of these bytes, no more than a line has; returns how many, and whether a line
    /// begins after them: after LF, VT, FF, IND and NEL.
    pub fn take_some(&mut self, bytes: &[u8]) -> (usize, bool) {
        let length = self.text_length(bytes).min(bytes.len());
        let text = &bytes[..length];
        if text.is_empty() {
            return self.follow_some(bytes);
        }
        let count = match memchr3(b'\n', VT, FF, text) {
            Some(at) => at.saturating_add(1).min(text.len()),
            None => {
                self.pass(text);
                return (text.len(), false);
            }
        };
        self.pass(&text[..count]);
        (count, true)
    }

    // Does the same for bytes that begin or go on with a segment.
    fn follow_some(&mut self, bytes: &[u8]) -> (usize, bool) {
        if self.is_ground() {
            self.hold.begins_line = false;
        }
        let count = self.follow(bytes);
        (count, self.is_ground() && self.hold.begins_line)
    }

    /// Passes text before the next segment.
    pub fn pass(&mut self, text: &[u8]) {
        self.sieve.pass(text);
    }

    /// Returns the renditions.
    pub fn pen(&self) -> Pen {
        self.hold.pen
    }

    /// Returns whether no sequence and no string is unfinished.
    pub fn is_ground(&self) -> bool {
        self.framer.is_ground()
    }

    /// Returns the control sequences that make them. The error is that memory was refused.
    pub fn text(&self, alloc: Global) -> Result<String, AllocError> {
        let mut text = String::new(alloc);
        self.hold.pen.push_text(&mut text)?;
        Ok(text)
    }

    /// Follows a segment to its end, as far as it is there; returns the number of these bytes.
    pub fn follow(&mut self, bytes: &[u8]) -> usize {
        let mut n = 0usize;
        for byte in bytes {
            n = n.saturating_add(1);
            let byte = self.sieve.take(*byte);
            if self.framer.parse(&[byte], &mut self.hold).is_err() {
                return bytes.len();
            }
            if self.framer.is_ground() {
                return n;
            }
        }
        n
    }
}

// The renditions that hold.
#[derive(Drop)]
struct Hold {
    pen: Pen,
    // says whether a line begins after the segment that was followed
    begins_line: bool,
}

impl VTActor for Hold {
    ghost takes = { λ _ _ _. Unit {0} };

    ghost refuses = { λ _ _ _. ⊥ };

    ghost is_ready = { λ _. Unit {0} };

    ghost may = { λ _ _. Unit {0} };

    fn print(&mut self, _c: char) -> Result<(), AllocError> {
        Ok(())
    }

    fn execute_c0_or_c1(&mut self, control: u8) -> Result<(), AllocError> {
        if matches!(control, b'\n' | VT | FF | IND | NEL) {
            self.begins_line = true;
        }
        Ok(())
    }

    fn dcs_hook(
        &mut self,
        _byte: u8,
        _params: &[i64],
        _intermediates: &[u8],
        _ignored_extra_intermediates: bool,
    ) -> Result<(), AllocError> {
        Ok(())
    }

    fn dcs_put(&mut self, _byte: u8) -> Result<(), AllocError> {
        Ok(())
    }

    fn dcs_unhook(&mut self) -> Result<(), AllocError> {
        Ok(())
    }

    fn esc_dispatch(
        &mut self,
        _params: &[i64],
        intermediates: &[u8],
        _ignored_extra_intermediates: bool,
        byte: u8,
    ) -> Result<(), AllocError> {
        if intermediates.is_empty() && (byte == b'D' || byte == b'E') {
            self.begins_line = true;
        }
        Ok(())
    }

    fn csi_dispatch(
        &mut self,
        params: &[CsiParam],
        parameters_truncated: bool,
        byte: u8,
    ) -> Result<(), AllocError> {
        if let Function::Sgr(renditions) = function_of(params, parameters_truncated, byte) {
            self.pen.select_all(renditions);
        }
        Ok(())
    }

    fn osc_dispatch(&mut self, _params: &[&[u8]]) -> Result<(), AllocError> {
        Ok(())
    }

    fn apc_dispatch(&mut self, _text: &[u8]) -> Result<(), AllocError> {
        Ok(())
    }
}

// Returns the function of a control sequence. If it has more parameters than are kept, the first
// ones count.
fn function_of(params: &[CsiParam], parameters_truncated: bool, byte: u8) -> Function<'_> {
    if parameters_truncated {
        Function::of_kept(params, byte)
    } else {
        Function::of_params(params, byte)
    }
}
