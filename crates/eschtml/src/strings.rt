//! Strings of a stream that do not end, and so take the text after them from a page.
ghost use Rattle.std.specs.Prelude.{◌<◌, ◌≤◌, length};

use crate::feeds::line_feeds;
use esc_decode::{CodePage, Encoding, Mask};
use esc_frame::{VTActor, VTParser};
use esc_values::CsiParam;
use memchr::{memchr, memchr2};
use std::alloc::{AllocError, Global};
use std::simd::prelude::*;

const ESC: u8 = 0x1b;

// How many bytes are looked at one by one.
const NEAR: usize = 16;

// How many bytes are looked at together.
const BLOCK: usize = 64;

/// The string that is unfinished at the end of a stream.
#[derive(Clone, Copy)]
pub struct Lost {
    /// The line that it begins in, from 1.
    pub line: u64,
    /// How many bytes it has.
    pub bytes: u64,
}

/// Follows the strings of a stream by its framing, in the stream's encoding; the bytes between them
/// are searched for an opener of a string.
#[derive(Drop)]
pub struct Strings {
    encoding: Encoding,
    framer: VTParser,
    mask: Mask,
    // how many line feeds came
    feeds: u64,
    // the segment that is unfinished
    open: Lost,
}

impl Strings {
    /// Those of a stream in this encoding, at its beginning. Takes no memory.
    pub fn new(alloc: Global, encoding: Encoding) -> Strings {
        Strings {
            encoding,
            framer: VTParser::with_limit(alloc, 0),
            mask: Mask::new(),
            feeds: 0,
            open: Lost { line: 1, bytes: 0 },
        }
    }

    /// Takes bytes more.
    pub fn take(&mut self, bytes: &[u8]) {
        let mut rest = bytes;
        while !rest.is_empty() {
            let n = if self.framer.is_ground() {
                self.pass(rest)
            } else {
                self.follow(rest)
            };
            rest = &rest[n.max(1).min(rest.len())..];
        }
    }

    /// The string that is unfinished now, at the end of the stream: in one, two letters more are
    /// no text.
    pub fn lost(mut self) -> Option<Lost> {
        if self.framer.is_ground() || self.framer.has_failed() {
            return None;
        }
        let mut seen = Seen { any: false };
        match self.framer.parse(b"xx", &mut seen) {
            Ok(()) if !seen.any => Some(self.open),
            _ => None,
        }
    }

    // Passes text up to bytes that may open a string, which it begins with; returns its length.
    fn pass(&mut self, bytes: &[u8]) -> usize {
        let at = self.passed(bytes).min(bytes.len());
        let passed = line_feeds(bytes.get(..at).unwrap_or(bytes));
        self.feeds = self.feeds.saturating_add(passed);
        let here = bytes.get(at..).unwrap_or(bytes);
        if here.is_empty() {
            return at;
        }
        self.mask = Mask::new();
        self.begin();
        at.saturating_add(self.follow(here))
    }

    // The number of bytes before those that may open a string.
    fn passed(&self, bytes: &[u8]) -> usize {
        let mut rest = bytes;
        while !rest.is_empty() {
            let here = self.after_blocks(rest);
            let at = match self.candidate(here) {
                Some(at) => at,
                None => here.len(),
            };
            if !is_other(here.get(at..).unwrap_or(here)) {
                return bytes.len().saturating_sub(here.len()).saturating_add(at);
            }
            rest = &here[at.saturating_add(2).min(here.len())..];
        }
        bytes.len()
    }

    // The bytes after the blocks that come first and open no string, of which there are some in
    // UTF-8 alone.
    fn after_blocks<'a>(&self, bytes: &'a [u8]) -> &'a [u8]
        ensures { length result.now ≤ length bytes.now }
    {
        match self.encoding {
            Encoding::Utf8 => after_clear_blocks(bytes),
            Encoding::EightBit | Encoding::CodePage(_) => bytes,
        }
    }

    // The place of the first byte that may open a string.
    fn candidate(&self, bytes: &[u8]) -> Option<usize> {
        match self.encoding {
            Encoding::Utf8 => first_of_two(bytes),
            Encoding::EightBit | Encoding::CodePage(CodePage::Latin1WithControls) => {
                first_of_any(bytes)
            }
            Encoding::CodePage(_) => memchr(ESC, bytes),
        }
    }

    // Follows the segment that is unfinished to its end, as far as it is there; returns the number
    // of these bytes. If memory is refused, nothing more is followed.
    fn follow(&mut self, bytes: &[u8]) -> usize {
        let mut n = 0usize;
        for byte in bytes {
            if *byte == ESC && self.open.bytes > 0 {
                self.begin();
            }
            n = n.saturating_add(1);
            self.open.bytes = self.open.bytes.saturating_add(1);
            self.feeds = self.feeds.saturating_add(u64::from(*byte == b'\n'));
            if !self.frame(*byte) {
                return bytes.len();
            }
            if self.framer.is_ground() {
                return n;
            }
        }
        n
    }

    // Something begins here.
    fn begin(&mut self) {
        self.open = Lost {
            line: self.feeds.saturating_add(1),
            bytes: 0,
        };
    }

    // Frames the bytes that a byte becomes; returns whether memory was there.
    fn frame(&mut self, byte: u8) -> bool {
        let mut seen = Seen { any: false };
        let framed = match self.encoding {
            Encoding::Utf8 => self.framer.parse(&[self.mask.take(byte)], &mut seen),
            Encoding::CodePage(CodePage::Latin1WithControls) if is_control(byte) => {
                self.framer.parse(&[0xc2, byte], &mut seen)
            }
            Encoding::CodePage(_) if byte >= 0x80 => self.framer.parse(&[0xff], &mut seen),
            _ => self.framer.parse(&[byte], &mut seen),
        };
        framed.is_ok()
    }
}

// The bytes after the blocks that come first and in which no string opens.
fn after_clear_blocks(bytes: &[u8]) -> &[u8]
    ensures { length result.now ≤ length bytes.now }
{
    let mut rest = bytes;
    while rest.len() > BLOCK && is_clear(rest) {
        rest = &rest[BLOCK..];
    }
    rest
}

// Whether each ESC in the first block begins a control sequence, and no byte there may begin a C1
// control in UTF-8.
#[inline]
fn is_clear(bytes: &[u8]) -> bool
    requires { BLOCK < length bytes.now }
{
    let here = u8x64::from_slice(bytes);
    let after = u8x64::from_slice(&bytes[1..]);
    let escapes = here.simd_eq(u8x64::splat(ESC)) & after.simd_ne(u8x64::splat(b'['));
    let marks = escapes | here.simd_eq(u8x64::splat(0xc2));
    marks.to_bitmask() == 0
}

// The place of the first byte that is ESC or begins a C1 control in UTF-8. The first few are looked
// at one by one, since in a log with colours few come before a sequence.
fn first_of_two(bytes: &[u8]) -> Option<usize> {
    let near = bytes.get(..NEAR).unwrap_or(bytes);
    for (at, byte) in near.iter().enumerate() {
        if *byte == ESC || *byte == 0xc2 {
            return Some(at);
        }
    }
    let far = bytes.get(near.len()..).unwrap_or(&[]);
    match memchr2(ESC, 0xc2, far) {
        Some(at) => Some(at.saturating_add(near.len())),
        None => None,
    }
}

// The place of the first byte that is ESC or no ASCII.
fn first_of_any(bytes: &[u8]) -> Option<usize> {
    for (at, byte) in bytes.iter().enumerate() {
        if *byte == ESC || 0x80 <= *byte {
            return Some(at);
        }
    }
    None
}

// Whether these bytes begin with two that open no string, the second of which is not looked at
// again: a control sequence, an escape sequence or, in UTF-8, another character.
fn is_other(bytes: &[u8]) -> bool {
    match bytes {
        [ESC, b'P' | b'X' | b']' | b'^' | b'_', ..] => false,
        [ESC, second, ..] => 0x30 <= *second && *second < 0x7f,
        [0xc2, second, ..] => 0xa0 <= *second && *second <= 0xbf,
        _ => false,
    }
}

// Whether a byte is a control of C1.
fn is_control(byte: u8) -> bool {
    0x80 <= byte && byte <= 0x9f
}

// Whether any character was printed.
#[derive(Drop)]
struct Seen {
    any: bool,
}

impl VTActor for Seen {
    ghost takes = { λ _ _ _. Unit {0} };

    ghost refuses = { λ _ _ _. ⊥ };

    ghost is_ready = { λ _. Unit {0} };

    ghost may = { λ _ _. Unit {0} };

    fn print(&mut self, _c: char) -> Result<(), AllocError> {
        self.any = true;
        Ok(())
    }

    fn execute_c0_or_c1(&mut self, _control: u8) -> Result<(), AllocError> {
        Ok(())
    }

    fn dcs_hook(
        &mut self,
        _byte: u8,
        _params: &[i64],
        _intermediates: &[u8],
        _ignored_extra_intermediates: bool,
    ) -> Result<(), AllocError> {
        Ok(())
    }

    fn dcs_put(&mut self, _byte: u8) -> Result<(), AllocError> {
        Ok(())
    }

    fn dcs_unhook(&mut self) -> Result<(), AllocError> {
        Ok(())
    }

    fn esc_dispatch(
        &mut self,
        _params: &[i64],
        _intermediates: &[u8],
        _ignored_extra_intermediates: bool,
        _byte: u8,
    ) -> Result<(), AllocError> {
        Ok(())
    }

    fn csi_dispatch(
        &mut self,
        _params: &[CsiParam],
        _parameters_truncated: bool,
        _byte: u8,
    ) -> Result<(), AllocError> {
        Ok(())
    }

    fn osc_dispatch(&mut self, _params: &[&[u8]]) -> Result<(), AllocError> {
        Ok(())
    }

    fn apc_dispatch(&mut self, _text: &[u8]) -> Result<(), AllocError> {
        Ok(())
    }
}
