//! Runs of characters in ground.
#![tactic(auto)]

ghost use Rattle.std.specs.Prelude.{◌≤◌, ◌<◌, length};
ghost use Rattle.heapless_parser.specs.Reads.{BeginsWithText};

use esc_frame::runs::scans::{ascii_run, free_run};

/// Returns the length of a run of characters at the first byte. It need not be the longest.
#[inline(always)]
pub fn text_run(bytes: &[u8]) -> usize
    requires { 0 < length bytes.now }
    ensures { BeginsWithText bytes.now result }
{
    if bytes[0] < 0x20 {
        0
    } else if bytes[0] < 0x80 {
        ascii_text(bytes)
    } else if bytes.len() < 2 {
        0
    } else {
        wide_text(bytes)
    }
}

// Returns how many bytes 20 to 7F come first.
#[inline(always)]
fn ascii_text(bytes: &[u8]) -> usize
    ensures { BeginsWithText bytes.now result }
{
    ascii_run(bytes)
}

// Returns how many bytes 20 to 7F come first, one after another.
#[inline(always)]
fn few_text(bytes: &[u8]) -> usize
    ensures { BeginsWithText bytes.now result }
{
    let mut at = 0;
    while at < bytes.len() && 0x20 <= bytes[at] && bytes[at] < 0x80 {
        at += 1;
    }
    at
}

/// Returns how many bytes 20 to 7F come first. If `few`, it looks at them one by one.
#[inline(always)]
pub fn plain_text(bytes: &[u8], few: bool) -> usize
    ensures { BeginsWithText bytes.now result }
{
    if few {
        few_text(bytes)
    } else {
        ascii_text(bytes)
    }
}

// Returns how many bytes the character has that begins with this byte.
#[inline(always)]
fn size_of(first: u8) -> usize {
    if first < 0xe0 {
        2
    } else if first < 0xf0 {
        3
    } else {
        4
    }
}

// Returns the place of the character that the bytes end in, if it is unfinished, or `end`.
#[inline(always)]
fn before_cut(bytes: &[u8], end: usize) -> usize
    requires { end ≤ length bytes.now }
    ensures { result ≤ end }
{
    if end < bytes.len() {
        return end;
    }
    let mut at = end;
    while 0 < at && end - at < 3 && bytes[at - 1] & 0xc0 == 0x80 {
        at -= 1;
    }
    if 0 < at && bytes[at - 1] >= 0xc0 && end - at + 1 < size_of(bytes[at - 1]) {
        at - 1
    } else {
        end
    }
}

// Returns the length of a well-formed run, or 0. An unfinished character at its end is left out.
#[inline(never)]
fn wide_text(bytes: &[u8]) -> usize
    ensures { BeginsWithText bytes.now result }
{
    let free = free_run(bytes);
    let run = before_cut(bytes, free);
    match simdutf8::basic::from_utf8(&bytes[..run]) {
        Ok(_) => run,
        Err(_) => 0,
    }
}
