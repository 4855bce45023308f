//! Screens that are painted, and screens that another one leads to.

use crate::seen::{COLUMNS, ROWS, Seen, shows_same};
use std::alloc::{AllocError, Global};

// The state that another terminal was left with.
const BEFORE: &[u8] = b"\x1b[2;3r\x1b[?6h\x1b[4h\x1b(0\x1b[41;1mold\x1b[?7l";

// Returns a terminal that read these chunks.
fn fed<H: Copy, T: Seen<H>>(heap: H, chunks: &[&[u8]]) -> Result<T, AllocError> {
    let mut terminal = T::sized(heap, COLUMNS, ROWS)?;
    for chunk in chunks {
        terminal.read(chunk)?;
    }
    Ok(terminal)
}

// Returns the text that paints the screen of a terminal.
fn text_of<H: Copy, T: Seen<H>>(alloc: Global, terminal: &T) -> Result<String, AllocError> {
    let mut text = String::new(alloc);
    terminal.push_painting(&mut text)?;
    Ok(text)
}

/// Returns the text that paints the screen of a stream.
pub fn painting<H: Copy, T: Seen<H>>(
    alloc: Global,
    heap: H,
    stream: &[u8],
) -> Result<String, AllocError> {
    let terminal: T = fed(heap, &[stream])?;
    text_of(alloc, &terminal)
}

/// Returns whether a stream's screen is painted so that a new terminal shows it, and one that
/// showed others.
pub fn is_painted<H: Copy, T: Seen<H>>(
    alloc: Global,
    heap: H,
    stream: &[u8],
) -> Result<bool, AllocError> {
    let text = painting::<H, T>(alloc, heap, stream)?;
    let is_new = show_as::<H, T>(heap, &[text.as_bytes()], stream)?;
    let is_over = show_as::<H, T>(heap, &[BEFORE, text.as_bytes()], stream)?;
    Ok(is_new & is_over)
}

// Returns whether these chunks show the screen of a stream.
fn show_as<H: Copy, T: Seen<H>>(
    heap: H,
    chunks: &[&[u8]],
    stream: &[u8],
) -> Result<bool, AllocError> {
    let wanted: T = fed(heap, &[stream])?;
    shows(heap, chunks, &wanted)
}

// Returns whether they show what a terminal does.
fn shows<H: Copy, T: Seen<H>>(heap: H, chunks: &[&[u8]], wanted: &T) -> Result<bool, AllocError> {
    let shown: T = fed(heap, chunks)?;
    Ok(shows_same(wanted, &shown))
}

/// Returns the text that leads from the screen of a stream to that of another.
pub fn lead<H: Copy, T: Seen<H>>(
    alloc: Global,
    heap: H,
    stream: &[u8],
    to: &[u8],
) -> Result<String, AllocError> {
    let from: T = fed(heap, &[stream])?;
    lead_from(alloc, heap, &from, to)
}

/// Returns the text that leads to the screen of a stream from a smaller one.
pub fn lead_from_smaller<H: Copy, T: Seen<H>>(
    alloc: Global,
    heap: H,
    to: &[u8],
) -> Result<String, AllocError> {
    let smaller = T::sized(heap, 5, 2)?;
    lead_from(alloc, heap, &smaller, to)
}

fn lead_from<H: Copy, T: Seen<H>>(
    alloc: Global,
    heap: H,
    from: &T,
    to: &[u8],
) -> Result<String, AllocError> {
    let new: T = fed(heap, &[to])?;
    difference_of(alloc, from, &new)
}

fn difference_of<H: Copy, T: Seen<H>>(
    alloc: Global,
    from: &T,
    to: &T,
) -> Result<String, AllocError> {
    let mut text = String::new(alloc);
    from.push_difference(to, &mut text)?;
    Ok(text)
}

/// Returns whether a terminal that read a stream, and one to which its screen was painted, are led
/// to the screen of another stream.
pub fn is_led<H: Copy, T: Seen<H>>(
    alloc: Global,
    heap: H,
    stream: &[u8],
    to: &[u8],
) -> Result<bool, AllocError> {
    let lead = lead::<H, T>(alloc, heap, stream, to)?;
    let painting = painting::<H, T>(alloc, heap, stream)?;
    let is_led = show_as::<H, T>(heap, &[stream, lead.as_bytes()], to)?;
    let chunks: &[&[u8]] = &[BEFORE, painting.as_bytes(), lead.as_bytes()];
    Ok(is_led & show_as::<H, T>(heap, chunks, to)?)
}
