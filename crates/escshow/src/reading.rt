//! The terminal of a stream.
ghost use Rattle.std.specs.Prelude.{◌≤◌, IfOk, length};

use crate::display::Display;
use crate::fault::Fault;
use crate::frames::Frames;
use crate::kept::unless;
use crate::options::{DEFAULT_SIZE, Options};
use crate::recorded::Recorded;
use command_line::{ErrorCapture, Reason};
use esc_decode::Mask;
use std::alloc::Global;
use std::io::Read;

/// Returns the terminal that was fed a stream, or the texts of a recording, by these options, and
/// the lines that it leaves. While a recording is played, its screens go to `frames`.
pub fn display_of<R: Read + Drop, F: Frames>(
    alloc: Global,
    options: Options,
    input: R,
    frames: &mut F,
) -> Result<Display, Fault> {
    let mut chunk = fallible_alloc::read_buffer(alloc)?;
    let mut reader = ErrorCapture::new(input);
    if options.is_cast {
        played(alloc, options, &mut reader, &mut chunk, frames)
    } else {
        fed(alloc, options, &mut reader, &mut chunk)
    }
}

// Returns the terminal that was fed a stream.
fn fed<R: Read>(
    alloc: Global,
    options: Options,
    reader: &mut ErrorCapture<R>,
    chunk: &mut [u8],
) -> Result<Display, Fault> {
    let size = options.size.unwrap_or(DEFAULT_SIZE);
    let mut display = Display::new(alloc, size, options)?;
    let done = feed_whole(&mut display, reader, chunk);
    unless(done, display)
}

// Returns the terminal that was fed the texts of a recording.
fn played<R: Read, F: Frames>(
    alloc: Global,
    options: Options,
    reader: &mut ErrorCapture<R>,
    chunk: &mut [u8],
    frames: &mut F,
) -> Result<Display, Fault> {
    let mut recorded = Recorded::new(alloc, options);
    let done = play(&mut recorded, reader, chunk, frames);
    match unless(done, recorded) {
        Ok(recorded) => ended(recorded.into_display()),
        Err(fault) => Err(fault),
    }
}

// Ends a terminal, if there is one.
fn ended(display: Result<Display, Fault>) -> Result<Display, Fault> {
    match display {
        Ok(mut display) => {
            let done = end(&mut display);
            unless(done, display)
        }
        Err(fault) => Err(fault),
    }
}

fn end(display: &mut Display) -> Result<(), Fault> {
    Ok(display.end()?)
}

// Feeds a stream to a terminal, and ends it.
fn feed_whole<R: Read>(
    display: &mut Display,
    reader: &mut ErrorCapture<R>,
    chunk: &mut [u8],
) -> Result<(), Fault> {
    feed(display, reader, chunk)?;
    end(display)
}

// Feeds a stream to a terminal, chunk by chunk. A byte 80 to 9F that is no part of a character
// begins nothing.
fn feed<R: Read>(
    display: &mut Display,
    reader: &mut ErrorCapture<R>,
    chunk: &mut [u8],
) -> Result<(), Fault> {
    let mut mask = Mask::new();
    for _ in 0..u64::MAX {
        let count = read(reader, chunk)?;
        if count == 0 {
            break;
        }
        let bytes = &mut chunk[..count];
        mask.take_all(bytes);
        display.feed(bytes)?;
    }
    Ok(())
}

// Plays a recording, chunk by chunk, up to its end or the time that is asked for.
fn play<R: Read, F: Frames>(
    recorded: &mut Recorded,
    reader: &mut ErrorCapture<R>,
    chunk: &mut [u8],
    frames: &mut F,
) -> Result<(), Fault> {
    for _ in 0..u64::MAX {
        let count = read(reader, chunk)?;
        if count == 0 || recorded.is_over() {
            break;
        }
        recorded.take(&chunk[..count], frames)?;
    }
    recorded.end(frames)
}

// Reads some bytes, 0 at the end.
fn read<R: Read>(reader: &mut ErrorCapture<R>, chunk: &mut [u8]) -> Result<usize, Fault>
    ensures { IfOk result (λ n. n ≤ length chunk.new) }
{
    match reader.read(chunk) {
        Ok(count) => Ok(count),
        Err(error) => Err(Fault::Read(Reason::of(&error))),
    }
}
