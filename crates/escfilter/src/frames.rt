//! Filters recordings of ttyrec, frame by frame.

use crate::recording::{Cut, Fault, MEMORY, Recording, write};
use esc_filter::StreamFilter;
use esc_normal::Watched;
use std::alloc::Global;
use std::io::Write;

// The length of a frame's header: the seconds, the microseconds and the length of the text have
// four bytes each, the lowest first.
const HEAD: usize = 12;

// The microseconds of a second.
const SECOND: u32 = 1_000_000;

// The header of a frame.
#[derive(Clone, Copy)]
struct Head {
    // the time of the frame: seconds, and microseconds after them
    seconds: u32,
    micros: u32,
    // the length of the text
    length: u32,
}

/// A filter of a recording of ttyrec, which comes in chunks. `F` filters the stream of its texts.
/// The output of each part of a frame is a frame with the same time, unless it is empty: so a frame
/// may become several.
#[derive(Drop)]
pub struct Frames<F> {
    feeding: F,
    // the unfinished header of a frame
    head: Vec<u8>,
    // the time of the last frame
    seconds: u32,
    micros: u32,
    // the bytes of its text that are still to come
    left: u32,
    // the number of frames so far
    count: u64,
}

impl<F: StreamFilter<Global>> Frames<F> {
    /// The beginning of a recording, for a new filter. Takes no memory.
    pub fn new(alloc: Global, feeding: F) -> Frames<F> {
        Frames {
            feeding,
            head: Vec::new(alloc),
            seconds: 0,
            micros: 0,
            left: 0,
            count: 0,
        }
    }

    /// The filter of the whole recording.
    pub fn into_feeding(self) -> F {
        let Frames {
            feeding,
            head: _,
            seconds: _,
            micros: _,
            left: _,
            count: _,
        } = self;
        feeding
    }

    // Takes bytes of the header of a frame, and returns their number.
    fn take_head(&mut self, bytes: &[u8]) -> Result<usize, Fault> {
        let count = bytes.len().min(HEAD.saturating_sub(self.head.len()));
        if self.head.extend_from_slice(&bytes[..count]).is_err() {
            return Err(MEMORY);
        }
        if let Some(head) = head_of(&self.head) {
            self.head.clear();
            self.seconds = head.seconds;
            self.micros = head.micros;
            self.left = head.length;
            self.count = self.count.saturating_add(1);
            if head.micros >= SECOND {
                return Err(Fault::Frame(self.count));
            }
        }
        Ok(count)
    }

    // Takes bytes of the text of a frame, writes a frame of their output, and returns their number.
    fn take_text<W: Write>(
        &mut self,
        bytes: &[u8],
        writer: &mut Watched<W>,
    ) -> Result<usize, Fault> {
        let most = usize::try_from(self.left).unwrap_or(usize::MAX);
        let count = bytes.len().min(most);
        self.left = self
            .left
            .saturating_sub(u32::try_from(count).unwrap_or(u32::MAX));
        match self.feeding.feed(&bytes[..count]) {
            Ok(()) => self.write_added(writer)?,
            Err(_) => return Err(MEMORY),
        }
        Ok(count)
    }

    // Writes a frame of the output of the last bytes, unless it is empty.
    fn write_added<W: Write>(&self, writer: &mut Watched<W>) -> Result<(), Fault> {
        let text = self.feeding.output();
        if text.is_empty() {
            return Ok(());
        }
        let Ok(length) = u32::try_from(text.len()) else {
            return Err(MEMORY);
        };
        write(writer, &self.seconds.to_le_bytes())?;
        write(writer, &self.micros.to_le_bytes())?;
        write(writer, &length.to_le_bytes())?;
        write(writer, text.as_bytes())
    }
}

impl<F: StreamFilter<Global>> Recording for Frames<F> {
    fn take<W: Write>(&mut self, bytes: &[u8], writer: &mut Watched<W>) -> Result<(), Fault> {
        let mut rest = bytes;
        for _ in 0..u64::MAX {
            if rest.is_empty() {
                break;
            }
            let count = if self.left > 0 {
                self.take_text(rest, writer)?
            } else {
                self.take_head(rest)?
            };
            rest = rest.get(count..).unwrap_or(b"");
        }
        Ok(())
    }

    fn end<W: Write>(&mut self, writer: &mut Watched<W>) -> Result<Option<Cut>, Fault> {
        match self.feeding.finish() {
            Ok(()) => self.write_added(writer)?,
            Err(_) => return Err(MEMORY),
        }
        if !self.head.is_empty() {
            Ok(Some(Cut::Frame(self.count.saturating_add(1))))
        } else if self.left > 0 {
            Ok(Some(Cut::Frame(self.count)))
        } else {
            Ok(None)
        }
    }
}

// The header in these bytes, or none if they are fewer.
fn head_of(bytes: &[u8]) -> Option<Head> {
    match bytes {
        [a, b, c, d, e, f, g, h, i, j, k, l] => Some(Head {
            seconds: u32::from_le_bytes([*a, *b, *c, *d]),
            micros: u32::from_le_bytes([*e, *f, *g, *h]),
            length: u32::from_le_bytes([*i, *j, *k, *l]),
        }),
        _ => None,
    }
}
