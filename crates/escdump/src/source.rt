//! This module reads a stream from the bytes of a file: they are one, or a recording of one.

use crate::dump::Dump;
use crate::options::{Options, Recorded};
use dump_time::{Cast, TimeError, Typescript};
use std::alloc::Global;

/// Reads the bytes of a file as they come.
#[derive(Drop)]
pub struct Source<'t> {
    recorded: Recorded,
    // Says whether the typed input is asked for.
    is_input: bool,
    cast: Cast,
    typescript: Typescript<'t>,
}

impl<'t> Source<'t> {
    /// Returns a file before its first read. Takes no memory.
    pub fn new(alloc: Global, options: Options<'t>) -> Source<'t> {
        Source {
            recorded: options.recorded,
            is_input: options.is_input,
            cast: Cast::new(alloc),
            typescript: Typescript::new(options.timing, options.is_input),
        }
    }

    /// Takes bytes of the file, after which more may be there at once, and gives the dump those of
    /// the stream.
    pub fn take(
        &mut self,
        bytes: &[u8],
        has_more: bool,
        dump: &mut Dump<'_>,
    ) -> Result<(), TimeError> {
        match self.recorded {
            Recorded::Stream => {
                dump.take(bytes, has_more);
                Ok(())
            }
            Recorded::Cast => take_lines(&mut self.cast, self.is_input, bytes, dump),
            Recorded::Typescript => take_runs(&mut self.typescript, bytes, dump),
        }
    }

    /// Ends the file.
    pub fn finish(&mut self, dump: &mut Dump<'_>) -> Result<(), TimeError> {
        match self.recorded {
            Recorded::Stream => Ok(()),
            Recorded::Cast if self.cast.has_rest() => {
                take_line(&mut self.cast, self.is_input, dump)
            }
            Recorded::Cast => Ok(()),
            Recorded::Typescript => self.typescript.finish(),
        }
    }
}

// Takes bytes of a recording of asciinema.
fn take_lines(
    cast: &mut Cast,
    is_input: bool,
    bytes: &[u8],
    dump: &mut Dump<'_>,
) -> Result<(), TimeError> {
    let mut rest = bytes;
    for _ in 0..u64::MAX {
        match cast.take(rest)? {
            Some(after) => rest = after,
            None => break,
        }
        take_line(cast, is_input, dump)?;
    }
    Ok(())
}

// Gives the dump the text of a line, if its direction is the one that is asked for.
fn take_line(cast: &mut Cast, is_input: bool, dump: &mut Dump<'_>) -> Result<(), TimeError> {
    if let Some(heard) = cast.heard()? {
        if heard.is_input == is_input {
            dump.set_time(heard.time);
            dump.take(heard.text.as_bytes(), false);
        }
    }
    Ok(())
}

// Takes bytes of a typescript.
fn take_runs(
    typescript: &mut Typescript<'_>,
    bytes: &[u8],
    dump: &mut Dump<'_>,
) -> Result<(), TimeError> {
    let mut rest = bytes;
    for _ in 0..u64::MAX {
        let Some(run) = typescript.next(rest)? else {
            break;
        };
        if run.is_asked {
            dump.set_time(run.time);
            dump.take(run.text, run.has_more);
        }
        rest = run.rest;
    }
    Ok(())
}
