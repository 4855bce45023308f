//! The streams that a program reads, one after another.

use crate::arguments::{NO_TEXT, is_text};
use crate::ending::{DONE, Ended, status_after, unread};
use crate::packed::{PackedFile, packed_in};
use crate::reason::Reason;
use output_file::{IS_OUTPUT, is_output};
use std::fs::{File, Files, OpenFile, metadata};
use std::io::{Input, Read, Write};
use std::os::unix::fs::FileExt;

/// The name of standard input.
pub const INPUT: &str = "standard input";

/// The name of standard output.
pub const OUTPUT: &str = "standard output";

/// The work of a program on each stream that it reads.
pub trait Work {
    /// Does it with a stream that has this name, and returns how that ended. A fault was said
    /// already.
    fn take<R: Read + Drop>(&mut self, name: &str, input: R) -> Ended;
}

/// Does a program's work with each of these files, one after another, each a stream of its own, and
/// returns the status. `-` is standard input, and so is no file at all. After one that cannot be
/// read the others follow; if nothing can be written, none does.
///
/// A file is not read that is standard output, or compressed, or whose name is no text. A line on
/// `faults` says so, and why a file cannot be opened.
pub fn work_through<R: Files + Input, W: Work, E: Write>(
    rt: &R,
    program: &str,
    files: &[&str],
    work: &mut W,
    faults: &mut E,
) -> u8
where
    R::File: FileExt,
{
    let files: &[&str] = if files.is_empty() { &["-"] } else { files };
    let mut status = DONE;
    for file in files {
        match status_after(work_on(rt, program, *file, work, faults), status) {
            Ok(next) => status = next,
            Err(last) => return last,
        }
    }
    status
}

// Does it with the file of this name, or with standard input if it is `-`.
fn work_on<R: Files + Input, W: Work, E: Write>(
    rt: &R,
    program: &str,
    name: &str,
    work: &mut W,
    faults: &mut E,
) -> Ended
where
    R::File: FileExt,
{
    if name == "-" {
        return take_input(rt, program, work, faults);
    }
    if !is_text(name) {
        return unread(program, name, NO_TEXT, faults);
    }
    match File::open(rt, name) {
        Ok(input) => {
            let is_output = is_output(rt, input.metadata());
            take_file(is_output, program, name, input, work, faults)
        }
        Err(error) => unread(program, name, Reason::of(&error), faults),
    }
}

// Does it with standard input.
fn take_input<R: Files + Input, W: Work, E: Write>(
    rt: &R,
    program: &str,
    work: &mut W,
    faults: &mut E,
) -> Ended {
    if is_output(rt, metadata(rt, "/dev/stdin")) {
        return unread(program, INPUT, IS_OUTPUT, faults);
    }
    work.take(INPUT, rt.reader())
}

// Does it with a file of this name that was opened, unless it is standard output.
fn take_file<F: Read + OpenFile + FileExt + Drop, W: Work, E: Write>(
    is_output: bool,
    program: &str,
    name: &str,
    input: F,
    work: &mut W,
    faults: &mut E,
) -> Ended {
    if is_output {
        return unread(program, name, IS_OUTPUT, faults);
    }
    take_opened(program, name, input, work, faults)
}

/// Does a program's work with a file of this name that was opened, and returns how that ended. One
/// that is compressed is not read: a line on `faults` says so, and how to read its content.
pub fn take_opened<F: Read + OpenFile + FileExt + Drop, W: Work, E: Write>(
    program: &str,
    name: &str,
    input: F,
    work: &mut W,
    faults: &mut E,
) -> Ended {
    match packed_in(&input) {
        Some(packed) => {
            let packed = PackedFile {
                packed,
                name,
                program,
            };
            unread(program, name, packed, faults)
        }
        None => work.take(name, input),
    }
}
