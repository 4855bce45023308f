// SPDX-License-Identifier: MIT
//! Prints the screen that a terminal shows after a stream of escape sequences.
#![tactic(auto)]

mod differing;
mod display;
mod fault;
mod frames;
mod html;
mod ink;
mod kept;
mod options;
mod reading;
mod recorded;
mod run;
mod seconds;
mod showing;
mod svg;

use atomic_file::{NewFile, Output};
use command_line::{
    DONE, FAULT, OUTPUT, USAGE_FAULT, open_closed, program_words, refused, status_of_text,
    unwritable, work_through,
};
use differing::{Compare, Differing};
use fault::PROGRAM;
use options::{Kind, Task};
use showing::Showing;
use std::io;
use std::io::Write;
use std::process::ExitCode;

const USAGE: &str = "\
usage: escshow [--size columnsxrows] [--log] [--newline] [--color] [--html] [--svg] [--json] \
[--cast] [--at seconds] [--every seconds] [--diff] [-o|--output file] [-h|--help] [-V|--version] \
[--] [FILE..]";

const HELP: &str = "\
Prints the screen that a terminal shows at the end of each FILE, or of standard input, as rows of
text.

  --size size     the size of the screen in columns and rows, as 80x24, which it is where none is
                  named; of a recording, that of its header, and later that of its events
  --log           prints all lines that the terminal leaves: the rows that were scrolled off, and
                  then those of the screen
  --newline       takes a line feed to the first column too, as in a file of text (the mode LNM)
  --color         writes the looks of characters too, and links, as control sequences
  --html          writes a page of HTML in which nothing comes alive, with their looks
  --svg           writes a picture (SVG) of the screen of one FILE
  --json          writes an object of JSON: the cells with their looks, the cursor, the title, links
  --cast          takes each FILE as a recording of asciinema, version 2 or 3
  --at seconds    shows the screen of a recording at this time, as 12.5, and not at its end
  --every seconds shows one screen after another of a recording, for each stretch of so many seconds
                  that has output or a change of size, with the time of the last
  --diff          compares the screens of two FILEs, and says in which cells they differ
  -o, --output f  writes the file f, whole or not at all
  -h, --help      prints this
  -V, --version   prints the version
  --              the words after it are files

A value follows its option, or '='. FILE - is standard input. A character that hides or reorders
text is written as its number, as <U+202E>.
Status: 0 all was printed, 1 a fault, 2 usage, 141 the output was closed. With --diff: 0 the screens
are the same, 1 they differ, 2 a fault or usage.";

const VERSION: &str = "escshow 0.1.0";

// The end of the name of a new file, until it takes its place.
const NEW: &str = ".escshow";

fn main(rt: HostRuntime) -> ExitCode {
    open_closed(&rt);
    let Ok(words) = program_words(&rt, rt.alloc()) else {
        let _ = eprintln!(rt; "escshow: the arguments cannot be read");
        return ExitCode::from(FAULT);
    };
    let status = match Task::of(rt.alloc(), &words) {
        Ok(task) => done(&rt, &task),
        Err(wrong) => refused(PROGRAM, wrong, &mut rt.stderr()),
    };
    ExitCode::from(status)
}

// Does the task that the words ask for.
fn done(rt: &HostRuntime, task: &Task<'_>) -> u8 {
    match task.kind {
        Kind::Show => show_to(rt, task),
        Kind::Compare => compared(show_to(rt, task)),
        Kind::Help => said(rt, println!(rt; "{USAGE}\n\n{HELP}")),
        Kind::Version => said(rt, println!(rt; "{VERSION}")),
    }
}

// Returns the status after a text was written.
fn said(rt: &HostRuntime, written: io::Result<()>) -> u8 {
    status_of_text(PROGRAM, OUTPUT, written, &mut rt.stderr())
}

// Shows or compares the files on standard output, or in the file of the output's name.
fn show_to(rt: &HostRuntime, task: &Task<'_>) -> u8 {
    match task.output {
        Some(name) => show_to_file(rt, task, name),
        None => show(rt, task, OUTPUT, &mut rt.stdout()),
    }
}

// Does the same in the file of this name, or on the stream of this name.
fn show_to_file(rt: &HostRuntime, task: &Task<'_>, name: &str) -> u8 {
    match Output::of(rt, name, NEW) {
        Ok(Output::New(new)) => show_to_new(rt, task, name, new),
        Ok(Output::Stream(mut stream)) => show(rt, task, name, &mut stream),
        Err(fault) => unwritable(PROGRAM, name, fault, &mut rt.stderr()),
    }
}

// Does the same in this one, which takes the place of that name whole or not at all.
fn show_to_new(rt: &HostRuntime, task: &Task<'_>, name: &str, mut new: NewFile<HostRuntime>) -> u8 {
    let status = show(rt, task, name, &mut new.file);
    let is_whole = status == DONE || status == DIFFERENT;
    match new.end(rt, "", is_whole) {
        Ok(()) => status,
        Err(fault) => unwritable(PROGRAM, name, fault, &mut rt.stderr()),
    }
}

// Shows or compares the files on this output.
fn show<W: Write>(rt: &HostRuntime, task: &Task<'_>, output_name: &str, output: &mut W) -> u8 {
    match task.kind {
        Kind::Compare => compare(rt, task, output_name, output),
        Kind::Show | Kind::Help | Kind::Version => show_all(rt, task, output_name, output),
    }
}

// Shows one file after another.
fn show_all<W: Write>(rt: &HostRuntime, task: &Task<'_>, output_name: &str, output: &mut W) -> u8 {
    let mut showing = Showing {
        alloc: rt.alloc(),
        options: task.options,
        output_name,
        output,
        faults: rt.stderr(),
        is_first: true,
    };
    work_through(rt, PROGRAM, &task.files, &mut showing, &mut rt.stderr())
}

// The result of `compare` if two screens differ: no status of a program is this.
const DIFFERENT: u8 = 255;

// Compares two files.
fn compare<W: Write>(rt: &HostRuntime, task: &Task<'_>, output_name: &str, output: &mut W) -> u8 {
    let differing = Differing {
        alloc: rt.alloc(),
        options: task.options,
        output_name,
        output,
        faults: rt.stderr(),
        first: None,
        differ: false,
    };
    compare_by(rt, task, differing)
}

// Does the same by this work. A type parameter keeps its terminal out of the proof.
fn compare_by<C: Compare + Drop>(rt: &HostRuntime, task: &Task<'_>, mut work: C) -> u8 {
    let status = work_through(rt, PROGRAM, &task.files, &mut work, &mut rt.stderr());
    different(status, work.differ())
}

// Returns the result of `compare` by the status of its work.
fn different(status: u8, differ: bool) -> u8 {
    if status == DONE && differ {
        DIFFERENT
    } else {
        status
    }
}

// Returns the status of the program that compared files, if this is the result of `compare`: 1 if
// they differ, and 2 for any fault.
fn compared(status: u8) -> u8 {
    match status {
        DIFFERENT => FAULT,
        FAULT => USAGE_FAULT,
        _ => status,
    }
}
