// SPDX-License-Identifier: MIT
//! Prints streams of terminal escape sequences as one readable line a run of text or sequence.
#![tactic(auto)]

mod apc_words;
mod carried;
mod charsets;
mod choices;
mod code;
mod color_spaces;
mod color_words;
mod controls;
mod csi_table;
mod csi_words;
mod decoded;
mod device_words;
mod dump;
mod entries;
mod escapes;
mod fields;
mod framed;
mod input;
mod item;
mod key_words;
mod kind;
mod line;
mod mode_words;
mod named;
mod names;
mod notation;
mod objects;
mod options;
mod osc_words;
mod renditions;
mod resume;
mod rows;
mod run;
mod selection;
mod setting;
mod source;
mod stats;
mod times;
mod values;
mod vt52;
mod whole;
mod words;

use command_line::{
    DONE, Ended, FAULT, OUTPUT, last_status, open_closed, program_words, refused, work_through,
};
use notation::bytes_of;
use options::{Kind, Options, Task, When};
use run::{Dumping, Fault, PROGRAM, ended, say};
use std::env;
use std::env::VarError;
use std::io::{IsTerminal, Write};
use std::process::ExitCode;
use whole::Whole;

const USAGE: &str = "\
usage: escdump [-e|--explain text] [--segments] [--escape] [--json] [--stats] [--input]
               [--cast] [--timing file] [--only kind,..] [--skip kind,..] [--limit size]
               [--width size] [--color auto|always|never] [-h|--help] [-V|--version] [--] [FILE..]";

const HELP: &str = "\n\
Prints each FILE, or standard input, as a readable line for each sequence and run of text.

  -e, --explain text
                  prints what this stream is, in place of standard input and before each FILE: ESC
                  is \\e, \\033, \\x1b, \\u001b or ^[ there
  --segments      a line has the place, the length, the kind and the bytes of a segment
  --escape        a line has the place and the bytes, in place of the words
  --json          a line is an object of JSON
  --stats         a line for each name that came: how often, with how many bytes, how many
                  the longest has, and where the first is
  --input         a stream is what a terminal sends: keys, the mouse, pastes and answers
  --cast          each FILE is a recording of asciinema, version 2 or 3: a line has its time too,
                  in seconds
  --timing file   the timing of FILE, a typescript of script(1), as with --cast
  --only kind,..  prints lines of these names alone, as 'OSC 52', SGR or 'DECSET 1049', or of
                  these kinds: text control escape csi dcs osc apc sos pm st cut broken stray key
                  mouse
  --skip kind,..  prints no lines of these names or kinds
  --limit size    the most bytes of a sequence or string that are kept (1MiB): a number,
                  as 65536, or 64K, 1M or 1G, also as 64KiB, in powers of 1024
  --width size    the most bytes of the words of a line, or of its bytes, after which it says how
                  many more there are; on a terminal 4K where none are named
  --color time    prints the place and the bytes in colours: always, never, or auto, which
                  is on a terminal where NO_COLOR is not set and TERM is not dumb;
                  --colour is the same
  -h, --help      prints this
  -V, --version   prints the version
  --              the words after it are files

A value follows its option, or '='. FILE - is standard input.
Status: 0 all was printed, 1 a fault, 2 usage, 141 the output was closed.";

const VERSION: &str = "escdump 0.1.0";

fn main(rt: HostRuntime) -> ExitCode {
    open_closed(&rt);
    let Ok(words) = program_words(&rt, rt.alloc()) else {
        let _ = eprintln!(rt; "escdump: the arguments cannot be read");
        return ExitCode::from(FAULT);
    };
    let status = match Task::of(rt.alloc(), &words) {
        Ok(task) => {
            let mut options = task.options;
            options.is_colored = is_colored(&rt, task.colors);
            options.width = width_of(&rt, task.width);
            done(&rt, &task, options)
        }
        Err(wrong) => refused(PROGRAM, wrong, &mut rt.stderr()),
    };
    ExitCode::from(status)
}

// Returns whether lines have colours.
fn is_colored(rt: &HostRuntime, colors: When) -> bool {
    match colors {
        When::Always => true,
        When::Never => false,
        When::Auto => rt.stdout().is_terminal() && !has_no_color(rt) && !is_dumb(rt),
    }
}

// Returns whether the environment has a `NO_COLOR` that is not empty (<https://no-color.org/>).
fn has_no_color(rt: &HostRuntime) -> bool {
    match env::var(rt, "NO_COLOR") {
        Ok(value) => !value.is_empty(),
        Err(VarError::NotPresent) => false,
        Err(_) => true,
    }
}

// Returns whether the terminal knows no sequences, by its name in the environment.
fn is_dumb(rt: &HostRuntime) -> bool {
    match env::var(rt, "TERM") {
        Ok(value) => value.as_str() == "dumb",
        Err(_) => false,
    }
}

// Returns the number of bytes that the words of a line may have, if it is not given: on a terminal
// 4 KiB, and any elsewhere.
fn width_of(rt: &HostRuntime, width: Option<usize>) -> usize {
    match width {
        Some(width) => width,
        None if rt.stdout().is_terminal() => 4096,
        None => usize::MAX,
    }
}

// Does the task that the words ask for.
fn done(rt: &HostRuntime, task: &Task<'_>, options: Options<'_>) -> u8 {
    match task.kind {
        Kind::Dump => dump_task(rt, options, task),
        Kind::Help => said(rt, &[USAGE, HELP]),
        Kind::Version => said(rt, &[VERSION]),
    }
}

// Prints the lines of these texts.
fn said(rt: &HostRuntime, texts: &[&'static str]) -> u8 {
    let done = say(rt.alloc(), texts, &mut rt.stdout());
    last_status(ended(done, OUTPUT, &mut rt.stderr()))
}

// Reads the timing file, if there is one, and prints the streams.
fn dump_task(rt: &HostRuntime, options: Options<'_>, task: &Task<'_>) -> u8 {
    let Some(name) = task.timing else {
        return dump_all(rt, options, task.explained, &task.files);
    };
    let mut whole = Whole::new(rt.alloc(), rt.stderr());
    let status = work_through(rt, PROGRAM, &[name], &mut whole, &mut rt.stderr());
    if status == DONE {
        dump_all(
            rt,
            timed(options, whole.bytes()),
            task.explained,
            &task.files,
        )
    } else {
        status
    }
}

// Returns the options with this timing.
fn timed<'a>(options: Options<'a>, timing: &'a [u8]) -> Options<'a> {
    Options { timing, ..options }
}

// Prints the explanation that is asked for, and one file after another.
fn dump_all(rt: &HostRuntime, options: Options<'_>, explained: Option<&str>, files: &[&str]) -> u8 {
    let mut dumping = Dumping {
        alloc: rt.alloc(),
        options,
        output: rt.stdout(),
        faults: rt.stderr(),
    };
    if let Some(text) = explained {
        let ended = explain(text, &mut dumping);
        if files.is_empty() || ended != Ended::Whole {
            return last_status(ended);
        }
    }
    work_through(rt, PROGRAM, files, &mut dumping, &mut rt.stderr())
}

// Prints the lines of a stream that stands in the program's words.
fn explain<W: Write, E: Write>(text: &str, dumping: &mut Dumping<'_, W, E>) -> Ended {
    match bytes_of(dumping.alloc, text) {
        Ok(bytes) => dumping.take_stream("--explain", bytes.as_slice()),
        Err(_) => ended(Err(Fault::Memory), "--explain", &mut dumping.faults),
    }
}
