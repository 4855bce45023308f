// SPDX-License-Identifier: MIT
//! Writes the actions of terminal streams that a policy admits, and nothing else, as the streams
//! come: for logs and recordings of unknown origin that go to a terminal.
#![tactic(auto)]

mod aside;
mod at_once;
mod cast;
mod events;
mod failing;
mod filtering;
mod frames;
mod json;
mod laws;
mod listing;
mod name;
mod named_groups;
mod options;
mod recording;
mod report;
mod rows;
mod saying;
mod script;
mod scripted;
mod settings;
mod timing;
mod told;
mod values;

use atomic_file::{NewFile, Output};
use command_line::{
    DONE, Ended, FAULT, OUTPUT, Reason, USAGE_FAULT, Wrong, is_text, open_closed, program_words,
    refused, status_after, status_of_text, take_opened, unread, unwritable, work_through,
    wrong_apart,
};
use filtering::Filtering;
use listing::Names;
use named_groups::Listed;
use options::{Kind, Options, Target, Task};
use std::fs::File;
use std::io;
use std::io::{IsTerminal, Stderr, Write};
use std::process::ExitCode;
use timing::Timing;
use told::Told;

const USAGE: &str = "\
usage: escfilter [--allow text|color|screen|all|layout|sgr|hidden|links|controls|cursor|erase|\
scroll|modes|charsets|palette|titles|clipboard|images|other] [--deny layout|sgr|hidden|links|\
controls|cursor|erase|scroll|modes|charsets|palette|titles|clipboard|images|other] \
[--links scheme,..] [--lines|--whole] [--line-reset] [--limit size] \
[--encoding utf-8|utf-16|utf-16le|utf-16be|latin1|windows-1250|windows-1251|windows-1252|\
windows-1253|windows-1254|windows-1255|windows-1256|windows-1257|windows-1258] \
[--c1 replace|obey] [--unicode keep|join|show|drop] [--returns keep|show|drop] \
[--show[=escaped|color]] [--collapse[=rows]] [--columns number] \
[--cast] [--drop-input] [--ttyrec] [--timing file] [--timing-to file] \
[--report[=text|json]] [--report-to file] [--events file] \
[--fail[=respelled|shown|replaced|left-out|swallowed|overwritten,..]] [--list] [-z|--null] \
[-o|--output file] [-i|--in-place[=suffix]] [-h|--help] [-V|--version] [--] [FILE..]";

const HELP: &str = "\
Writes what the policy admits of each FILE, or of standard input, as it is read. What that
leaves on, as colours or a link, is taken back at its end, and at each line's with --lines.

  --allow text    characters, tab, line feed and carriage return
  --allow color   and colours, renditions and links (the default); colour is the same
  --allow screen  and what changes the screen alone
  --allow all     and all that can be written by itself, queries too
  --allow g,..    these groups too; a list with a policy begins anew with that policy
  --deny g,..     not these groups
  --links s,..    of links those alone whose addresses have these schemes, as http,https
  --lines         takes each line as a stream of its own, so that no string takes away the
                  lines after it (the default with text and color)
  --whole         takes each FILE as one stream (the default with screen and all, and with
                  --collapse)
  --line-reset    by lines, begins each line plain; else a rendition that goes on over a line
                  feed is written again where the next line begins
  --limit size    the most bytes of an unfinished string that are kept (1MiB): a number,
                  as 65536, or 64K, 1M or 1G, also as 64KiB, in powers of 1024
  --encoding name reads utf-8 (the default), utf-16, utf-16le, utf-16be, latin1, or windows-1250
                  to windows-1258
  --c1 way        of bytes 80 to 9F that are no part of a UTF-8 character: replace writes
                  U+FFFD in their place (the default), obey takes them for controls
  --unicode way   of characters that hide or reorder text: show writes <U+202E> in their place,
                  drop nothing, keep themselves; join, the default with text and color, is
                  show, but keeps those that belong to the character before them, as in emoji
  --returns way   of carriage returns within a line, which hide the text before them: keep,
                  drop, or show, which writes ^M; kept also with --whole, --collapse and --cast
  --show          writes what does not pass in its place, as text: ^[]0;title^G;
                  --show=escaped a ^ and < of other text too, as <5E> and <3C>, so that the
                  input can be read back; --show=color in reverse video, where that passes
  --collapse      writes what a terminal leaves of lines that are written again, as by
                  progress bars; --collapse=rows where these go back over more rows than 32;
                  takes each FILE as one stream, but with --lines
  --columns n     with --collapse, how many columns a row has (512): a longer line goes on in
                  the next one
  --cast          takes each FILE as a recording of asciinema: filters the texts of its
                  events of output, and keeps its times and all other lines; for recordings
                  --allow screen is the default
  --drop-input    with --cast empties the texts of its events of input, which may be passwords
  --ttyrec        takes each FILE as a recording of ttyrec, and writes one
  --timing f      takes FILE as a typescript of script(1) with the timing f, and writes one
  --timing-to f   writes the timing of the new typescript to the file f
  --report        says on standard error what was left out of each FILE, and where;
                  --report=json as a line of JSON
  --report-to f   writes the report to the file f, in place of standard error
  --events f      writes to the file f a line of JSON for each thing that did not pass, with
                  its place and its bytes
  --fail          ends with status 3 where anything was shown, replaced, left out, swallowed or
                  overwritten (by --collapse); --fail=left-out,swallowed where a byte had one of
                  these fates; respelled, shown, replaced and overwritten are others
  --list          writes the names of the files in which --fail finds something, a line each,
                  in place of what passes
  -z, --null      ends each name with a zero byte, for xargs -0
  -o, --output f  writes the file f, whole or not at all
  -i, --in-place  writes each FILE in its place, whole or not at all; -i.bak, as
                  --in-place=.bak, keeps what was there as FILE.bak
  -h, --help      prints this
  -V, --version   prints the version
  --              the words after it are files

A value follows its option, or '='. FILE - is standard input.
Status: 0 all was filtered, 1 a fault, 2 usage, 3 by --fail, 141 the output was closed.

Groups (text is layout, color is that with sgr, hidden and links, screen is all up to palette):";

// The program's name.
pub(crate) const PROGRAM: &str = "escfilter";

const VERSION: &str = "escfilter 0.1.0";

// The end of the name of a new file, until the file takes its place.
pub(crate) const NEW: &str = ".escfilter";

fn main(rt: HostRuntime) -> ExitCode {
    open_closed(&rt);
    let Ok(words) = program_words(&rt, rt.alloc()) else {
        let _ = eprintln!(rt; "escfilter: the arguments cannot be read");
        return ExitCode::from(FAULT);
    };
    let status = match Task::of(rt.alloc(), &words) {
        Ok(task) => done(&rt, &task),
        Err(wrong) => refused(PROGRAM, wrong, &mut rt.stderr()),
    };
    ExitCode::from(status)
}

// Does the task, and returns the status.
fn done(rt: &HostRuntime, task: &Task<'_>) -> u8 {
    match task.kind {
        Kind::Filter => match (wrong_apart(rt, task.apart), task.clash) {
            (Some(wrong), _) => refused(PROGRAM, wrong, &mut rt.stderr()),
            (None, Some(clash)) => clashing(clash, &mut rt.stderr()),
            (None, None) => filter_timed(rt, task),
        },
        Kind::Help => said(rt, println!(rt; "{USAGE}\n\n{HELP}\n{Listed}")),
        Kind::Version => said(rt, println!(rt; "{VERSION}")),
    }
}

// The status after printing a text.
fn said(rt: &HostRuntime, printed: io::Result<()>) -> u8 {
    status_of_text(PROGRAM, OUTPUT, printed, &mut rt.stderr())
}

// Prints that options do not go together, and returns the status.
fn clashing<E: Write>(clash: &str, faults: &mut E) -> u8 {
    let _ = writeln!(faults, "{PROGRAM}: {clash}");
    let _ = writeln!(faults, "Try '{PROGRAM} --help' for more.");
    USAGE_FAULT
}

// Reads the timing file if there is one, and filters the files.
fn filter_timed(rt: &HostRuntime, task: &Task<'_>) -> u8 {
    let Some(name) = task.timing else {
        return filter(rt, task, task.options);
    };
    let mut timing = Timing::new(rt.alloc(), rt.stderr());
    let status = work_through(rt, PROGRAM, &[name], &mut timing, &mut rt.stderr());
    if status != DONE {
        return status;
    }
    filter(rt, task, timed(task.options, timing.bytes()))
}

// These options, with this timing.
fn timed<'a>(options: Options<'a>, timing: &'a [u8]) -> Options<'a> {
    Options { timing, ..options }
}

// Filters the files by these options, and writes the reports and events.
fn filter(rt: &HostRuntime, task: &Task<'_>, options: Options<'_>) -> u8 {
    match Told::of(rt, task) {
        Ok(mut told) => {
            let status = filter_to(rt, task.target, options, &task.files, &mut told);
            told.end(rt, task, status)
        }
        Err(status) => status,
    }
}

// Filters the files to the place of the output.
fn filter_to(
    rt: &HostRuntime,
    target: Target<'_>,
    options: Options<'_>,
    files: &[&str],
    told: &mut Told,
) -> u8 {
    match target {
        Target::Output => {
            let output = &mut rt.stdout();
            let names = Names::of(options, output.is_terminal());
            filter_all(rt, options, files, told, names, OUTPUT, output)
        }
        Target::File(name) => filter_to_file(rt, options, files, told, name),
        Target::InPlace(suffix) => filter_in_place(rt, options, files, told, suffix),
    }
}

// Filters one file after another to this output, which has this name.
fn filter_all<W: Write>(
    rt: &HostRuntime,
    options: Options<'_>,
    files: &[&str],
    told: &mut Told,
    names: Names,
    output_name: &str,
    output: &mut W,
) -> u8 {
    let mut filtering = filter_of(rt, options, told, names, output_name, output);
    work_through(rt, PROGRAM, files, &mut filtering, &mut rt.stderr())
}

// A filter of streams to this output, which has this name.
fn filter_of<'a, W>(
    rt: &HostRuntime,
    options: Options<'a>,
    told: &'a mut Told,
    names: Names,
    output_name: &'a str,
    output: &'a mut W,
) -> Filtering<'a, W, Stderr> {
    Filtering {
        alloc: rt.alloc(),
        options,
        output_name,
        output,
        names,
        faults: rt.stderr(),
        told,
    }
}

// Filters the files to the file of this name, whole or not at all, or to the device of this name.
fn filter_to_file(
    rt: &HostRuntime,
    options: Options<'_>,
    files: &[&str],
    told: &mut Told,
    name: &str,
) -> u8 {
    let mut output = match Output::of(rt, name, NEW) {
        Ok(output) => output,
        Err(fault) => return unwritable(PROGRAM, name, fault, &mut rt.stderr()),
    };
    let names = Names::of(options, output.is_terminal());
    let status = filter_all(rt, options, files, told, names, name, &mut output);
    match output.end(rt, status == DONE) {
        Ok(()) => status,
        Err(fault) => unwritable(PROGRAM, name, fault, &mut rt.stderr()),
    }
}

// Filters each file in its place.
fn filter_in_place(
    rt: &HostRuntime,
    options: Options<'_>,
    files: &[&str],
    told: &mut Told,
    suffix: &str,
) -> u8 {
    if files.is_empty() {
        return refused(
            PROGRAM,
            Wrong::Nothing("--in-place", "file"),
            &mut rt.stderr(),
        );
    }
    let mut status = DONE;
    for file in files {
        let ended = replace_file(rt, options, *file, told, suffix);
        match status_after(ended, status) {
            Ok(next) => status = next,
            Err(last) => return last,
        }
    }
    status
}

// Filters the file of this name in its place, and returns the outcome.
fn replace_file(
    rt: &HostRuntime,
    options: Options<'_>,
    name: &str,
    told: &mut Told,
    suffix: &str,
) -> Ended {
    let faults = &mut rt.stderr();
    if name == "-" || !is_text(name) {
        let hindrance = "it is changed in place under a name alone";
        return unread(PROGRAM, name, hindrance, faults);
    }
    match NewFile::in_place_of(rt, name, NEW) {
        Ok(new) => replace_by(rt, options, name, told, suffix, new),
        Err(fault) => unread(PROGRAM, name, fault, faults),
    }
}

// Filters the file of this name to a new file, which then takes its place.
fn replace_by(
    rt: &HostRuntime,
    options: Options<'_>,
    name: &str,
    told: &mut Told,
    suffix: &str,
    mut new: NewFile<HostRuntime>,
) -> Ended {
    let ended = match File::open(rt, name) {
        Ok(input) => {
            let names = Names::Lines;
            let mut filtering = filter_of(rt, options, told, names, name, &mut new.file);
            take_opened(PROGRAM, name, input, &mut filtering, &mut rt.stderr())
        }
        Err(error) => unread(PROGRAM, name, Reason::of(&error), &mut rt.stderr()),
    };
    match new.end(rt, suffix, ended == Ended::Whole) {
        Ok(()) => ended,
        Err(fault) => unread(PROGRAM, name, fault, &mut rt.stderr()),
    }
}
