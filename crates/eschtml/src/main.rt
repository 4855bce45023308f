// SPDX-License-Identifier: MIT
//! Writes streams of terminal escape sequences as HTML in which nothing comes alive: for logs and
//! recordings of unknown origin that are shown in a browser.
#![tactic(auto)]

mod converting;
mod feeds;
mod heeding;
mod images;
mod joining;
mod kept;
mod lined;
mod lines;
mod options;
mod page;
mod piped;
mod stream;
mod strings;
mod style;
mod timing;

use atomic_file::{FileFault, Output, Stream};
use command_line::{
    DONE, FAULT, INPUT, OUTPUT, is_text, open_closed, program_words, refused, status_of_text, tell,
    unwritable, work_through, wrong_apart,
};
use converting::Converting;
use esc_filter::FilterError;
use options::{Kind, Options, Task};
use page::{END, head};
use page_input::LeftOut;
use std::alloc::{AllocError, Global};
use std::io;
use std::io::Write;
use std::process::ExitCode;
use stream::PROGRAM;
use style::push_style;

const USAGE: &str = "\
usage: eschtml [--page] [--title text] [--css address] [--lang language] \
[--theme auto|light|dark] [--palette xterm|vga|solarized|tango|one-half] [--numbers] [--wrap] \
[--lines] [--inline] [--show] [--lost] [--final-lines[=rows]] [--columns number] \
[--head lines] [--tail lines] [--linkify] [--fold] [--times] [--images] [--cast] [--style] \
[--encoding utf-8|utf-16|utf-16le|utf-16be|latin1|windows-1250|windows-1251|windows-1252|\
windows-1253|windows-1254|windows-1255|windows-1256|windows-1257|windows-1258] \
[--c1 replace|obey] [--limit size] [-o|--output file] [-h|--help] [-V|--version] [--] [FILE..]";

const HELP: &str = "\
Writes each FILE, or standard input, as HTML, as it is read: characters, with colours and
renditions as spans, and links to http, https and mailto. Nothing of it becomes markup.

  --page          writes a whole page, with a style sheet and line numbers, and not a fragment
  --title text    its title (the name of the first FILE)
  --css address   links the style sheet at this address in place of its own
  --lang language its language, as de (en)
  --theme auto    follows the setting of the page's reader, as it does unless told otherwise
  --theme light   is light, also where it is printed by --style
  --theme dark    is dark, also there
  --palette name  has the colours of a terminal as they are, also there: xterm, vga, solarized,
                  tango or one-half
  --numbers       makes an element of each line, with an id, as L13, and its number, as --page
                  does
  --wrap          breaks long lines of the page
  --lines         closes the tags that are open at the end of each line, and opens them again
                  after it, so that each line is HTML by itself
  --inline        writes colours and renditions as styles, and not as classes, so that the
                  fragment needs no style sheet
  --show          writes what is left out in its place, as text in reverse video:
                  ^[]0;title^G
  --lost          writes after a stream how many bytes a string took that nothing ends, and how
                  many images are left out
  --final-lines   writes what a terminal leaves of lines that are written again, as by
                  progress bars; --final-lines=rows where these go back over more rows than 32
  --columns n     how many columns these rows have (512); a longer line goes on in the next one
  --head lines    writes so many lines that come first, and says how many are left out
  --tail lines    writes so many that come last; of the first ones, with --head
  --linkify       makes links of addresses in text that begin with http:// or https://
  --fold          folds the groups of lines of GitHub and GitLab on a page
  --times         puts the time that a line begins with into an element that is not copied
  --images        writes images as data: PNG, JPEG and GIF of iTerm2 and kitty, and sixels
  --cast          reads a recording of asciinema, version 2 or 3; with --times each line begins
                  with the time at which it came
  --style         prints the style sheet, for a page around a fragment
  --encoding name reads utf-8 (the default), utf-16, utf-16le, utf-16be, latin1, or windows-1250
                  to windows-1258
  --c1 way        of bytes 80 to 9F that are no part of a UTF-8 character: replace writes
                  U+FFFD in their place (the default), obey takes them for controls
  --limit size    the most bytes of an unfinished sequence that are kept (1MiB): a number,
                  as 65536, or 64K, 1M or 1G, also as 64KiB, in powers of 1024
  -o, --output f  writes the file f, whole or not at all
  -h, --help      prints this
  -V, --version   prints the version
  --              the words after it are files

A value follows its option, or '='. FILE - is standard input.
Status: 0 all was written, 1 a fault, 2 usage, 141 the output was closed.";

const VERSION: &str = "eschtml 0.1.0";

// The end of the name of a new file, until it takes its place.
const NEW: &str = ".eschtml";

fn main(rt: HostRuntime) -> ExitCode {
    open_closed(&rt);
    let Ok(words) = program_words(&rt, rt.alloc()) else {
        let _ = eprintln!(rt; "eschtml: the arguments cannot be read");
        return ExitCode::from(FAULT);
    };
    let status = match Task::of(rt.alloc(), &words) {
        Ok(task) => done(&rt, &task),
        Err(wrong) => refused(PROGRAM, wrong, &mut rt.stderr()),
    };
    ExitCode::from(status)
}

// Does the task that the words ask for.
fn done(rt: &HostRuntime, task: &Task<'_>) -> u8 {
    match task.kind {
        Kind::Convert => match wrong_apart(rt, task.apart) {
            Some(wrong) => refused(PROGRAM, wrong, &mut rt.stderr()),
            None => convert_to(rt, task.output, task.options, &task.files),
        },
        Kind::Style => print_style(rt, &task.options),
        Kind::Help => said(rt, OUTPUT, println!(rt; "{USAGE}\n\n{HELP}")),
        Kind::Version => said(rt, OUTPUT, println!(rt; "{VERSION}")),
    }
}

// Prints the style sheet.
fn print_style(rt: &HostRuntime, options: &Options<'_>) -> u8 {
    let Ok(text) = style_text(rt.alloc(), options) else {
        tell(PROGRAM, OUTPUT, FilterError::Memory, &mut rt.stderr());
        return FAULT;
    };
    said(rt, OUTPUT, print!(rt; "{text}"))
}

// The style sheet. The error is that memory was refused.
fn style_text(alloc: Global, options: &Options<'_>) -> Result<String, AllocError> {
    let mut text = String::new(alloc);
    push_style(&mut text, options.theme, options.palette)?;
    Ok(text)
}

// The status after a text was written to an output of this name.
fn said(rt: &HostRuntime, output_name: &str, written: io::Result<()>) -> u8 {
    status_of_text(PROGRAM, output_name, written, &mut rt.stderr())
}

// Writes the files to standard output; or to the stream of this name, or the file, which takes its
// place whole or not at all.
fn convert_to(rt: &HostRuntime, output: Option<&str>, options: Options<'_>, files: &[&str]) -> u8 {
    let name = output.unwrap_or(OUTPUT);
    match output_of(rt, output) {
        Ok(mut output) => {
            let status = convert(rt, options, files, name, &mut output);
            match output.end(rt, status == DONE) {
                Ok(()) => status,
                Err(fault) => unwritable(PROGRAM, name, fault, &mut rt.stderr()),
            }
        }
        Err(fault) => unwritable(PROGRAM, name, fault, &mut rt.stderr()),
    }
}

// Standard output, or that of this name.
fn output_of(rt: &HostRuntime, name: Option<&str>) -> Result<Output, FileFault<'static>> {
    match name {
        Some(name) => Output::of(rt, name, NEW),
        None => Ok(Output::Stream(Stream::Output(rt.stdout()))),
    }
}

// Writes the files to an output of this name, as a page if one is asked for.
fn convert(
    rt: &HostRuntime,
    options: Options<'_>,
    files: &[&str],
    output_name: &str,
    output: &mut Output,
) -> u8 {
    if !options.is_page {
        return convert_all(rt, options, files, output_name, output);
    }
    let Ok(text) = head(rt.alloc(), title_of(options, files), &options) else {
        tell(PROGRAM, output_name, FilterError::Memory, &mut rt.stderr());
        return FAULT;
    };
    let written = output.write_all(text.as_bytes());
    if written.is_err() {
        return said(rt, output_name, written);
    }
    let status = convert_all(rt, options, files, output_name, output);
    if status > FAULT {
        return status;
    }
    let written = output.write_all(END.as_bytes());
    if written.is_err() {
        return said(rt, output_name, written);
    }
    status
}

// The title: that of the options, or the name of the first file.
fn title_of<'a>(options: Options<'a>, files: &[&'a str]) -> &'a str {
    match (options.title, files) {
        (Some(title), _) => title,
        (None, [first, ..]) if *first != "-" && is_text(*first) => *first,
        (None, _) => INPUT,
    }
}

// Writes one file after another.
fn convert_all(
    rt: &HostRuntime,
    options: Options<'_>,
    files: &[&str],
    output_name: &str,
    output: &mut Output,
) -> u8 {
    let mut converting = Converting {
        alloc: rt.alloc(),
        options,
        output_name,
        output,
        faults: rt.stderr(),
        is_headed: files.len() > 1,
        streams: 0,
        line: 0,
        left_out: LeftOut::new(),
    };
    work_through(rt, PROGRAM, files, &mut converting, &mut rt.stderr())
}
