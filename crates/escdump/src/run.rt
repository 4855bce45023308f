//! One stream, from its reader to the output.
ghost use Rattle.std.specs.Prelude.{◌≡◌, ◌≤◌, IfOk, OnOk, length};
ghost use Rattle.dump_page.specs.Pages.{AppendsPage};

use crate::dump::Dump;
use crate::options::{Options, Recorded};
use crate::source::Source;
use command_line::{Ended, OUTPUT, Reason, Work, tell, unwritten};
use dump_page::Page;
use dump_time::TimeError;
use std::alloc::Global;
use std::io;
use std::io::{ErrorKind, Read, Write};

/// The program's name.
pub const PROGRAM: &str = "escdump";

/// A fault that stops the program at a stream.
#[derive(Clone, Copy)]
pub enum Fault {
    /// A read failed, for this reason.
    Read(Reason),
    /// A write or a flush failed, for this reason.
    Write(Reason),
    /// It is a recording that cannot be read to its end.
    Recording(TimeError),
    /// Memory was refused.
    Memory,
}

// Says how much is read at a call.
const CHUNK: usize = 4096;

/// Prints streams to one output.
#[derive(Drop)]
pub struct Dumping<'a, W, E> {
    pub alloc: Global,
    pub options: Options<'a>,
    pub output: W,
    /// The output for faults.
    pub faults: E,
}

impl<'a, W: Write, E: Write> Dumping<'a, W, E> {
    /// Prints the lines of a stream of this name that is no recording.
    pub fn take_stream<R: Read + Drop>(&mut self, name: &str, mut input: R) -> Ended {
        let options = Options {
            recorded: Recorded::Stream,
            ..self.options
        };
        dump_named(
            self.alloc,
            options,
            name,
            &mut input,
            &mut self.output,
            &mut self.faults,
        )
    }
}

impl<'a, W: Write, E: Write> Work for Dumping<'a, W, E> {
    fn take<R: Read + Drop>(&mut self, name: &str, mut input: R) -> Ended {
        dump_named(
            self.alloc,
            self.options,
            name,
            &mut input,
            &mut self.output,
            &mut self.faults,
        )
    }
}

/// Prints a line on `output` for each segment of `input`, a stream of this name, in the form that
/// the options ask for, and the lines of one read before the next read.
///
/// Its output is a page: none of it is a control or an escape sequence that came from `input`. If a
/// read, a write or memory is refused, a line on `faults` says so; but if nobody reads the output
/// any more, none is written. The lines before it are printed.
pub fn dump_named<R: Read, W: Write, E: Write>(
    alloc: Global,
    options: Options<'_>,
    name: &str,
    input: &mut R,
    output: &mut W,
    faults: &mut E,
) -> Ended
    ensures safe { result ≡ Ended.Whole
        → AppendsPage (W.contents output.old) (W.contents output.new) }
{
    let done = dump(alloc, options, name, input, output);
    ended(done, name, faults)
}

/// Prints the lines of these texts. The error is the fault that stops it.
pub fn say<W: Write>(alloc: Global, texts: &[&'static str], output: &mut W) -> Result<(), Fault>
    ensures { OnOk result (AppendsPage (W.contents output.old) (W.contents output.new)) }
{
    let mut page = Page::new(alloc, false);
    for text in texts {
        push_lines(*text, &mut page);
    }
    print(&mut page, Ok(()), output)
}

// Appends the lines of a text.
fn push_lines(text: &'static str, page: &mut Page) {
    for line in text.lines() {
        page.push_line(line);
    }
}

/// Returns the end of the stream of this name, after this result. A line on `faults` says the
/// fault; but if nobody reads the output any more, none is written.
pub fn ended<E: Write>(done: Result<(), Fault>, name: &str, faults: &mut E) -> Ended
    ensures { result ≡ Ended.Whole → done ≡ Ok tt }
{
    match done {
        Ok(()) => Ended::Whole,
        Err(Fault::Write(reason)) => unwritten(PROGRAM, OUTPUT, reason, faults),
        Err(Fault::Read(reason)) => {
            tell(PROGRAM, name, reason, faults);
            Ended::Unread
        }
        Err(Fault::Recording(error)) => {
            tell(PROGRAM, name, error, faults);
            Ended::Unread
        }
        Err(Fault::Memory) => {
            tell(PROGRAM, name, "out of memory", faults);
            Ended::Unread
        }
    }
}

// Reads the stream to its end, and prints its lines, those of a chunk before the next is read. A
// read that fills the chunk has most likely left something.
fn dump<R: Read, W: Write>(
    alloc: Global,
    options: Options<'_>,
    name: &str,
    input: &mut R,
    output: &mut W,
) -> Result<(), Fault>
    ensures { OnOk result (AppendsPage (W.contents output.old) (W.contents output.new)) }
{
    let mut dump = Dump::new(alloc, options, name);
    let mut source = Source::new(alloc, options);
    dump_all(&mut source, &mut dump, input, output)
}

// Does the same, by way of this dump, to which nothing came yet, from this source.
#[tactic(auto, using(dump_page::proofs::PagesMore::no_pages))]
fn dump_all<R: Read, W: Write>(
    source: &mut Source<'_>,
    dump: &mut Dump<'_>,
    input: &mut R,
    output: &mut W,
) -> Result<(), Fault>
    ensures { OnOk result (AppendsPage (W.contents output.old) (W.contents output.new)) }
{
    let mut chunk = [0u8; CHUNK];
    for _ in 0..u64::MAX {
        let count = read_some(input, &mut chunk)?;
        if count == 0 {
            break;
        }
        let taken = source.take(&chunk[..count], count == CHUNK, dump);
        print(dump.page(), taken, output)?;
    }
    let taken = source.finish(dump);
    dump.finish();
    print(dump.page(), taken, output)
}

/// Reads some bytes, 0 at the end. A call that was interrupted is made again.
pub fn read_some<R: Read>(input: &mut R, chunk: &mut [u8]) -> Result<usize, Fault>
    ensures { IfOk result (λ n. n ≤ length chunk.new) }
{
    for _ in 0..u64::MAX {
        match input.read(chunk) {
            Ok(count) => return Ok(count),
            Err(error) => {
                if error.kind() != ErrorKind::Interrupted {
                    return Err(Fault::Read(Reason::of(&error)));
                }
            }
        }
    }
    Err(Fault::Read(Reason::of(&io::Error::from(ErrorKind::TimedOut))))
}

// Prints the lines, flushes and drops them, also if memory was refused after them, or the recording
// that they are of is not read on.
#[tactic(auto, using(dump_page::proofs::PagesMore::page_printed))]
fn print<W: Write>(
    page: &mut Page,
    taken: Result<(), TimeError>,
    output: &mut W,
) -> Result<(), Fault>
    ensures { OnOk result (AppendsPage (W.contents output.old) (W.contents output.new)) }
{
    match output.write_all(page.as_bytes()) {
        Ok(()) => {}
        Err(error) => return Err(Fault::Write(Reason::of(&error))),
    }
    page.clear();
    match output.flush() {
        Ok(()) => {}
        Err(error) => return Err(Fault::Write(Reason::of(&error))),
    }
    if page.is_refused() {
        return Err(Fault::Memory);
    }
    match taken {
        Ok(()) => Ok(()),
        Err(error) => Err(Fault::Recording(error)),
    }
}
