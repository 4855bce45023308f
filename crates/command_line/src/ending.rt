//! The ends of a stream, and the messages and the status of a program for each.
ghost use Rattle.std.specs.Prelude.{◌≡◌};
ghost use Rattle.command_line.specs.Endings.{last_status, status_after};

use crate::reason::Reason;
use crate::showing::Shown;
use crate::wrong::Wrong;
use std::fmt::Display;
use std::io;
use std::io::Write;

/// The status of a program that did its task.
pub const DONE: u8 = 0;

/// That of one which a file, its output or memory hindered.
pub const FAULT: u8 = 1;

/// That of one whose words are wrong.
pub const USAGE_FAULT: u8 = 2;

// That of a program which the signal SIGPIPE ends, as a shell gives it: 128 and 13.
const CLOSED: u8 = 141;

/// The end of a stream.
#[derive(Clone, Copy, PartialEq, Eq)]
pub enum Ended {
    /// It was read to its end, and its output was written.
    Whole,
    /// It could not be read to its end, or memory was refused.
    Unread,
    /// Its output could not be written.
    Unwritten,
    /// Nobody reads the output any more.
    Closed,
}

/// Returns the status after a stream that ended so, if it was this one before. An error if no
/// further stream can be written.
pub fn status_after(ended: Ended, status: u8) -> Result<u8, u8>
    ensures { result ≡ status_after ended status }
{
    match ended {
        Ended::Whole => Ok(status),
        Ended::Unread => Ok(FAULT),
        Ended::Unwritten => Err(FAULT),
        Ended::Closed => Err(CLOSED),
    }
}

/// Returns the status after a stream that ended so, if none follows.
pub fn last_status(ended: Ended) -> u8
    ensures { result ≡ last_status ended }
{
    match status_after(ended, DONE) {
        Ok(status) => status,
        Err(status) => status,
    }
}

/// Returns the status of a program whose words are wrong. A line on `faults` says which, and if it
/// is not memory that was refused, another which option says the right ones.
pub fn refused<E: Write>(program: &str, wrong: Wrong<'_>, faults: &mut E) -> u8 {
    let _ = writeln!(faults, "{program}: {wrong}");
    if wrong.is_fault() {
        return FAULT;
    }
    let _ = writeln!(faults, "Try '{program} --help' for more.");
    USAGE_FAULT
}

/// Returns the status of a program that only had to write a text to the output of this name, with
/// this outcome. If it could not, a line on `faults` says why; but if nobody reads the output any
/// more, none is written.
pub fn status_of_text<E: Write>(
    program: &str,
    output: &str,
    written: io::Result<()>,
    faults: &mut E,
) -> u8 {
    match written {
        Ok(()) => DONE,
        Err(error) => last_status(unwritten(program, output, Reason::of(&error), faults)),
    }
}

/// Returns the status of a program that cannot write the file of this name. A line on `faults` says
/// the fault.
pub fn unwritable<D: Display + Drop, E: Write>(
    program: &str,
    name: &str,
    hindrance: D,
    faults: &mut E,
) -> u8 {
    tell(program, name, hindrance, faults);
    FAULT
}

/// Returns the end of a stream of this name that could not be read. A line on `faults` says the
/// fault.
pub fn unread<D: Display + Drop, E: Write>(
    program: &str,
    name: &str,
    hindrance: D,
    faults: &mut E,
) -> Ended {
    tell(program, name, hindrance, faults);
    Ended::Unread
}

/// Returns the end of a stream that cannot be written any further, since a write to the output of
/// this name failed for this reason. A line on `faults` says so; but if nobody reads the output any
/// more, none is written.
pub fn unwritten<E: Write>(program: &str, output: &str, reason: Reason, faults: &mut E) -> Ended
    ensures { result ≡ Ended.Whole → ⊥ }
{
    if reason.is_closed() {
        return Ended::Closed;
    }
    tell(program, output, reason, faults);
    Ended::Unwritten
}

/// The place of an early end of a stream.
#[derive(Clone, Copy)]
pub enum Place<'a> {
    /// The stream ended early at its input, which has this name.
    Input(&'a str),
    /// The stream ended early at the output of this name.
    Output(&'a str),
}

/// Returns the end of a stream, with this outcome of a program's work on it. An error came at this
/// place, and the last error of its reader and writer had this reason. A line on `faults` says the
/// fault; but if nobody reads the output any more, none is written.
pub fn ended_by<D: Display + Drop, E: Write>(
    program: &str,
    outcome: Result<(), D>,
    place: Place<'_>,
    reason: Option<Reason>,
    faults: &mut E,
) -> Ended
    ensures { result ≡ Ended.Whole → outcome ≡ Ok tt }
{
    match outcome {
        Ok(()) => Ended::Whole,
        Err(error) => hindered(program, place, error, reason, faults),
    }
}

// Returns the end of a stream that this error ended early.
fn hindered<D: Display + Drop, E: Write>(
    program: &str,
    place: Place<'_>,
    error: D,
    reason: Option<Reason>,
    faults: &mut E,
) -> Ended
    ensures { result ≡ Ended.Whole → ⊥ }
{
    match (place, reason) {
        (Place::Output(name), Some(reason)) => unwritten(program, name, reason, faults),
        (Place::Output(name), None) => {
            tell(program, name, "takes nothing", faults);
            Ended::Unwritten
        }
        (Place::Input(name), Some(reason)) => {
            tell(program, name, reason, faults);
            Ended::Unread
        }
        (Place::Input(name), None) => {
            tell(program, name, error, faults);
            Ended::Unread
        }
    }
}

/// Writes a line on `faults`: the fault of a program at the stream of this name.
pub fn tell<D: Display + Drop, E: Write>(program: &str, name: &str, hindrance: D, faults: &mut E) {
    let name = Shown(name);
    let _ = writeln!(faults, "{program}: {name}: {hindrance}");
}
