//! The faults that stop the program.
ghost use Rattle.std.specs.Prelude.{◌≡◌};

use command_line::{Ended, Reason, Shown, tell, unwritten};
use std::alloc::AllocError;
use std::io::Write;

/// The program's name.
pub const PROGRAM: &str = "escshow";

/// A fault that stops the program at a stream.
#[derive(Clone, Copy)]
pub enum Fault {
    /// A read failed, for this reason.
    Read(Reason),
    /// A write or a flush failed, for this reason.
    Write(Reason),
    /// Memory was refused.
    Memory,
    /// The line of this number is no line of a recording.
    Line(u64),
}

impl From<AllocError> for Fault {
    fn from(_error: AllocError) -> Fault {
        Fault::Memory
    }
}

/// Returns the end of the stream of this name, after this result. A line on `faults` says the
/// fault; but if nobody reads the output of this name any more, none is written.
pub fn ended<E: Write>(
    done: Result<(), Fault>,
    name: &str,
    output_name: &str,
    faults: &mut E,
) -> Ended
    ensures { result ≡ Ended.Whole → done ≡ Ok tt }
{
    match done {
        Ok(()) => Ended::Whole,
        Err(Fault::Write(reason)) => unwritten(PROGRAM, output_name, reason, faults),
        Err(Fault::Read(reason)) => {
            tell(PROGRAM, name, reason, faults);
            Ended::Unread
        }
        Err(Fault::Memory) => {
            tell(PROGRAM, name, "out of memory", faults);
            Ended::Unread
        }
        Err(Fault::Line(number)) => {
            tell_line(name, number, faults);
            Ended::Unread
        }
    }
}

/// Writes a line on `faults`, if the file of this name is cut in a line: the number of that.
pub fn tell_cut<E: Write>(name: &str, cut: Option<u64>, faults: &mut E) {
    let Some(number) = cut else {
        return;
    };
    let name = Shown(name);
    let _ = writeln!(
        faults,
        "{PROGRAM}: {name}: it is cut in line {number}, which is left out"
    );
}

// Writes a line on `faults`: that a line of the file of this name is none of a recording.
fn tell_line<E: Write>(name: &str, number: u64, faults: &mut E) {
    let name = Shown(name);
    let _ = writeln!(
        faults,
        "{PROGRAM}: {name}: line {number} is no line of a recording"
    );
}
