//! Files beside the output, for reports, events and timing.
ghost use Rattle.std.specs.Prelude.{◌≡◌, IsErr, OnErr, is_some, true};

use atomic_file::{FileFault, Output};
use command_line::{ErrorCapture, Reason};
use std::alloc::Global;
use std::io;
use std::io::Write;

/// A file beside the output. Each flush writes the bytes since the last one. After an error nothing
/// more is written.
#[derive(Drop)]
pub struct Aside {
    output: ErrorCapture<Output>,
    // the bytes since the last flush
    held: Vec<u8>,
    // the reason of the error
    fault: Option<Reason>,
}

impl Aside {
    /// A file at this place, with no bytes yet. Takes no memory.
    pub fn new(alloc: Global, output: Output) -> Aside {
        Aside {
            output: ErrorCapture::new(output),
            held: Vec::new(alloc),
            fault: None,
        }
    }

    /// Puts the file in its place. After an error, also of an earlier write, the old file stays.
    pub fn end(self, rt: &HostRuntime) -> Result<(), FileFault<'static>>
        ensures { is_some self.fault ≡ true → IsErr result }
    {
        let Aside {
            output,
            held: _,
            fault,
        } = self;
        let ended = output.into_inner().end(rt, fault.is_none());
        match fault {
            Some(reason) => Err(FileFault::Refused(reason)),
            None => ended,
        }
    }

    /// Removes the file. The old file stays.
    pub fn give_up(self, rt: &HostRuntime) {
        let _ = self.output.into_inner().end(rt, false);
    }

    /// Notes that the file cannot be whole, for this reason.
    pub fn fail(&mut self, error: &io::Error)
        ensures { is_some self.new.fault ≡ true }
    {
        self.fault = Some(Reason::of(error));
    }

    // Writes the held bytes, and notes an error.
    fn write_noted(&mut self) -> io::Result<()>
        ensures lost { OnErr result (is_some self.new.fault ≡ true) }
    {
        let written = self.write_held();
        self.held.clear();
        match written {
            Ok(()) => Ok(()),
            Err(fault) => {
                self.fail(&fault);
                Err(fault)
            }
        }
    }

    // Writes the held bytes.
    fn write_held(&mut self) -> io::Result<()> {
        self.output.write_all(&self.held)?;
        self.output.flush()
    }
}

impl Write for Aside {
    fn write(&mut self, buf: &[u8]) -> io::Result<usize> {
        match self.held.extend_from_slice(buf) {
            Ok(()) => Ok(buf.len()),
            Err(error) => {
                let error = io::Error::from(error);
                self.fail(&error);
                Err(error)
            }
        }
    }

    fn flush(&mut self) -> io::Result<()> {
        if self.fault.is_some() {
            return Ok(());
        }
        self.write_noted()
    }
}
