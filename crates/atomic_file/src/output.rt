//! The output of a program that is given the name of a file.

use crate::NewFile;
use crate::fault::FileFault;
use crate::links::{is_descriptor, led_to};
use crate::stream::Stream;
use command_line::is_text;
use std::fs::{OpenOptions, metadata};
use std::io;
use std::io::{ErrorKind, IsTerminal, Write};

/// The output of a program that is given the name of a file.
#[derive(Drop)]
pub enum Output {
    /// Goes to a new file, which is to take the place of the one of this name, or of none.
    New(NewFile<HostRuntime>),
    /// Goes as it comes to a file that is there already and is no regular file, or is open already.
    Stream(Stream),
}

impl Output {
    /// Returns the output that is given this name. If it is the name of a link, the name that the
    /// link leads to is meant, whether there is such a file or not.
    ///
    /// It goes to a new file, as to [`NewFile::over`], if there is a regular file or none; to
    /// standard output or error if the name is theirs, as `/dev/stdout`; and to the file itself if
    /// that is no regular file, as a pipe or a terminal, or is open already, as `/dev/fd/3`.
    ///
    /// The error says why it cannot go there: it is a folder, its name is not UTF-8, or the system
    /// refuses it.
    pub fn of(rt: &HostRuntime, name: &str, suffix: &str) -> Result<Output, FileFault<'static>> {
        if !is_text(name) {
            return Err(FileFault::NoText);
        }
        let place = led_to(rt, name)?;
        let place = place.as_str();
        match standard(rt, place) {
            Some(stream) => Ok(Output::Stream(stream)),
            None => at(rt, place, suffix),
        }
    }

    /// Puts a new file in its place if it is whole, as [`NewFile::end`] does; for output that is
    /// written as it comes there is nothing to do. The error is that of [`NewFile::end`].
    pub fn end(self, rt: &HostRuntime, is_whole: bool) -> Result<(), FileFault<'static>> {
        match self {
            Output::New(new) => new.end(rt, "", is_whole),
            Output::Stream(_) => Ok(()),
        }
    }

    /// Returns whether it is a terminal.
    pub fn is_terminal(&self) -> bool {
        match self {
            Output::New(_) => false,
            Output::Stream(Stream::Output(output)) => output.is_terminal(),
            Output::Stream(Stream::Error(error)) => error.is_terminal(),
            Output::Stream(Stream::Opened(file)) => file.is_terminal(),
        }
    }
}

impl Write for Output {
    fn write(&mut self, buf: &[u8]) -> io::Result<usize> {
        match self {
            Output::New(new) => new.file.write(buf),
            Output::Stream(stream) => stream.write(buf),
        }
    }

    fn flush(&mut self) -> io::Result<()> {
        match self {
            Output::New(new) => new.file.flush(),
            Output::Stream(stream) => stream.flush(),
        }
    }
}

// Returns the standard stream of this name.
fn standard(rt: &HostRuntime, name: &str) -> Option<Stream> {
    match name {
        "/dev/fd/1" | "/proc/self/fd/1" => Some(Stream::Output(rt.stdout())),
        "/dev/fd/2" | "/proc/self/fd/2" => Some(Stream::Error(rt.stderr())),
        _ => None,
    }
}

// Returns the output that is given this name, which is that of no link.
fn at(rt: &HostRuntime, place: &str, suffix: &str) -> Result<Output, FileFault<'static>> {
    match metadata(rt, place) {
        Ok(known) if known.is_dir() => Err(FileFault::folder()),
        Ok(known) if known.is_file() && !is_descriptor(place) => {
            Ok(Output::New(NewFile::over(rt, place, &known, suffix)?))
        }
        Ok(known) => {
            // (a file that is open already keeps its content)
            let mut options = OpenOptions::new();
            options.write(true).append(known.is_file());
            Ok(Output::Stream(Stream::Opened(options.open(rt, place)?)))
        }
        Err(error) if error.kind() == ErrorKind::NotFound => {
            Ok(Output::New(NewFile::at(rt, place, suffix)?))
        }
        Err(error) => Err(FileFault::from(error)),
    }
}
