//! The names of files in place of their text.

use crate::options::Options;
use command_line::Shown;
use std::io;
use std::io::Write;

/// An output, or nothing in place of it.
#[derive(Drop)]
pub struct Passage<'a, W> {
    pub output: &'a mut W,
    /// Whether the text goes to the output.
    pub is_open: bool,
}

impl<'a, W: Write> Write for Passage<'a, W> {
    fn write(&mut self, buf: &[u8]) -> io::Result<usize> {
        if self.is_open {
            self.output.write(buf)
        } else {
            Ok(buf.len())
        }
    }

    fn flush(&mut self) -> io::Result<()> {
        if self.is_open {
            self.output.flush()
        } else {
            Ok(())
        }
    }
}

/// How the names of files are written.
#[derive(Clone, Copy)]
pub enum Names {
    /// As they are, each with a line feed after it.
    Lines,
    /// As they are, each with a zero byte after it.
    Nulls,
    /// For a terminal: characters that do not show as themselves are escaped, and a line feed comes
    /// after each.
    Shown,
}

impl Names {
    /// How they are written by these options, to a terminal or not.
    pub fn of(options: Options<'_>, is_terminal: bool) -> Names {
        if options.is_null {
            Names::Nulls
        } else if is_terminal {
            Names::Shown
        } else {
            Names::Lines
        }
    }
}

/// Writes a name.
pub fn write_name<W: Write>(name: &str, names: Names, output: &mut W) -> io::Result<()> {
    match names {
        Names::Lines => write_ended(name, b"\n", output)?,
        Names::Nulls => write_ended(name, b"\0", output)?,
        Names::Shown => writeln!(output, "{}", Shown(name))?,
    }
    output.flush()
}

// Writes a name as it is, and this after it.
fn write_ended<W: Write>(name: &str, end: &[u8], output: &mut W) -> io::Result<()> {
    output.write_all(name.as_bytes())?;
    output.write_all(end)
}
