//! The differences.
use crate::fault::Fault;
use crate::line::number;
use std::alloc::{AllocError, Global};

// Says how many characters of a text are shown.
const SHOWN: usize = 2000;

/// The number of rows that were checked, of differences that were seen, and a line for each, unless
/// there is no memory for it.
#[derive(Drop)]
pub struct Report {
    pub rows: usize,
    pub differences: usize,
    pub lines: String,
}

impl Report {
    /// Returns an empty report.
    pub fn new(alloc: Global) -> Report {
        Report {
            rows: 0,
            differences: 0,
            lines: String::new(alloc),
        }
    }

    /// Notes a fault of a row.
    pub fn note(&mut self, row: &str, fault: &str) {
        self.differences = self.differences.saturating_add(1);
        let _ = writeln!(self.lines, "  {row}: {fault}");
    }

    /// Notes a fault of a row, if its test is not right.
    pub fn note_unless(&mut self, is_right: bool, row: &str, fault: &str) {
        if !is_right {
            self.note(row, fault);
        }
    }

    /// Notes why a row cannot be read, if it cannot.
    pub fn note_fault(&mut self, row: &str, reading: Result<(), Fault>) {
        match reading {
            Ok(()) => {}
            Err(fault) => self.note(row, fault.0),
        }
    }

    /// Returns the number that a text of a row is. If it is none, that is noted.
    pub fn number_of(&mut self, row: &str, text: &str) -> usize {
        match number(text) {
            Ok(number) => number,
            Err(fault) => {
                self.note(row, fault.0);
                0
            }
        }
    }

    /// Notes a difference, if the result of the library is not the wanted text. It shows the
    /// beginning of a long text. It takes the result, since a caller that has it to drop is dearer
    /// to prove.
    pub fn expect(&mut self, row: &str, what: &str, wanted: &str, got: Result<String, AllocError>) {
        match got {
            Ok(got) => self.compare(row, what, wanted, got.as_str()),
            Err(_) => self.note(row, "out of memory"),
        }
    }

    // Notes a difference between two texts, if there is one.
    fn compare(&mut self, row: &str, what: &str, wanted: &str, got: &str) {
        if wanted != got {
            self.note(row, what);
            let _ = self.show("wanted", wanted);
            let _ = self.show("got   ", got);
        }
    }

    // Shows the beginning of a text, and its control characters by their numbers.
    fn show(&mut self, word: &str, text: &str) -> Result<(), AllocError> {
        write!(self.lines, "    {word} ")?;
        for c in text.chars().take(SHOWN) {
            if c.is_control() {
                write!(self.lines, "\\x{:02x}", c as u32)?;
            } else {
                self.lines.push(c)?;
            }
        }
        writeln!(self.lines, "")
    }
}
