//! This module says in which cells the screens of two streams differ.

use crate::display::Display;
use crate::fault::{Fault, ended, tell_cut};
use crate::frames::Frames;
use crate::kept::unless;
use crate::options::Options;
use crate::reading::display_of;
use crate::showing::{print_sheet, view_of};
use command_line::{Ended, Work};
use esc_sheet::{Sheet, View, push_differences};
use esc_terminal::Terminal;
use std::alloc::{AllocError, Global};
use std::io::{Read, Write};

/// Compares two streams, one after the other.
pub trait Compare: Work {
    /// Returns whether they differ.
    fn differ(&self) -> bool;
}

/// Compares the screens of two streams, one after the other.
#[derive(Drop)]
pub struct Differing<'a, W, E> {
    pub alloc: Global,
    pub options: Options,
    /// The name of the output.
    pub output_name: &'a str,
    pub output: &'a mut W,
    /// The output for faults.
    pub faults: E,
    /// The terminal of the first.
    pub first: Option<Terminal>,
    /// Says whether they differ.
    pub differ: bool,
}

impl<'a, W: Write, E: Write> Compare for Differing<'a, W, E> {
    fn differ(&self) -> bool {
        self.differ
    }
}

impl<'a, W: Write, E: Write> Work for Differing<'a, W, E> {
    fn take<R: Read + Drop>(&mut self, name: &str, input: R) -> Ended {
        let done = match display_of(self.alloc, self.options, input, self) {
            Ok(display) => {
                tell_cut(name, display.cut, &mut self.faults);
                self.take_terminal(display.terminal)
            }
            Err(fault) => Err(fault),
        };
        ended(done, name, self.output_name, &mut self.faults)
    }
}

// It compares the screens at the end alone.
impl<'a, W: Write, E: Write> Frames for Differing<'a, W, E> {
    fn take_frame(&mut self, _display: &Display) -> Result<(), Fault> {
        Ok(())
    }
}

impl<'a, W: Write, E: Write> Differing<'a, W, E> {
    // Takes the terminal of a stream: keeps the first, and compares the second with it.
    fn take_terminal(&mut self, terminal: Terminal) -> Result<(), Fault> {
        let sheet = compared(self.alloc, &mut self.first, terminal)?;
        self.differ = !sheet.as_str().is_empty();
        print_sheet(&sheet, self.output)
    }
}

// A value with a screen that is seen.
trait Seen {
    // Returns the view of its screen.
    fn view(&self) -> Result<View<'_>, AllocError>;
}

impl Seen for Terminal {
    fn view(&self) -> Result<View<'_>, AllocError> {
        view_of(self, true)
    }
}

// Keeps the first of two, and returns the differences of the second from it.
fn compared<T: Seen + Drop>(
    alloc: Global,
    first: &mut Option<T>,
    other: T,
) -> Result<Sheet, AllocError> {
    let mut sheet = Sheet::new(alloc);
    let done = match first.take() {
        Some(one) => push_of(&mut sheet, &one, &other),
        None => {
            *first = Some(other);
            Ok(())
        }
    };
    unless(done, sheet)
}

// Appends the differences of the second from the first.
fn push_of<T: Seen>(sheet: &mut Sheet, one: &T, other: &T) -> Result<(), AllocError> {
    push_differences(sheet, one.view()?, other.view()?)
}
