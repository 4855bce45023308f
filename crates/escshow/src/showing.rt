//! Screens of streams that are written to one output, one after another.
ghost use Rattle.std.specs.Prelude.{OnOk};
ghost use Rattle.std.specs.Io.KnownBytes.{Appends};
ghost use Rattle.esc_sheet.specs.Sheets.{AppendsSheet};

use crate::display::Display;
use crate::fault::{Fault, ended, tell_cut};
use crate::frames::Frames;
use crate::html::{HEAD, html_of};
use crate::options::{Form, Options};
use crate::reading::display_of;
use crate::seconds::heading_of;
use crate::svg::picture_of;
use command_line::{Ended, Reason, Work};
use esc_sheet::{Sheet, View, push_object, push_rows};
use esc_terminal::Terminal;
use std::alloc::{AllocError, Global};
use std::io::{Read, Write};

/// A writer of the screens of streams to one output.
#[derive(Drop)]
pub struct Showing<'a, W, E> {
    pub alloc: Global,
    pub options: Options,
    /// The name of the output.
    pub output_name: &'a str,
    pub output: &'a mut W,
    /// The output for faults.
    pub faults: E,
    /// Says whether nothing was written yet.
    pub is_first: bool,
}

impl<'a, W: Write, E: Write> Work for Showing<'a, W, E> {
    fn take<R: Read + Drop>(&mut self, name: &str, input: R) -> Ended {
        let done = match display_of(self.alloc, self.options, input, self) {
            Ok(display) => {
                let done = self.write_last(&display);
                tell_cut(name, display.cut, &mut self.faults);
                done
            }
            Err(fault) => Err(fault),
        };
        ended(done, name, self.output_name, &mut self.faults)
    }
}

impl<'a, W: Write, E: Write> Frames for Showing<'a, W, E> {
    fn take_frame(&mut self, display: &Display) -> Result<(), Fault> {
        self.write(display)
    }
}

impl<'a, W: Write, E: Write> Showing<'a, W, E> {
    // Writes the screen at the end, unless one screen after another is asked for and nothing was
    // output.
    fn write_last(&mut self, display: &Display) -> Result<(), Fault> {
        if self.options.every.is_some() && display.time.is_none() {
            return self.write_head();
        }
        self.write(display)
    }

    // Writes the lines that a terminal leaves, if they are asked for, or its screen.
    fn write(&mut self, display: &Display) -> Result<(), Fault> {
        if let Some(log) = &display.log {
            return self.write_sheet(log.sheet());
        }
        if self.options.form == Form::Svg {
            return self.write_picture(&display.terminal);
        }
        self.write_heading(display.time)?;
        let sheet = sheet_of(self.alloc, &display.terminal, self.options.form)?;
        self.write_sheet(&sheet)
    }

    // Writes the picture of a terminal's screen.
    fn write_picture(&mut self, terminal: &Terminal) -> Result<(), Fault> {
        let svg = picture_of(self.alloc, view_of(terminal, true)?)?;
        print(svg.as_str(), self.output)
    }

    // Writes the time of a screen of a recording, if one screen after another is written, other
    // than as JSON.
    fn write_heading(&mut self, time: Option<u64>) -> Result<(), Fault> {
        match (self.options.every, time) {
            (Some(_), Some(time)) => match self.options.form {
                Form::Json | Form::Svg => Ok(()),
                Form::Text | Form::Color | Form::Html => {
                    self.write_head()?;
                    let line = heading_of(self.alloc, time)?;
                    print(line.as_str(), self.output)
                }
            },
            _ => Ok(()),
        }
    }

    // Writes the beginning of a page, if nothing of it was written yet.
    fn write_head(&mut self) -> Result<(), Fault> {
        if self.options.form != Form::Html || !self.is_first {
            return Ok(());
        }
        self.is_first = false;
        print(HEAD, self.output)
    }

    // Writes a text, or the HTML of it.
    fn write_sheet(&mut self, sheet: &Sheet) -> Result<(), Fault> {
        if self.options.form != Form::Html {
            return print_sheet(sheet, self.output);
        }
        self.write_head()?;
        let html = html_of(self.alloc, sheet.as_str())?;
        print(html.as_str(), self.output)
    }
}

/// Returns the view of a terminal's screen, with looks or without.
pub fn view_of(terminal: &Terminal, has_looks: bool) -> Result<View<'_>, AllocError> {
    match (terminal.screen(), terminal.styles()) {
        (Some(screen), Some(styles)) => Ok(View {
            screen,
            styles,
            title: terminal.title(),
            icon_name: terminal.icon_name(),
            has_looks,
        }),
        _ => Err(AllocError),
    }
}

// Returns the sheet of a terminal's screen in this form; for HTML, the sheet from which it is made.
fn sheet_of(alloc: Global, terminal: &Terminal, form: Form) -> Result<Sheet, AllocError> {
    let mut sheet = Sheet::new(alloc);
    match form {
        Form::Json => push_object(&mut sheet, view_of(terminal, true)?)?,
        Form::Text => push_rows(&mut sheet, view_of(terminal, false)?)?,
        Form::Color | Form::Html | Form::Svg => push_rows(&mut sheet, view_of(terminal, true)?)?,
    }
    Ok(sheet)
}

/// Writes the text of a sheet, and flushes: no more is written.
pub fn print_sheet<W: Write>(sheet: &Sheet, output: &mut W) -> Result<(), Fault>
    ensures { OnOk result (AppendsSheet (W.contents output.old) (W.contents output.new)) }
{
    print(sheet.as_str(), output)
}

/// Writes a text, and flushes: no more is written.
#[tactic(auto, using(crate::proofs::Printed::appends_kept))]
pub fn print<W: Write>(text: &str, output: &mut W) -> Result<(), Fault>
    ensures { OnOk result (Appends (W.contents output.old) (W.contents output.new) text.now) }
{
    match output.write_all(text.as_bytes()) {
        Ok(()) => {}
        Err(error) => return Err(Fault::Write(Reason::of(&error))),
    }
    match output.flush() {
        Ok(()) => Ok(()),
        Err(error) => Err(Fault::Write(Reason::of(&error))),
    }
}
