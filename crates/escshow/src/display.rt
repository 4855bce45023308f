//! A terminal, and the lines that it leaves.

use crate::kept::unless;
use crate::options::{Form, Options, Size};
use esc_sheet::Log;
use esc_terminal::Terminal;
use std::alloc::{AllocError, Global};

// Ends a character or a sequence that is unfinished (CAN).
const END: &[u8] = b"\x18";

// Shows the main screen.
const TO_MAIN: &[u8] = b"\x1b[?47l";

/// A text or a size that a recording gives its terminal.
#[derive(Clone, Copy)]
pub enum Output<'a> {
    /// The text.
    Text(&'a str),
    /// The size.
    Size(Size),
}

/// A terminal, and the lines that it leaves, if they are asked for.
#[derive(Drop)]
pub struct Display {
    /// The terminal.
    pub terminal: Terminal,
    /// The lines.
    pub log: Option<Log>,
    /// The time of the last output of a recording, in microseconds.
    pub time: Option<u64>,
    /// The number of the line in which a recording is cut, if it is.
    pub cut: Option<u64>,
}

impl Display {
    /// Returns a terminal of this size that was fed nothing, by these options.
    pub fn new(alloc: Global, size: Size, options: Options) -> Result<Display, AllocError> {
        let mut terminal = terminal_of(alloc, size, options)?;
        let done = begin(&mut terminal, options);
        let log = if options.is_log {
            Some(Log::new(alloc, options.form != Form::Text))
        } else {
            None
        };
        let display = Display {
            terminal,
            log,
            time: None,
            cut: None,
        };
        unless(done, display)
    }

    /// Takes bytes more.
    pub fn feed(&mut self, bytes: &[u8]) -> Result<(), AllocError> {
        let Some(log) = self.log.take() else {
            return self.terminal.feed(bytes);
        };
        let (result, log) = self.terminal.feed_into(bytes, log);
        self.log = Some(log);
        result
    }

    // Gives the terminal another size.
    fn resize(&mut self, size: Size) -> Result<(), AllocError> {
        let Some(log) = self.log.take() else {
            return self.terminal.resize(size.columns, size.rows);
        };
        let (result, log) = self.terminal.resize_into(size.columns, size.rows, log);
        self.log = Some(log);
        result
    }

    /// Takes a text or a size of a recording.
    pub fn take(&mut self, output: Output<'_>) -> Result<(), AllocError> {
        match output {
            Output::Text(text) => self.feed(text.as_bytes()),
            Output::Size(size) => self.resize(size),
        }
    }

    /// Ends a character or a sequence that is unfinished, and adds the rows of the main screen to
    /// the lines, if they are asked for.
    pub fn end(&mut self) -> Result<(), AllocError> {
        self.feed(END)?;
        let Some(log) = &mut self.log else {
            return Ok(());
        };
        self.terminal.feed(TO_MAIN)?;
        match (self.terminal.screen(), self.terminal.styles()) {
            (Some(screen), Some(styles)) => log.push_screen(screen, styles),
            _ => Err(AllocError),
        }
    }
}

// Returns a terminal of this size.
fn terminal_of(alloc: Global, size: Size, options: Options) -> Result<Terminal, AllocError> {
    if options.is_log && !options.is_cast {
        Terminal::for_log(alloc, size.columns, size.rows)
    } else {
        Terminal::new(alloc, size.columns, size.rows)
    }
}

// Sets the modes that the options ask for.
fn begin(terminal: &mut Terminal, options: Options) -> Result<(), AllocError> {
    if options.has_new_lines {
        terminal.feed(b"\x1b[20h")
    } else {
        Ok(())
    }
}
