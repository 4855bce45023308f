//! This module keeps the lines that a terminal leaves. An error is that memory was refused.

use crate::rows::{end_lines, push_row};
use crate::sheet::Sheet;
use crate::view::Seen;
use esc_screen::{Cell, Screen, is_joined};
use esc_terminal::{Rows, Styles};
use std::alloc::{AllocError, Allocator, Global};

/// The lines that a terminal leaves: the rows that are scrolled off its screen, which it takes as
/// [`Rows`], and then those of the screen. A row that goes on in the next one, by a wrap, is one
/// line with it.
#[derive(Drop)]
pub struct Log {
    sheet: Sheet,
    has_looks: bool,
    // says whether the last line has no end yet
    is_open: bool,
}

impl Log {
    /// Returns a log without lines. Takes no memory.
    pub fn new(alloc: Global, has_looks: bool) -> Log {
        Log {
            sheet: Sheet::new(alloc),
            has_looks,
            is_open: false,
        }
    }

    /// Returns the lines, as text.
    pub fn sheet(&self) -> &Sheet {
        &self.sheet
    }

    /// Adds the rows of a screen, whose cells have the numbers of these looks and links, without
    /// the last ones that show nothing; and ends the line.
    pub fn push_screen(&mut self, screen: &Screen, styles: &Styles) -> Result<(), AllocError> {
        let seen = self.seen(styles);
        let mut missing: u16 = 0;
        for at in 0..screen.height() {
            let cells = screen.row(at as usize);
            if seen.hides_all(cells) && !is_joined(cells) {
                missing = missing.saturating_add(1);
            } else {
                self.end_lines(missing)?;
                missing = 0;
                self.push_row(cells, seen)?;
            }
        }
        self.end()
    }

    // Ends the line, if it has no end.
    fn end(&mut self) -> Result<(), AllocError> {
        if self.is_open {
            self.end_lines(1)
        } else {
            Ok(())
        }
    }

    // Ends so many lines.
    fn end_lines(&mut self, count: u16) -> Result<(), AllocError> {
        if count > 0 {
            self.is_open = false;
        }
        end_lines(&mut self.sheet, count)
    }

    // Adds a row, and ends the line where the row does not go on.
    fn push_row<A: Allocator + Copy>(
        &mut self,
        cells: &[Cell],
        seen: Seen<'_, A>,
    ) -> Result<(), AllocError> {
        push_row(&mut self.sheet, cells, seen)?;
        self.is_open = is_joined(cells);
        if self.is_open {
            Ok(())
        } else {
            self.sheet.end_line()
        }
    }

    // Says how cells look that have the numbers of these looks and links.
    fn seen<'a, A: Allocator + Copy>(&self, styles: &'a Styles<A>) -> Seen<'a, A> {
        Seen {
            styles,
            has_looks: self.has_looks,
            is_reversed: false,
        }
    }
}

/// Adds each row, and ends the line if the row does not go on.
impl Rows for Log {
    ghost takes = { λ p r q. Unit {0} };

    ghost fails = { Unit {0} };

    fn take_row<A: Allocator + Copy>(
        &mut self,
        cells: &[Cell],
        styles: &Styles<A>,
    ) -> Result<(), AllocError> {
        self.push_row(cells, self.seen(styles))
    }
}
