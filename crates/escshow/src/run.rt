//! Characters of a row that make one element of a picture.

use crate::svg::{HEIGHT, MARGIN, Svg, WIDTH, append_shown, has_lines};
use esc_screen::{Cell, Content, Marks};
use esc_sheet::View;
use fallible_alloc::push_char;
use std::alloc::{AllocError, Global};

/// Characters of one row in one look.
#[derive(Drop)]
pub struct Run {
    // the column of the first
    column: u32,
    // the number of columns
    width: u32,
    // the number of their look
    number: u16,
    // says whether it is one wide character
    is_wide: bool,
    // the number of blank columns at its end
    blanks: u32,
    // the characters before these, each spelled that does not show
    text: String,
}

impl Run {
    /// Returns a run of no cell.
    pub fn new(alloc: Global) -> Run {
        Run {
            column: 0,
            width: 0,
            number: 0,
            is_wide: false,
            blanks: 0,
            text: String::new(alloc),
        }
    }

    /// Begins anew with this cell, still without it.
    pub fn begin(&mut self, column: u32, cell: &Cell) {
        self.column = column;
        self.width = 0;
        self.number = cell.look;
        self.is_wide = false;
        self.blanks = 0;
        self.text.clear();
    }

    /// Returns whether this cell is one more of it.
    pub fn goes_on(&self, cell: &Cell) -> bool {
        if self.width == 0 {
            return false;
        }
        match cell.content {
            Content::Rest => true,
            Content::Wide(_, _) => false,
            Content::Blank | Content::Narrow(_, _) => !self.is_wide && cell.look == self.number,
        }
    }

    /// Adds this cell.
    pub fn add_cell(&mut self, cell: &Cell) -> Result<(), AllocError> {
        self.width = self.width.saturating_add(1);
        match cell.content {
            Content::Blank => self.blanks = self.blanks.saturating_add(1),
            Content::Rest => {}
            Content::Narrow(' ', marks) if marks.first.is_none() => {
                self.blanks = self.blanks.saturating_add(1);
            }
            Content::Narrow(c, marks) => self.add(c, marks)?,
            Content::Wide(c, marks) => {
                self.is_wide = true;
                self.add(c, marks)?;
            }
        }
        Ok(())
    }

    // Adds spaces for the blank columns.
    fn fill(&mut self) -> Result<(), AllocError> {
        for _ in 0..self.blanks {
            push_char(&mut self.text, ' ')?;
        }
        self.blanks = 0;
        Ok(())
    }

    // Adds a character with its marks.
    fn add(&mut self, c: char, marks: Marks) -> Result<(), AllocError> {
        self.fill()?;
        append_shown(&mut self.text, None, c)?;
        for mark in [marks.first, marks.second] {
            if let Some(mark) = mark {
                append_shown(&mut self.text, Some(c), mark)?;
            }
        }
        Ok(())
    }

    /// Appends the ground of the run and its characters, where something is seen of them.
    pub fn push(&mut self, svg: &mut Svg, view: View<'_>, row: u16) -> Result<(), AllocError> {
        if self.width == 0 {
            return Ok(());
        }
        let look = view.look_at(self.number);
        if has_lines(&look) {
            self.fill()?;
        }
        let left = MARGIN.saturating_add(self.column.saturating_mul(WIDTH));
        let top = MARGIN.saturating_add(u32::from(row) * HEIGHT);
        svg.push_ground(&look, left, top, self.width);
        let width = self.width.saturating_sub(self.blanks);
        if !look.concealed && width > 0 {
            svg.push_characters(&look, left, top, width, self.text.as_str());
        }
        Ok(())
    }
}
