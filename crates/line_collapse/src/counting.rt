//! The text of rows.
ghost use Rattle.std.specs.Prelude.{◌≡◌};
ghost use Rattle.line_collapse.specs.Amounts.{Adds};
ghost use Rattle.line_collapse.specs.RowText.{cell_bytes, cell_chars, marked_bytes, marked_chars, row_bytes, row_chars, some_bytes, some_chars};

use crate::amount::Amount;
use esc_screen::{Cell, Content, Marks};

impl Amount {
    /// Adds the characters of a row, and the marks on them.
    pub fn add_row(&mut self, cells: &[Cell])
        ensures { Adds (row_chars cells.now) (row_bytes cells.now) self.old self.new }
    {
        for cell in cells {
            self.add_cell(cell);
        }
    }

    #[inline]
    fn add_cell(&mut self, cell: &Cell)
        ensures { Adds (cell_chars cell.now) (cell_bytes cell.now) self.old self.new }
    {
        match cell.content {
            Content::Blank | Content::Rest => {}
            Content::Narrow(c, marks) | Content::Wide(c, marks) => self.add_marked(c, marks),
        }
    }

    // Adds a character and its marks.
    #[inline]
    fn add_marked(&mut self, c: char, marks: Marks)
        ensures { Adds (marked_chars marks) (marked_bytes c marks) self.old self.new }
    {
        self.add_some(Some(c));
        self.add_some(marks.first);
        self.add_some(marks.second);
    }

    // Adds a character, if there is one.
    #[inline]
    fn add_some(&mut self, c: Option<char>)
        ensures { Adds (some_chars c) (some_bytes c) self.old self.new }
    {
        match c {
            Some(c) => self.add(1, c.len_utf8() as u64),
            None => {}
        }
    }
}
