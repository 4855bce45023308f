//! A row of cells.
ghost use Rattle.std.specs.Prelude.{◌≡◌, ◌+◌, ◌<◌, ◌^◌, IfOk, OnErr, length};
ghost use Rattle.esc_screen.specs.Cells.{blank_row, cleared_cells, content_at, deleted_cells, erased_cells, filled_cells, filled_part, inserted_cells, joined_at, marked_cells, cells_with, put_all, put_wide, shifted_cells};
ghost use Rattle.esc_screen.specs.Resized.{resized_row};
ghost use Rattle.esc_screen.specs.Used.{IsUnusedFrom};
ghost use Rattle.fallible_alloc.specs.Refusals.{Refused};

use crate::cell::Cell;
use crate::cells;
use crate::content::Content;
use crate::shift::Shift;
use std::alloc::{AllocError, Allocator, Global};
use std::marker::Model;

/// A row of cells. Contracts see these.
#[derive(Drop)]
pub(crate) struct Row<A: Allocator = Global> {
    cells: Vec<Cell, A>,
    // each cell from this one on is as at first
    used: usize,
}

impl<A: Allocator> Model for Row<A> {
    ghost use Rattle.esc_screen.specs.Used.{IsUnusedFrom};
    ghost use Rattle.esc_screen.specs.declared.cell.Cell.{Cell as TheCell};
    ghost use Rattle.std.specs.Prelude.{List};

    ghost Value = { List TheCell };

    ghost view = { λ r. r.cells.items };

    ghost invariant = { λ r. IsUnusedFrom r.used r.cells.items };
}

impl<A: Allocator> Row<A> {
    /// A blank row.
    pub fn new(alloc: A, columns: usize) -> Result<Row<A>, AllocError>
        ensures ok { IfOk result (λ r. r ≡ blank_row 0 columns) }
        ensures refused { OnErr result (Refused A) }
    {
        let mut cells = Vec::new(alloc);
        for _ in 0..columns {
            fallible_alloc::push(&mut cells, Cell::blank(0))?;
        }
        Ok(Row { cells, used: 0 })
    }

    /// Returns its cells as a row of so many columns: it is cut, or blank cells come at the end.
    pub fn resized(&self, alloc: A, columns: usize) -> Result<Row<A>, AllocError>
        ensures ok { IfOk result (λ r. r ≡ resized_row columns self.now) }
        ensures refused { OnErr result (Refused A) }
    {
        let cells = cells::resized(&self.cells, alloc, columns)?;
        let used = cells.len();
        Ok(Row { cells, used })
    }

    /// Its cells.
    pub fn cells(&self) -> &[Cell]
        ensures { result.now ≡ self.now }
    {
        &self.cells
    }

    /// How many of its cells are used, at most: each from there on is as at first.
    pub fn used(&self) -> usize
        ensures { IsUnusedFrom result self.now }
    {
        self.used
    }

    /// Puts a character of one column.
    pub fn put_narrow(&mut self, at: usize, c: char, look: u16)
        requires { at + 1 < 2 ^ 64 }
        ensures { self.new ≡ cells_with at look c self.old }
    {
        cells::put_narrow(&mut self.cells, at, c, look);
        self.used = self.used.max(at + 1);
    }

    /// Puts characters of ASCII, one byte each, one after another.
    pub fn put_text(&mut self, at: usize, text: &[u8], look: u16)
        requires { at + length text.now < 2 ^ 63 }
        ensures { self.new ≡ put_all at look text.now self.old }
    {
        cells::put_text(&mut self.cells, at, text, look);
        self.used = self.used.max(at + text.len());
    }

    /// Puts a character of two columns.
    pub fn put_both(&mut self, at: usize, c: char, look: u16)
        requires { at + 2 < 2 ^ 64 }
        ensures { self.new ≡ put_wide at look c self.old }
    {
        cells::put_both(&mut self.cells, at, c, look);
        self.used = self.used.max(at + 2);
    }

    /// Says that it goes on in the next one, if a column is its last.
    pub fn join(&mut self, at: usize)
        ensures { self.new ≡ joined_at at self.old }
    {
        cells::join(&mut self.cells, at);
        self.used = self.cells.len();
    }

    /// Puts a mark on the character in a column.
    pub fn mark(&mut self, at: usize, mark: char)
        ensures { self.new ≡ marked_cells at mark self.old }
    {
        cells::mark(&mut self.cells, at, mark);
    }

    /// Returns the content of a column.
    pub fn content_at(&self, at: usize) -> Content
        ensures { result ≡ content_at at self.now }
    {
        cells::content_at(&self.cells, at)
    }

    /// Erases the cells from one column to before another.
    pub fn erase(&mut self, from: usize, to: usize, look: u16)
        ensures { self.new ≡ erased_cells look from to self.old }
    {
        if look == 0 {
            self.erase_plain(from, to);
        } else {
            self.erase_looking(from, to, look);
        }
    }

    // The same with the first look: cells that are as at first stay so.
    fn erase_plain(&mut self, from: usize, to: usize)
        ensures { self.new ≡ erased_cells 0 from to self.old }
    {
        let end = to.min(self.used);
        cells::erase(&mut self.cells, from, end, 0);
    }

    fn erase_looking(&mut self, from: usize, to: usize, look: u16)
        ensures { self.new ≡ erased_cells look from to self.old }
    {
        cells::erase(&mut self.cells, from, to, look);
        self.used = self.cells.len();
    }

    /// Takes out so many cells from one column on, and before another.
    pub fn delete(&mut self, count: usize, from: usize, to: usize, look: u16)
        requires { from + count < 2 ^ 64 }
        ensures { self.new ≡ deleted_cells look count from to self.old }
    {
        cells::delete(&mut self.cells, count, from, to, look);
        self.used = self.cells.len();
    }

    /// Puts in so many blank cells at one column: those that would be past another are gone.
    pub fn insert(&mut self, count: usize, from: usize, to: usize, look: u16)
        ensures { self.new ≡ inserted_cells look count from to self.old }
    {
        cells::insert(&mut self.cells, count, from, to, look);
        self.used = self.cells.len();
    }

    /// Puts in so many blank cells, or takes as many out.
    pub fn shift(&mut self, shift: Shift)
        requires { shift.column + shift.count < 2 ^ 64 }
        ensures { self.new ≡ shifted_cells shift.more shift.look shift.count shift.column shift.end
            self.old }
    {
        let Shift {
            more,
            count,
            column,
            end,
            look,
        } = shift;
        if more {
            self.insert(count, column, end, look);
        } else {
            self.delete(count, column, end, look);
        }
    }

    /// Makes the cells from one column to before another this one.
    pub fn fill_part(&mut self, from: usize, to: usize, cell: Cell)
        ensures { self.new ≡ filled_part cell from to self.old }
    {
        cells::fill_part(&mut self.cells, from, to, cell);
        self.used = self.cells.len();
    }

    /// Makes all cells this one.
    pub fn fill(&mut self, cell: Cell)
        ensures { self.new ≡ filled_cells cell self.old }
    {
        cells::fill(&mut self.cells, cell);
        self.used = self.cells.len();
    }

    /// Takes the characters out of its cells.
    pub fn clear(&mut self, look: u16)
        ensures { self.new ≡ cleared_cells look self.old }
    {
        if look == 0 {
            self.reset();
        } else {
            self.fill(Cell::blank(look));
        }
    }

    // Makes its cells as they were at first.
    fn reset(&mut self)
        ensures { self.new ≡ cleared_cells 0 self.old }
    {
        cells::clear_part(&mut self.cells, 0, self.used, 0);
        self.used = 0;
    }
}
