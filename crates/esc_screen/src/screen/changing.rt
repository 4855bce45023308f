//! Changes of cells.
ghost use Rattle.std.specs.Prelude.{◌≡◌};
ghost use Rattle.esc_screen.specs.Screens.{Becomes, grid_of, size_of};
ghost use Rattle.esc_screen.specs.Changes.{alignment_grid, cells_deleted, cells_erased, cells_inserted, columns_moved, columns_within, next_row, grid_by_change, indexed_back, indexed_on, is_within, rows_deleted, rows_inserted};

use crate::cell::Cell;
use crate::change::Change;
use crate::cursor::Cursor;
use crate::motion::Motion;
use crate::rows;
use crate::screen::Screen;
use crate::shift::Shift;
use std::alloc::Allocator;

impl<A: Allocator> Screen<A> {
    fn erase_cells(&mut self, from: usize, to: usize)
        ensures { Becomes self.old (cells_erased from to (grid_of self.old)) self.new }
    {
        self.settle();
        if let Some(row) = self.rows.get_mut(self.cursor.row as usize) {
            row.erase(from, to, self.cursor.erased);
        }
    }

    fn delete_cells(&mut self, count: u16)
        ensures { Becomes self.old (cells_deleted (size_of self.old) count (grid_of self.old))
            self.new }
    {
        self.settle();
        let Cursor {
            row,
            column,
            erased,
            ..
        } = self.cursor;
        let end = self.max_columns as usize;
        if let Some(row) = self.rows.get_mut(row as usize) {
            row.delete(count as usize, column as usize, end, erased);
        }
    }

    fn insert_cells(&mut self, count: u16)
        ensures { Becomes self.old (cells_inserted (size_of self.old) count (grid_of self.old))
            self.new }
    {
        self.settle();
        let Cursor {
            row,
            column,
            erased,
            ..
        } = self.cursor;
        let end = self.max_columns as usize;
        if let Some(row) = self.rows.get_mut(row as usize) {
            row.insert(count as usize, column as usize, end, erased);
        }
    }

    fn is_within(&self) -> bool
        ensures { result ≡ is_within (grid_of self.now) }
    {
        if self.cursor.row < self.top {
            false
        } else {
            self.cursor.row < self.bottom
        }
    }

    fn delete_rows(&mut self, count: u16)
        ensures { Becomes self.old (rows_deleted count (grid_of self.old)) self.new }
    {
        if self.is_within() {
            let row = self.cursor.row;
            self.move_to(row, 0);
            self.rows_up(count as usize, row, self.bottom);
        }
    }

    fn insert_rows(&mut self, count: u16)
        ensures { Becomes self.old (rows_inserted count (grid_of self.old)) self.new }
    {
        if self.is_within() {
            let row = self.cursor.row;
            self.move_to(row, 0);
            self.rows_down(count as usize, row, self.bottom);
        }
    }

    fn move_columns(&mut self, more: bool, count: u16, column: u16)
        ensures { Becomes self.old (columns_moved (size_of self.old) more count column
            (grid_of self.old)) self.new }
    {
        let columns = Shift {
            more,
            count: count as usize,
            column: column as usize,
            end: self.max_columns as usize,
            look: self.cursor.erased,
        };
        let from = self.top as usize;
        rows::shift_part(&mut self.rows, from, self.bottom as usize, columns);
    }

    fn move_within(&mut self, more: bool, count: u16, column: u16)
        ensures { Becomes self.old (columns_within (size_of self.old) more count column
            (grid_of self.old)) self.new }
    {
        if self.is_within() {
            self.move_columns(more, count, column);
        }
    }

    fn index_back(&mut self)
        ensures { Becomes self.old (indexed_back (size_of self.old) (grid_of self.old)) self.new }
    {
        if self.cursor.column == 0 {
            self.move_within(true, 1, 0);
        } else {
            self.take_motion(Motion::Left(1));
        }
    }

    fn index_on(&mut self)
        ensures { Becomes self.old (indexed_on (size_of self.old) (grid_of self.old)) self.new }
    {
        if self.cursor.column as usize + 1 == self.max_columns as usize {
            self.move_within(false, 1, 0);
        } else {
            self.take_motion(Motion::Right(1));
        }
    }

    fn align(&mut self)
        ensures { Becomes self.old (alignment_grid (size_of self.old) (grid_of self.old)) self.new }
    {
        rows::fill(&mut self.rows, Cell::narrow('E', 0));
        self.top = 0;
        self.bottom = self.max_rows;
        self.move_to(0, 0);
    }

    fn erase_row(&mut self)
        ensures { Becomes self.old (grid_by_change (size_of self.old) (grid_of self.old)
            Change.EraseRow) self.new }
    {
        let row = self.cursor.row as usize;
        self.settle();
        self.erase_rows(row, row + 1);
    }

    fn erase_all(&mut self)
        ensures { Becomes self.old (grid_by_change (size_of self.old) (grid_of self.old)
            Change.EraseAll) self.new }
    {
        self.settle();
        self.erase_rows(0, self.max_rows as usize);
    }

    fn erase_below(&mut self)
        ensures { Becomes self.old (grid_by_change (size_of self.old) (grid_of self.old)
            Change.EraseBelow) self.new }
    {
        let row = self.cursor.row as usize;
        self.erase_cells(self.cursor.column as usize, self.max_columns as usize);
        self.erase_rows(row + 1, self.max_rows as usize);
    }

    fn erase_above(&mut self)
        ensures { Becomes self.old (grid_by_change (size_of self.old) (grid_of self.old)
            Change.EraseAbove) self.new }
    {
        let row = self.cursor.row as usize;
        self.erase_cells(0, self.cursor.column as usize + 1);
        self.erase_rows(0, row);
    }

    // To the next row, and to its first column where a line feed returns.
    fn feed(&mut self, returns: bool)
        ensures { Becomes self.old
            (next_row (size_of self.old) returns (grid_of self.old)) self.new }
    {
        if returns {
            self.to_next_line();
        } else {
            self.line_feed();
        }
    }

    /// Changes cells.
    pub(crate) fn take_change(&mut self, change: Change)
        ensures { Becomes self.old (grid_by_change (size_of self.old) (grid_of self.old) change)
            self.new }
    {
        let column = self.cursor.column as usize;
        match change {
            Change::Index => self.line_feed(),
            Change::ReverseIndex => self.reverse_line_feed(),
            Change::LineFeed => self.feed(self.returns || self.modes.new_line),
            Change::FormFeed => self.feed(self.modes.new_line),
            Change::NextLine => self.to_next_line(),
            Change::EraseRight => self.erase_cells(column, self.max_columns as usize),
            Change::EraseLeft => self.erase_cells(0, column + 1),
            Change::EraseRow => self.erase_row(),
            Change::EraseBelow => self.erase_below(),
            Change::EraseAbove => self.erase_above(),
            Change::EraseAll => self.erase_all(),
            Change::EraseCells(n) => self.erase_cells(column, column + n as usize),
            Change::InsertCells(n) => self.insert_cells(n),
            Change::DeleteCells(n) => self.delete_cells(n),
            Change::InsertRows(n) => self.insert_rows(n),
            Change::DeleteRows(n) => self.delete_rows(n),
            Change::ScrollUp(n) => self.rows_up(n as usize, self.top, self.bottom),
            Change::ScrollDown(n) => self.rows_down(n as usize, self.top, self.bottom),
            Change::ScrollLeft(n) => self.move_within(false, n, 0),
            Change::ScrollRight(n) => self.move_within(true, n, 0),
            Change::InsertColumns(n) => self.move_within(true, n, self.cursor.column),
            Change::DeleteColumns(n) => self.move_within(false, n, self.cursor.column),
            Change::BackIndex => self.index_back(),
            Change::ForwardIndex => self.index_on(),
            Change::EraseArea(area) => self.erase_area(area),
            Change::FillArea(c, area) => self.draw_area(c, area),
            Change::Align => self.align(),
        }
    }
}
