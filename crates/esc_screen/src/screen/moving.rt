//! Movements of the cursor.
ghost use Rattle.std.specs.Prelude.{◌≡◌, ◌+◌};
ghost use Rattle.esc_screen.specs.Screens.{Becomes, grid_of, size_of};
ghost use Rattle.esc_screen.specs.Cursors.{stop_after};
ghost use Rattle.esc_screen.specs.Motions.{column_by, grid_by_motion, positioned_grid, row_by, row_down, row_up, tab_after, tab_before};

use crate::motion::Motion;
use crate::screen::Screen;
use crate::tabs;
use std::alloc::Allocator;

impl<A: Allocator> Screen<A> {
    fn row_up(&self, count: u16) -> u16
        ensures { result ≡ row_up count (grid_of self.now) }
    {
        let row = self.cursor.row;
        if row < self.top {
            row.saturating_sub(count)
        } else {
            self.top + (row - self.top).saturating_sub(count)
        }
    }

    fn row_down(&self, count: u16) -> u16
        ensures { result ≡ row_down (size_of self.now) count (grid_of self.now) }
    {
        let row = self.cursor.row;
        let end = if row < self.bottom {
            self.bottom
        } else {
            self.max_rows
        };
        row.saturating_add(count).min(end.saturating_sub(1))
    }

    pub(crate) fn row_by(&self, number: u16) -> u16
        ensures { result ≡ row_by (size_of self.now) number (grid_of self.now) }
    {
        if self.cursor.origin {
            self.top
                .saturating_add(number)
                .min(self.bottom.saturating_sub(1))
        } else {
            number.min(self.max_rows.saturating_sub(1))
        }
    }

    pub(crate) fn column_by(&self, number: u16) -> u16
        ensures { result ≡ column_by (size_of self.now) number }
    {
        number.min(self.max_columns.saturating_sub(1))
    }

    fn column_after(&self, count: u16) -> u16
        ensures { result ≡ column_by (size_of self.now) (self.now.cursor.column + count) }
    {
        let last = self.max_columns.saturating_sub(1);
        self.cursor.column.saturating_add(count).min(last)
    }

    pub(crate) fn position(&mut self, row: u16, column: u16)
        ensures { Becomes self.old (positioned_grid (size_of self.old) row column
            (grid_of self.old))
            self.new }
    {
        let to = self.row_by(row);
        self.move_to(to, self.column_by(column));
    }

    fn stop_after(&self, column: u16) -> u16
        ensures { result ≡ stop_after self.now.max_columns self.now.tabs.items column }
    {
        let last = self.max_columns.saturating_sub(1);
        tabs::first_stop(&self.tabs, column as usize + 1).min(last as usize) as u16
    }

    fn tab_after(&self, count: u16) -> u16
        ensures { result ≡ tab_after (size_of self.now) count (grid_of self.now) }
    {
        let mut column = self.cursor.column;
        for _ in 0..count.min(self.max_columns) {
            column = self.stop_after(column);
        }
        column
    }

    fn tab_before(&self, count: u16) -> u16
        ensures { result ≡ tab_before (size_of self.now) count (grid_of self.now) }
    {
        let mut column = self.cursor.column;
        for _ in 0..count.min(self.max_columns) {
            column = tabs::last_stop(&self.tabs, column);
        }
        column
    }

    /// Moves the cursor.
    pub(crate) fn take_motion(&mut self, motion: Motion)
        ensures { Becomes self.old (grid_by_motion (size_of self.old) (grid_of self.old) motion)
            self.new }
    {
        let row = self.cursor.row;
        let column = self.cursor.column;
        match motion {
            Motion::RowStart => self.move_to(row, 0),
            Motion::Left(n) => self.move_to(row, column.saturating_sub(n)),
            Motion::Right(n) => self.move_to(row, self.column_after(n)),
            Motion::Up(n) => self.move_to(self.row_up(n), column),
            Motion::Down(n) => self.move_to(self.row_down(n), column),
            Motion::UpToStart(n) => self.move_to(self.row_up(n), 0),
            Motion::DownToStart(n) => self.move_to(self.row_down(n), 0),
            Motion::Column(n) => self.move_to(row, self.column_by(n)),
            Motion::Row(n) => self.move_to(self.row_by(n), column),
            Motion::Position(r, n) => self.position(r, n),
            Motion::Tab(n) => self.cursor.column = self.tab_after(n),
            Motion::BackTab(n) => self.move_to(row, self.tab_before(n)),
        }
    }
}
