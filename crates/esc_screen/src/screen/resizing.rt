//! Another size.
ghost use Rattle.std.specs.Prelude.{◌≡◌, OnErr, OnOk};
ghost use Rattle.esc_screen.specs.Resized.{Resizes, is_same_size, leaving_rows, refitted_grid, size_with};
ghost use Rattle.esc_screen.specs.Screens.{grid_of, size_of};
ghost use Rattle.fallible_alloc.specs.Refusals.{Refused};

use crate::row::Row;
use crate::screen::Screen;
use crate::{rows, tabs};
use std::alloc::{AllocError, Allocator};
use std::collections::VecDeque;

impl<A: Allocator> Screen<A> {
    /// Counts the rows that [`resize`](Self::resize) to so many rows takes off the top of the main
    /// screen, and of the alternate one: the first ones, as they are now. They leave room for the
    /// row of the cursor.
    pub fn leaving_rows(&self, rows: u16) -> usize
        ensures { result ≡ leaving_rows rows (grid_of self.now) }
    {
        (self.cursor.row as usize + 1).saturating_sub(rows as usize)
    }
}

impl<A: Allocator + Copy> Screen<A> {
    /// Gives it so many rows and columns, as xterm does: each should be 1 at least. A row is cut,
    /// or gets blank cells. Rows go and come at the bottom, but if the cursor has no room then, as
    /// many as it needs leave at the top: [`leaving_rows`](Self::leaving_rows) counts them. No
    /// margins are left, and no origin mode. The size that it has changes nothing.
    ///
    /// The error is that a request for memory was refused: nothing is changed then.
    pub fn resize(&mut self, rows: u16, columns: u16) -> Result<(), AllocError>
        ensures resized { OnOk result (Resizes self.old rows columns self.new) }
        ensures unchanged { OnErr result (self.new ≡ self.old) }
        ensures refused { OnErr result (Refused A) }
    {
        if self.has_size(rows, columns) {
            return Ok(());
        }
        let gone = self.leaving_rows(rows);
        let (count, width) = (rows as usize, columns as usize);
        let seen = rows::left(&self.rows, gone, count, width)?;
        let other = rows::left(&self.other, gone, count, width)?;
        let tabs = tabs::resized(&self.tabs, *self.rows.allocator(), width)?;
        self.refit(rows, columns, seen, other, tabs);
        Ok(())
    }
}

impl<A: Allocator> Screen<A> {
    fn has_size(&self, rows: u16, columns: u16) -> bool
        ensures { result
            ≡ is_same_size (size_of self.now) (size_with rows columns (size_of self.now)) }
    {
        self.max_rows == rows && self.max_columns == columns
    }

    // Gives it so many rows and columns, with these rows, those of the screen that is not seen, and
    // tab stops.
    fn refit(
        &mut self,
        rows: u16,
        columns: u16,
        seen: VecDeque<Row<A>, A>,
        other: VecDeque<Row<A>, A>,
        tabs: Vec<bool, A>,
    )
        ensures grid { grid_of self.new ≡ refitted_grid (size_with rows columns (size_of self.old))
            seen.items other.items tabs.items (grid_of self.old) }
        ensures size { size_of self.new ≡ size_with rows columns (size_of self.old) }
    {
        self.rows = seen;
        self.other = other;
        self.tabs = tabs;
        self.cursor = self.cursor.within(rows, columns);
        self.cursor.origin = false;
        self.saved = self.saved.within(rows, columns);
        self.other_saved = self.other_saved.within(rows, columns);
        self.top = 0;
        self.bottom = rows;
        self.max_rows = rows;
        self.max_columns = columns;
    }
}
