//! Changes of rectangles.
ghost use Rattle.std.specs.Prelude.{◌≡◌};
ghost use Rattle.esc_screen.specs.Areas.{area_drawn, area_erased, area_filled, end_column, end_row, has_cells};
ghost use Rattle.esc_screen.specs.Screens.{Becomes, grid_of, size_of};

use crate::area::Area;
use crate::cell::Cell;
use crate::rows;
use crate::screen::Screen;
use std::alloc::Allocator;

impl<A: Allocator> Screen<A> {
    // The row after the last one.
    fn end_row(&self, area: Area) -> usize
        ensures { result ≡ end_row (size_of self.now) area (grid_of self.now) }
    {
        self.row_by(area.bottom) as usize + 1
    }

    // The column after the last one.
    fn end_column(&self, area: Area) -> usize
        ensures { result ≡ end_column (size_of self.now) area }
    {
        self.column_by(area.right) as usize + 1
    }

    fn has_cells(&self, area: Area) -> bool
        ensures { result ≡ has_cells (size_of self.now) area (grid_of self.now) }
    {
        (self.row_by(area.top) as usize) < self.end_row(area)
            && (self.column_by(area.left) as usize) < self.end_column(area)
    }

    fn fill_area(&mut self, area: Area, cell: Cell)
        ensures { Becomes self.old (area_filled (size_of self.old) area cell (grid_of self.old))
            self.new }
    {
        if self.has_cells(area) {
            let from = self.row_by(area.top) as usize;
            let to = self.end_row(area);
            let left = self.column_by(area.left) as usize;
            let right = self.end_column(area);
            rows::fill_area(&mut self.rows, from, to, left, right, cell);
        }
    }

    pub(crate) fn erase_area(&mut self, area: Area)
        ensures { Becomes self.old (area_erased (size_of self.old) area (grid_of self.old))
            self.new }
    {
        self.fill_area(area, Cell::blank(self.cursor.erased));
    }

    pub(crate) fn draw_area(&mut self, c: char, area: Area)
        ensures { Becomes self.old (area_drawn (size_of self.old) c area (grid_of self.old))
            self.new }
    {
        let cell = Cell::narrow(self.shown(c), self.cursor.look);
        self.fill_area(area, cell);
    }
}
