//! Characters that are printed.
ghost use Rattle.std.specs.Prelude.{◌≡◌, ◌+◌, ◌<◌, ◌≤◌, false, length, map, take, true};
ghost use Rattle.esc_screen.specs.Screens.{Becomes, grid_of, size_of};
ghost use Rattle.esc_screen.specs.Cells.{put_all};
ghost use Rattle.esc_screen.specs.Cursors.{drawn_character};
ghost use Rattle.esc_screen.specs.Grids.{in_row, next_line};
ghost use Rattle.esc_screen.specs.Lists.{times};
ghost use Rattle.esc_screen.specs.Printing.{before, column_before, has_before, has_room, is_direct, row_gone_on, mark_printed, narrow_printed, narrow_put, grid_with_room, grid_past, grid_with_character, printed_wide, grid_with_repeats, wide_printed, wide_put, wrapped_grid, wrapped_past, wrapped_wide};
ghost use Rattle.esc_screen.specs.Steps.{grid_from};
ghost use Rattle.esc_screen.specs.declared.step.Step.TheVariants as step;

use crate::content::Content;
use crate::cursor::Cursor;
use crate::drawing::line_drawing;
use crate::screen::Screen;
use std::alloc::Allocator;

impl<A: Allocator> Screen<A> {
    // Says that the row of the cursor, which is in its last column, goes on in the next one.
    pub(crate) fn join(&mut self)
        ensures { Becomes self.old (row_gone_on (grid_of self.old)) self.new }
    {
        if let Some(row) = self.rows.get_mut(self.cursor.row as usize) {
            row.join(self.cursor.column as usize);
        }
    }

    // To the next row, by a wrap.
    fn wrap_on(&mut self)
        ensures { Becomes self.old (next_line (size_of self.old) (row_gone_on (grid_of self.old)))
            self.new }
    {
        self.join();
        self.to_next_line();
    }

    fn wrap_past(&mut self)
        ensures { Becomes self.old (wrapped_past (size_of self.old) (grid_of self.old)) self.new }
    {
        if self.modes.wraps {
            self.wrap_on();
        } else {
            self.settle();
        }
    }

    fn wrap(&mut self)
        ensures { Becomes self.old (wrapped_grid (size_of self.old) (grid_of self.old)) self.new }
    {
        if self.cursor.pending {
            self.wrap_past();
        }
    }

    fn wrap_wide(&mut self)
        ensures { Becomes self.old (wrapped_wide (size_of self.old) (grid_of self.old)) self.new }
    {
        if self.cursor.column as usize + 1 < self.max_columns as usize {
            self.wrap();
        } else {
            self.wrap_on();
        }
    }

    // Past a character of so many columns.
    fn pass(&mut self, columns: u16)
        ensures { Becomes self.old (grid_past (size_of self.old) columns (grid_of self.old))
            self.new }
    {
        if columns < self.max_columns.saturating_sub(self.cursor.column) {
            self.cursor.column += columns;
        } else {
            self.cursor.column = self.max_columns.saturating_sub(1);
            self.cursor.pending = self.modes.wraps;
        }
    }

    // Makes room for a character of so many columns, where characters are inserted.
    fn open(&mut self, columns: u16)
        ensures { Becomes self.old (grid_with_room (size_of self.old) columns (grid_of self.old))
            self.new }
    {
        if self.modes.inserts {
            let Cursor {
                row,
                column,
                erased,
                ..
            } = self.cursor;
            let end = self.max_columns as usize;
            if let Some(row) = self.rows.get_mut(row as usize) {
                row.insert(columns as usize, column as usize, end, erased);
            }
        }
    }

    fn put(&mut self, c: char)
        ensures { Becomes self.old (grid_with_character (size_of self.old) c (grid_of self.old))
            self.new }
    {
        if let Some(row) = self.rows.get_mut(self.cursor.row as usize) {
            row.put_narrow(self.cursor.column as usize, c, self.cursor.look);
        }
        self.pass(1);
    }

    fn put_wide(&mut self, c: char)
        ensures { Becomes self.old (printed_wide (size_of self.old) c (grid_of self.old)) self.new }
    {
        if let Some(row) = self.rows.get_mut(self.cursor.row as usize) {
            row.put_both(self.cursor.column as usize, c, self.cursor.look);
        }
        self.pass(2);
    }

    // Returns the character that is shown for this one.
    pub(crate) fn shown(&self, c: char) -> char
        ensures { result ≡ drawn_character self.now.cursor c }
    {
        if self.cursor.draws() {
            line_drawing(c)
        } else {
            c
        }
    }

    // Prints a character where no wrap is pending.
    fn put_shown(&mut self, c: char)
        ensures { Becomes self.old (narrow_put (size_of self.old) c (grid_of self.old)) self.new }
    {
        let shown = self.shown(c);
        self.open(1);
        self.put(shown);
    }

    /// Prints a character of one column.
    pub(crate) fn print(&mut self, c: char)
        ensures { Becomes self.old (narrow_printed (size_of self.old) c (grid_of self.old))
            self.new }
    {
        self.wrap();
        self.put_shown(c);
    }

    pub(crate) fn has_room(&self) -> bool
        ensures { result ≡ has_room (size_of self.now) (grid_of self.now) }
    {
        1 < self.max_columns
            && (self.modes.wraps || (self.cursor.column as usize) + 1 < self.max_columns as usize)
    }

    // Prints a character of two columns where there is room for one.
    fn put_wide_next(&mut self, c: char)
        ensures { Becomes self.old (wide_put (size_of self.old) c (grid_of self.old)) self.new }
    {
        self.wrap_wide();
        self.open(2);
        self.put_wide(c);
    }

    /// Prints a character of two columns.
    pub(crate) fn print_wide(&mut self, c: char)
        ensures { Becomes self.old (wide_printed (size_of self.old) c (grid_of self.old)) self.new }
    {
        if self.has_room() {
            self.put_wide_next(c);
        }
    }

    fn has_before(&self) -> bool
        ensures { result ≡ has_before (grid_of self.now) }
    {
        self.cursor.pending || 0 < self.cursor.column
    }

    fn column_before(&self) -> u16
        ensures { result ≡ column_before (grid_of self.now) }
    {
        if self.cursor.pending {
            self.cursor.column
        } else {
            self.cursor.column.saturating_sub(1)
        }
    }

    /// Puts a mark on the character before the cursor.
    pub(crate) fn mark(&mut self, c: char)
        ensures { Becomes self.old (mark_printed c (grid_of self.old)) self.new }
    {
        if self.has_before() {
            let column = self.column_before() as usize;
            if let Some(row) = self.rows.get_mut(self.cursor.row as usize) {
                row.mark(column, c);
            }
        }
    }

    // Returns the content before the cursor.
    pub(crate) fn before(&self) -> Content
        ensures { result ≡ before (grid_of self.now) }
    {
        if !self.has_before() {
            return Content::Blank;
        }
        match self.rows.get(self.cursor.row as usize) {
            Some(row) => row.content_at(self.column_before() as usize),
            None => Content::Blank,
        }
    }

    fn print_times(&mut self, c: char, count: u16)
        ensures { Becomes self.old (times count (narrow_printed (size_of self.old) c)
            (grid_of self.old)) self.new }
    {
        for _ in 0..count {
            self.print(c);
        }
    }

    fn print_wide_times(&mut self, c: char, count: u16)
        ensures { Becomes self.old (times count (wide_printed (size_of self.old) c)
            (grid_of self.old)) self.new }
    {
        for _ in 0..count {
            self.print_wide(c);
        }
    }

    /// Prints the character before the cursor so many times.
    pub(crate) fn repeat(&mut self, count: u16)
        ensures { Becomes self.old (grid_with_repeats (size_of self.old) count (grid_of self.old))
            self.new }
    {
        let count = count.min(self.max_columns);
        match self.before() {
            Content::Narrow(c, _) => self.print_times(c, count),
            Content::Wide(c, _) => self.print_wide_times(c, count),
            _ => {}
        }
    }

    fn is_direct(&self) -> bool
        ensures { result ≡ is_direct (grid_of self.now) }
    {
        !self.modes.inserts && !self.cursor.draws()
    }

    // Puts characters of ASCII from the cursor on, in its row.
    fn put_here(&mut self, text: &[u8])
        requires { self.old.cursor.column + length text.now ≤ self.old.max_columns }
        ensures { Becomes self.old (grid_past (size_of self.old) (length text.now)
            (in_row (put_all self.old.cursor.column self.old.cursor.look text.now)
            (grid_of self.old))) self.new }
    {
        let Cursor {
            row,
            column,
            look,
            ..
        } = self.cursor;
        let _columns = self.max_columns;
        if let Some(row) = self.rows.get_mut(row as usize) {
            row.put_text(column as usize, text, look);
        }
        let columns = text.len() as u16;
        self.pass(columns);
    }

    // The same, said as one step after another.
    fn put_run(&mut self, text: &[u8])
        requires some { 0 < length text.now }
        requires ready { (self.old.cursor.pending ≡ false) × (is_direct (grid_of self.old) ≡ true) }
        requires fits { self.old.cursor.column + length text.now ≤ self.old.max_columns }
        ensures { Becomes self.old (grid_from (size_of self.old) (grid_of self.old)
            (map step.Print text.now)) self.new }
    {
        self.put_here(text);
    }

    // Prints the first characters of ASCII, one at least, and returns how many.
    fn print_first(&mut self, text: &[u8]) -> usize
        requires { 0 < length text.now }
        ensures count { (0 < result) × (result ≤ length text.now) }
        ensures grid { Becomes self.old (grid_from (size_of self.old) (grid_of self.old)
            (map step.Print (take result text.now))) self.new }
    {
        self.wrap();
        let room = self.max_columns.saturating_sub(self.cursor.column) as usize;
        let count = room.min(text.len());
        if count > 0 && self.is_direct() {
            self.put_run(&text[..count]);
            count
        } else {
            self.put_shown(text[0] as char);
            1
        }
    }

    /// Prints characters of ASCII, one byte each, one after another.
    pub fn print_run(&mut self, text: &[u8])
        ensures { Becomes self.old (grid_from (size_of self.old) (grid_of self.old)
            (map step.Print text.now)) self.new }
    {
        let mut rest = text;
        while !rest.is_empty() {
            let count = self.print_first(rest);
            rest = &rest[count..];
        }
    }
}
