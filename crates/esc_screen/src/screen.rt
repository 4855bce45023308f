//! The screen.
ghost use Rattle.std.specs.Prelude.{◌≡◌, [], IfOk, OnErr, false, get_or, length, true};
ghost use Rattle.esc_screen.specs.Screens.{Becomes, Takes, grid_of, size_of};
ghost use Rattle.esc_screen.specs.Grids.{first_grid, line_fed, line_fed_back, grid_at, next_line, rows_down, rows_erased, rows_up, settled_grid};
ghost use Rattle.esc_screen.specs.Scrolled.{main_rows};
ghost use Rattle.esc_screen.specs.Steps.{grid_from};
ghost use Rattle.esc_screen.specs.Used.{IsUnusedFrom};
ghost use Rattle.fallible_alloc.specs.Refusals.{Refused};

use crate::cell::Cell;
use crate::cursor::Cursor;
use crate::modes::Modes;
use crate::row::Row;
use crate::step::Step;
use crate::{rows, tabs};
use std::alloc::{AllocError, Allocator, Global};
use std::collections::VecDeque;

mod areas;
mod changing;
mod leaving;
mod moving;
mod printing;
mod resizing;
mod setting;

/// A terminal's screen: its rows and those of the screen that is not seen, the main one or the
/// alternate one; the cursor; margins, modes and tab stops.
#[derive(Drop)]
pub struct Screen<A: Allocator = Global> {
    rows: VecDeque<Row<A>, A>,
    other: VecDeque<Row<A>, A>,
    alternate: bool,
    cursor: Cursor,
    saved: Cursor,
    other_saved: Cursor,
    top: u16,
    bottom: u16,
    modes: Modes,
    tabs: Vec<bool, A>,
    max_rows: u16,
    max_columns: u16,
    returns: bool,
}

impl<A: Allocator + Copy> Screen<A> {
    /// A blank screen of so many rows and columns, each of which should be 1 at least. It takes all
    /// the memory that it will ever have: for each row and column two cells.
    ///
    /// The error is that a request for memory was refused.
    pub fn new(alloc: A, max_rows: u16, max_columns: u16) -> Result<Screen<A>, AllocError>
        ensures grid { IfOk result (λ p. grid_of p ≡ first_grid (size_of p)) }
        ensures size { IfOk result (λ p. (p.max_rows ≡ max_rows)
            × (p.max_columns ≡ max_columns)) }
        ensures returns { IfOk result (λ p. p.returns ≡ false) }
        ensures refused { OnErr result (Refused A) }
    {
        let rows = rows::blank(alloc, max_rows as usize, max_columns as usize)?;
        let other = rows::blank(alloc, max_rows as usize, max_columns as usize)?;
        let tabs = tabs::eighths(alloc, max_columns as usize)?;
        Ok(Screen {
            rows,
            other,
            alternate: false,
            cursor: Cursor::home(),
            saved: Cursor::home(),
            other_saved: Cursor::home(),
            top: 0,
            bottom: max_rows,
            modes: Modes::first(),
            tabs,
            max_rows,
            max_columns,
            returns: false,
        })
    }
}

impl<A: Allocator> Screen<A> {
    /// The same, but LF returns to the first column too, whatever the modes are: as for a log, in
    /// which no terminal's driver put a CR before LF.
    pub fn returning(mut self) -> Screen<A>
        ensures grid { grid_of result ≡ grid_of self }
        ensures size { size_of result ≡ record (size_of self) { returns = true } }
    {
        self.returns = true;
        self
    }

    /// How many rows it has.
    pub fn height(&self) -> u16
        ensures { result ≡ self.now.max_rows }
    {
        self.max_rows
    }

    /// How many columns it has.
    pub fn width(&self) -> u16
        ensures { result ≡ self.now.max_columns }
    {
        self.max_columns
    }

    /// Returns the cells of a row, from 0 on; none if there is no such row.
    pub fn row(&self, at: usize) -> &[Cell]
        ensures { result.now ≡ get_or self.now.rows.items at [] }
    {
        match self.rows.get(at) {
            Some(row) => row.cells(),
            None => &[],
        }
    }

    /// How many of the cells of a row are used, at most: each from there on is blank and has the
    /// look 0, as at first.
    pub fn used(&self, at: usize) -> usize
        ensures { IsUnusedFrom result (get_or self.now.rows.items at []) }
    {
        match self.rows.get(at) {
            Some(row) => row.used(),
            None => 0,
        }
    }

    // The rows of the main screen.
    fn main_rows(&self) -> &VecDeque<Row<A>, A>
        ensures { result.now.items ≡ main_rows (grid_of self.now) }
    {
        if self.alternate {
            &self.other
        } else {
            &self.rows
        }
    }

    /// How many rows the main screen has, whether it is seen or not.
    pub fn main_height(&self) -> usize
        ensures { result ≡ length (main_rows (grid_of self.now)) }
    {
        self.main_rows().len()
    }

    /// Returns the cells of a row of the main screen, from 0 on, whether it is seen or not; none if
    /// there is no such row.
    pub fn main_row(&self, at: usize) -> &[Cell]
        ensures { result.now ≡ get_or (main_rows (grid_of self.now)) at [] }
    {
        match self.main_rows().get(at) {
            Some(row) => row.cells(),
            None => &[],
        }
    }

    /// Returns the place of the next character.
    pub fn cursor(&self) -> Cursor
        ensures { result ≡ self.now.cursor }
    {
        self.cursor
    }

    /// Which modes are set.
    pub fn modes(&self) -> Modes
        ensures { result ≡ self.now.modes }
    {
        self.modes
    }

    /// Whether the alternate screen is seen.
    pub fn is_alternate(&self) -> bool
        ensures { result ≡ self.now.alternate }
    {
        self.alternate
    }

    /// Takes a step.
    pub fn take(&mut self, step: Step)
        ensures { Takes self.old step self.new }
    {
        match step {
            Step::Print(c) => self.print(c),
            Step::PrintWide(c) => self.print_wide(c),
            Step::Mark(c) => self.mark(c),
            Step::Repeat(n) => self.repeat(n),
            Step::Move(motion) => self.take_motion(motion),
            Step::Edit(change) => self.take_change(change),
            Step::Set(setting) => self.take_setting(setting),
            Step::Nothing => {}
        }
    }

    /// Takes steps, one after another.
    pub fn take_all(&mut self, steps: &[Step])
        ensures { Becomes self.old (grid_from (size_of self.old) (grid_of self.old) steps.now)
            self.new }
    {
        for step in steps {
            self.take(*step);
        }
    }

    fn move_to(&mut self, row: u16, column: u16)
        ensures { Becomes self.old (grid_at row column (grid_of self.old)) self.new }
    {
        self.cursor.row = row;
        self.cursor.column = column;
        self.cursor.pending = false;
    }

    // Gives up a wrap that is pending.
    fn settle(&mut self)
        ensures { Becomes self.old (settled_grid (grid_of self.old)) self.new }
    {
        self.cursor.pending = false;
    }

    fn erase_rows(&mut self, from: usize, to: usize)
        ensures { Becomes self.old (rows_erased from to (grid_of self.old)) self.new }
    {
        rows::clear_part(&mut self.rows, from, to, self.cursor.erased);
    }

    fn rows_up(&mut self, count: usize, from: u16, to: u16)
        ensures { Becomes self.old (rows_up count from to (grid_of self.old)) self.new }
    {
        rows::part_up(
            &mut self.rows,
            count,
            from as usize,
            to as usize,
            self.cursor.erased,
        );
    }

    fn rows_down(&mut self, count: usize, from: u16, to: u16)
        ensures { Becomes self.old (rows_down count from to (grid_of self.old)) self.new }
    {
        rows::part_down(
            &mut self.rows,
            count,
            from as usize,
            to as usize,
            self.cursor.erased,
        );
    }

    fn line_feed(&mut self)
        ensures { Becomes self.old (line_fed (size_of self.old) (grid_of self.old)) self.new }
    {
        let Cursor { row, column, .. } = self.cursor;
        if row as usize + 1 == self.bottom as usize {
            self.settle();
            self.rows_up(1, self.top, self.bottom);
        } else {
            let last = self.max_rows.saturating_sub(1);
            self.move_to(row.saturating_add(1).min(last), column);
        }
    }

    fn reverse_line_feed(&mut self)
        ensures { Becomes self.old (line_fed_back (grid_of self.old)) self.new }
    {
        let Cursor { row, column, .. } = self.cursor;
        if row == self.top {
            self.settle();
            self.rows_down(1, self.top, self.bottom);
        } else {
            self.move_to(row.saturating_sub(1), column);
        }
    }

    fn to_next_line(&mut self)
        ensures { Becomes self.old (next_line (size_of self.old) (grid_of self.old)) self.new }
    {
        self.line_feed();
        self.move_to(self.cursor.row, 0);
    }
}
