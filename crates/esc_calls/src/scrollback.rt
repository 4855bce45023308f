//! The rows that are scrolled off a screen.
ghost use Rattle.std.specs.Global.{Global};
ghost use Rattle.std.specs.Prelude.{OnErr};
ghost use Rattle.fallible_alloc.specs.Refusals.{Refused};

use esc_screen::Cell;
use esc_terminal::{Rows, Styles};
use std::alloc::{AllocError, Allocator, Global};

/// The last rows that were scrolled off, at most so many, and how many there were in all.
#[derive(Drop)]
pub struct Scrollback {
    alloc: Global,
    rows: Vec<Vec<Cell>>,
    // the place of the one that came first
    first: usize,
    most: usize,
    count: u64,
}

impl Scrollback {
    /// Returns an empty scrollback, which keeps at most `most` rows.
    pub(crate) fn new(alloc: Global, most: usize) -> Scrollback {
        Scrollback {
            alloc,
            rows: Vec::new(alloc),
            first: 0,
            most,
            count: 0,
        }
    }

    /// Returns an empty scrollback, which keeps no row. Takes no memory.
    pub(crate) fn none(&self) -> Scrollback {
        Scrollback::new(self.alloc, 0)
    }

    /// Returns how many rows came.
    pub(crate) fn count(&self) -> u64 {
        self.count
    }

    /// Returns how many are kept.
    pub(crate) fn len(&self) -> usize {
        self.rows.len()
    }

    /// Returns the cells of one of them, from the first that is kept on; none if there is no such
    /// row.
    pub(crate) fn row(&self, at: usize) -> &[Cell] {
        let after_first = self.rows.len().saturating_sub(self.first);
        let place = if at < after_first {
            self.first.saturating_add(at)
        } else {
            at - after_first
        };
        if at < self.rows.len() && place < self.rows.len() {
            &self.rows[place]
        } else {
            &[]
        }
    }

    // Keeps a row, in the place of the first one if there is room for no more.
    fn keep(&mut self, cells: &[Cell]) -> Result<(), AllocError>
        ensures { OnErr result (Refused Global) }
    {
        if self.rows.len() < self.most {
            let row = fallible_alloc::copied(self.alloc, cells)?;
            fallible_alloc::push(&mut self.rows, row)?;
            return Ok(());
        }
        let count = self.rows.len();
        if self.first < count {
            let row = &mut self.rows[self.first];
            row.clear();
            fallible_alloc::extend(row, cells)?;
            self.first = if self.first + 1 < count {
                self.first + 1
            } else {
                0
            };
        }
        Ok(())
    }
}

/// Keeps each row.
impl Rows for Scrollback {
    ghost takes = { λ p r q. Unit {0} };

    ghost fails = { Refused Global };

    fn take_row<A: Allocator + Copy>(
        &mut self,
        cells: &[Cell],
        _styles: &Styles<A>,
    ) -> Result<(), AllocError> {
        self.count = self.count.saturating_add(1);
        self.keep(cells)
    }
}
