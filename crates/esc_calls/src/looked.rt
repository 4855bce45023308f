//! The cells that the caller saw when it last asked which rows are changed.

use crate::cell_row::{character_of, marks_of, width_of};
use esc_screen::{Cell, Marks, Screen};
use std::alloc::{AllocError, Global};

/// The cells that the caller saw when it last asked which rows are changed: at first none.
#[derive(Drop)]
pub struct Looked {
    rows: Vec<Vec<Cell>>,
}

impl Looked {
    /// Returns an empty list of rows.
    pub(crate) fn new(alloc: Global) -> Looked {
        Looked {
            rows: Vec::new(alloc),
        }
    }

    /// Writes for each row of a screen, as there is room for, 1 if its cells are not those that it
    /// had when it was last looked at, and 0 otherwise; and notes that it was looked at.
    ///
    /// The error is that a request for memory was refused.
    pub(crate) fn look(
        &mut self,
        alloc: Global,
        screen: &Screen,
        out: &mut [u8],
    ) -> Result<(), AllocError> {
        let mut at: usize = 0;
        for byte in out {
            if at < screen.height() as usize {
                let is_changed = self.take(alloc, at, screen.row(at))?;
                *byte = if is_changed { 1 } else { 0 };
                at = at.saturating_add(1);
            }
        }
        Ok(())
    }

    /// Forgets them: all rows are changed at the next look.
    pub(crate) fn forget(&mut self) {
        self.rows.clear();
    }

    // Returns whether a row has other cells than when it was last looked at. It is looked at now.
    fn take(&mut self, alloc: Global, at: usize, cells: &[Cell]) -> Result<bool, AllocError> {
        if at >= self.rows.len() {
            let mut row = Vec::new(alloc);
            fallible_alloc::extend(&mut row, cells)?;
            fallible_alloc::push(&mut self.rows, row)?;
            return Ok(true);
        }
        let row = &mut self.rows[at];
        if are_same(row.as_slice(), cells) {
            return Ok(false);
        }
        row.clear();
        fallible_alloc::extend(row, cells)?;
        Ok(true)
    }
}

fn are_same(a: &[Cell], b: &[Cell]) -> bool {
    if a.len() != b.len() {
        return false;
    }
    for at in 0..a.len() {
        if !is_same(a[at], b[at]) {
            return false;
        }
    }
    true
}

fn is_same(a: Cell, b: Cell) -> bool {
    a.look == b.look
        && a.joined == b.joined
        && width_of(a.content) == width_of(b.content)
        && character_of(a.content) == character_of(b.content)
        && are_same_marks(marks_of(a.content), marks_of(b.content))
}

fn are_same_marks(a: Marks, b: Marks) -> bool {
    a.first == b.first && a.second == b.second && a.others == b.others
}
