//! A sink of the rows that are scrolled off a screen.
ghost use Rattle.std.specs.Prelude.{◌≡◌, [], ◌∷◌, ◌++◌, List, OnErr, OnOk, string_bytes};
ghost use Rattle.esc_screen.specs.Used.{IsUnusedFrom};
ghost use Rattle.esc_screen.specs.declared.cell.Cell.{Cell as TheCell};
ghost use Rattle.esc_terminal.specs.Links.{Known, known_of};
ghost use Rattle.esc_terminal.specs.Rows.{row_text};
ghost use Rattle.fallible_alloc.specs.Refusals.{Refused};

use crate::row_text::push_row;
use crate::styles::Styles;
use esc_screen::Cell;
use fallible_alloc::push_char;
use std::alloc::{AllocError, Allocator};

/// Takes the rows that are scrolled off a screen, one after another: a text or a list of them.
pub trait Rows {
    // its value after a row
    ghost takes: { Self → List TheCell × Known → Self → Type 0 };

    // the meaning of its error
    ghost fails: { Type 0 };

    /// Takes a row: its cells, which have the numbers of these looks and links.
    fn take_row<A: Allocator + Copy>(
        &mut self,
        cells: &[Cell],
        styles: &Styles<A>,
    ) -> Result<(), AllocError>
        ensures given { OnOk result (takes self.old (cells.now, known_of styles.now) self.new) }
        ensures failed { OnErr result fails };

    /// Takes a row as [`take_row`](Rows::take_row) does. So many of its cells are used at most:
    /// each from there on is blank and has the look 0. A sink that adds nothing for such cells at
    /// the end need not look at them.
    #[inline]
    fn take_used<A: Allocator + Copy>(
        &mut self,
        cells: &[Cell],
        _used: usize,
        styles: &Styles<A>,
    ) -> Result<(), AllocError>
        requires { IsUnusedFrom _used cells.now }
        ensures given { OnOk result (takes self.old (cells.now, known_of styles.now) self.new) }
        ensures failed { OnErr result fails }
    {
        self.take_row(cells, styles)
    }
}

// A sink that is lent.
impl<R: Rows> Rows for &mut R {
    ghost takes = { λ p r q. R.takes p.now r q.now };

    ghost fails = { R.fails };

    fn take_row<A: Allocator + Copy>(
        &mut self,
        cells: &[Cell],
        styles: &Styles<A>,
    ) -> Result<(), AllocError> {
        (**self).take_row(cells, styles)
    }

    #[inline]
    fn take_used<A: Allocator + Copy>(
        &mut self,
        cells: &[Cell],
        used: usize,
        styles: &Styles<A>,
    ) -> Result<(), AllocError> {
        (**self).take_used(cells, used, styles)
    }
}

/// Appends the text of each row, and a line feed.
impl<A: Allocator> Rows for String<A> {
    ghost takes = { λ p r q. string_bytes q ≡ string_bytes p ++ (row_text r.0 ++ 0x0a ∷ []) };

    ghost fails = { Refused A };

    fn take_row<B: Allocator + Copy>(
        &mut self,
        cells: &[Cell],
        _styles: &Styles<B>,
    ) -> Result<(), AllocError> {
        push_row(self, cells)?;
        push_char(self, '\n')
    }
}
