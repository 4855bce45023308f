//! Lines of rows whose text is counted.
ghost use Rattle.std.specs.Prelude.{◌≡◌, ℕ, List, [], IfOk, OnErr, Some, is_some};
ghost use Rattle.esc_screen.specs.Used.{IsUnusedFrom};
ghost use Rattle.esc_screen.specs.declared.cell.Cell.{Cell as TheCell};
ghost use Rattle.line_collapse.specs.Tallies.{HasTallied};
ghost use Rattle.line_collapse.specs.Taken.{IsCounted, Keeps, Prints, TakesRow};
ghost use Rattle.fallible_alloc.specs.Refusals.{Refused};

use crate::tally::Tally;
use esc_screen::Cell;
use esc_terminal::{Rows, Styles};
use screen_lines::Lines;
use std::alloc::{AllocError, Allocator, Global};

/// Takes rows: their text, and if there is a tally, how much that is.
#[derive(Drop)]
pub(crate) struct Taking<A: Allocator = Global> {
    /// The text.
    pub lines: Lines<A>,
    /// How much it is.
    pub tally: Option<Tally<A>>,
}

impl<A: Allocator> Rows for Taking<A> {
    ghost takes = { TakesRow };

    ghost fails = { Refused A };

    fn take_row<B: Allocator + Copy>(
        &mut self,
        cells: &[Cell],
        styles: &Styles<B>,
    ) -> Result<(), AllocError> {
        keep(&mut self.tally, cells);
        self.lines.take_row(cells, styles)
    }

    fn take_used<B: Allocator + Copy>(
        &mut self,
        cells: &[Cell],
        used: usize,
        styles: &Styles<B>,
    ) -> Result<(), AllocError> {
        keep_used(&mut self.tally, cells, used);
        self.lines.take_used(cells, used, styles)
    }
}

/// A tally of a screen of so many rows and columns, if there is to be one.
pub(crate) fn tally_if<A: Allocator + Copy>(
    alloc: A,
    counts: bool,
    rows: u16,
    columns: u16,
) -> Option<Tally<A>>
    ensures { (is_some result ≡ counts) × IsCounted rows columns [] [] result }
{
    if counts {
        Some(Tally::new(alloc, rows, columns))
    } else {
        None
    }
}

// Counts the text of a row more, where there is a tally.
fn keep<A: Allocator>(tally: &mut Option<Tally<A>>, cells: &[Cell])
    ensures { Keeps tally.old cells.now tally.new }
{
    match tally {
        Some(tally) => tally.keep(cells),
        None => {}
    }
}

// The same of a row of which so many cells are used at most.
fn keep_used<A: Allocator>(tally: &mut Option<Tally<A>>, cells: &[Cell], used: usize)
    requires { IsUnusedFrom used cells.now }
    ensures { Keeps tally.old cells.now tally.new }
{
    let end = used.min(cells.len());
    keep(tally, &cells[..end]);
}

/// Counts the text that more text prints, if there is a tally.
pub(crate) fn printed<A: Allocator + Copy>(
    tally: Option<Tally<A>>,
    text: &[u8],
) -> Result<Option<Tally<A>>, AllocError>
    ensures ok { IfOk result (Prints tally text.now) }
    ensures refused { (m n : ℕ) (s : List ℕ) (rs : List (List TheCell))
        → IsCounted m n s rs tally → OnErr result (Refused A) }
{
    match tally {
        None => Ok(None),
        Some(tally) => printed_in(tally, text),
    }
}

// The same of a tally.
fn printed_in<A: Allocator + Copy>(
    tally: Tally<A>,
    text: &[u8],
) -> Result<Option<Tally<A>>, AllocError>
    ensures ok { IfOk result (Prints (Some tally) text.now) }
    ensures refused { (m n : ℕ) (s : List ℕ) (rs : List (List TheCell))
        → HasTallied m n s rs tally → OnErr result (Refused A) }
{
    let mut tally = tally;
    match tally.print(text) {
        Ok(()) => Ok(Some(tally)),
        Err(error) => Err(error),
    }
}
