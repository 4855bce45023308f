//! Text that is printed, and that of rows.
ghost use Rattle.std.specs.Prelude.{◌≡◌, ◌++◌, ◌∷◌, ℕ, List, [], OnErr, OnOk};
ghost use Rattle.esc_screen.specs.declared.cell.Cell.{Cell as TheCell};
ghost use Rattle.line_collapse.specs.Tallies.{HasTallied};
ghost use Rattle.fallible_alloc.specs.Refusals.{Refused};

use crate::amount::Amount;
use crate::printed::Printed;
use esc_parse::Parser;
use esc_screen::Cell;
use std::alloc::{AllocError, Allocator, Global};

// How many bytes of a string are kept.
const MOST: usize = 0x1000;

/// Counts the text that a stream, which comes in whatever chunks, prints on a screen, and the text
/// of rows of that screen.
#[derive(Drop)]
pub struct Tally<A: Allocator = Global> {
    parser: Parser<A>,
    printed: Printed,
    kept: Amount,
}

impl<A: Allocator + Copy> Tally<A> {
    /// No text and no rows, of a screen of so many rows and columns. Takes no memory.
    pub fn new(alloc: A, rows: u16, columns: u16) -> Tally<A>
        ensures { HasTallied rows columns [] [] result }
    {
        Tally {
            parser: Parser::with_limit(alloc, MOST),
            printed: Printed {
                rows,
                columns,
                amount: Amount::none(),
            },
            kept: Amount::none(),
        }
    }

    /// Counts the text that more of the stream prints. The error is that a request for memory was
    /// refused, as that of a sequence may be.
    pub fn print(&mut self, text: &[u8]) -> Result<(), AllocError>
        ensures given { (m n : ℕ) (s : List ℕ) (rs : List (List TheCell))
            → HasTallied m n s rs self.old
            → OnOk result (HasTallied m n (s ++ text.now) rs self.new) }
        ensures refused { (m n : ℕ) (s : List ℕ) (rs : List (List TheCell))
            → HasTallied m n s rs self.old → OnErr result (Refused A) }
    {
        let (result, printed) = self.parser.parse_into(text, self.printed);
        match result {
            Ok(()) => {
                self.printed = printed;
                Ok(())
            }
            Err(_) => Err(AllocError),
        }
    }
}

impl<A: Allocator> Tally<A> {
    /// Counts the text of a row more.
    pub fn keep(&mut self, cells: &[Cell])
        ensures { (m n : ℕ) (s : List ℕ) (rs : List (List TheCell))
            → HasTallied m n s rs self.old
            → HasTallied m n s (rs ++ cells.now ∷ []) self.new }
    {
        self.kept.add_row(cells);
    }

    /// The text that was printed.
    pub fn printed(&self) -> Amount
        ensures { result ≡ self.now.printed.amount }
    {
        self.printed.amount
    }

    /// That of the rows.
    pub fn kept(&self) -> Amount
        ensures { result ≡ self.now.kept }
    {
        self.kept
    }
}
