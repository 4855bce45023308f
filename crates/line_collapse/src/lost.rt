//! The text that stands in no row.
ghost use Rattle.std.specs.Prelude.{◌≡◌, ◌++◌, ℕ, List};
ghost use Rattle.line_collapse.specs.Amounts.{Adds, missing};
ghost use Rattle.line_collapse.specs.RowText.{rows_bytes, rows_chars};
ghost use Rattle.line_collapse.specs.Tallies.{HasTallied, kept_amount, printed_amount};
ghost use Rattle.esc_screen.specs.Screens.{grid_of};
ghost use Rattle.esc_screen.specs.declared.cell.Cell.{Cell};
ghost use Rattle.esc_terminal.specs.Links.{known_of};
ghost use Rattle.line_collapse.specs.Streams.{rows_left};

use crate::amount::Amount;
use crate::seen::count_left;
use crate::tally::Tally;
use esc_screen::Screen;
use esc_terminal::Styles;
use std::alloc::Allocator;

/// How much of the text that was printed stands in no row that the tally counted, and in none that
/// is left on this screen.
pub(crate) fn lost_on<A: Allocator + Copy>(
    tally: &Tally<A>,
    screen: &Screen<A>,
    styles: &Styles<A>,
) -> u64
    ensures { (m n : ℕ) (s : List ℕ) (rs : List (List Cell)) → HasTallied m n s rs tally.now
        → result ≡ missing (printed_amount A m n s)
        (kept_amount (rs ++ rows_left (known_of styles.now) (grid_of screen.now))) }
{
    tally
        .printed()
        .missing_in(with_left(tally.kept(), screen, styles))
}

// This amount, and the text of the rows that are left.
fn with_left<A: Allocator + Copy>(amount: Amount, screen: &Screen<A>, styles: &Styles<A>) -> Amount
    ensures { Adds (rows_chars (rows_left (known_of styles.now) (grid_of screen.now)))
        (rows_bytes (rows_left (known_of styles.now) (grid_of screen.now))) amount result }
{
    let mut amount = amount;
    for at in 0..count_left(screen, styles) {
        amount.add_row(screen.main_row(at));
    }
    amount
}
