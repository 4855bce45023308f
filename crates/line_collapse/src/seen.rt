//! The rows that are left on a screen.
ghost use Rattle.std.specs.Prelude.{◌≡◌, ◌+◌, ◌<◌, ◌≤◌, ◌^◌, length, take};
ghost use Rattle.esc_screen.specs.Scrolled.{main_rows};
ghost use Rattle.esc_screen.specs.Screens.{grid_of};
ghost use Rattle.esc_terminal.specs.Links.{known_of};
ghost use Rattle.line_collapse.specs.Streams.{count_seen, count_with, cursor_rows, is_seen, rows_left};

use esc_screen::{Cell, Screen, is_joined};
use esc_terminal::Styles;
use screen_lines::are_hidden;
use std::alloc::Allocator;

// Whether something is seen of a row, or it goes on in the next one.
fn is_seen<A: Allocator + Copy>(styles: &Styles<A>, cells: &[Cell]) -> bool
    ensures { result ≡ is_seen (known_of styles.now) cells.now }
{
    is_joined(cells) || !are_hidden(styles, cells)
}

// How many rows of the main screen come up to that of the cursor, where it is in one.
fn cursor_rows<A: Allocator>(screen: &Screen<A>) -> usize
    ensures { result ≡ cursor_rows (grid_of screen.now) }
{
    if screen.is_alternate() {
        0
    } else {
        screen.cursor().row as usize + 1
    }
}

/// Counts the rows of the main screen that are left: up to the last one with something to see, and
/// that of the cursor.
pub(crate) fn count_left<A: Allocator + Copy>(screen: &Screen<A>, styles: &Styles<A>) -> usize
    ensures within { result ≤ length (main_rows (grid_of screen.now)) }
    ensures rows { take result (main_rows (grid_of screen.now))
        ≡ rows_left (known_of styles.now) (grid_of screen.now) }
{
    let count = count_seen(screen, styles);
    count.min(screen.main_height())
}

// So many rows, or those up to this one, where something is seen of it.
fn count_with<A: Allocator + Copy>(
    styles: &Styles<A>,
    count: usize,
    at: usize,
    cells: &[Cell],
) -> usize
    requires { at + 1 < 2 ^ 64 }
    ensures { result ≡ count_with (known_of styles.now) count at cells.now }
{
    if is_seen(styles, cells) {
        count.max(at + 1)
    } else {
        count
    }
}

#[tactic(auto, using(crate::proofs::Rows::seen_more, crate::proofs::Rows::seen_end))]
fn count_seen<A: Allocator + Copy>(screen: &Screen<A>, styles: &Styles<A>) -> usize
    ensures { result ≡ count_seen (known_of styles.now) (cursor_rows (grid_of screen.now)) 0
        (main_rows (grid_of screen.now)) }
{
    let mut count = cursor_rows(screen);
    for at in 0..screen.main_height() {
        count = count_with(styles, count, at, screen.main_row(at));
    }
    count
}
