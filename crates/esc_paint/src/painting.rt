//! The text that paints a screen.
ghost use Rattle.std.specs.Prelude.{◌≡◌, ◌++◌, OnErr, OnOk, string_bytes};
ghost use Rattle.esc_paint.specs.Painting.{cursor_parts, ends_drawn, is_waiting, painting_text, rows_parts};
ghost use Rattle.esc_screen.specs.Grids.{row_of_cursor};
ghost use Rattle.esc_paint.specs.Parts.{parts_text};
ghost use Rattle.esc_screen.specs.Screens.{grid_of, size_of};
ghost use Rattle.esc_terminal.specs.Links.{known_look, known_of};
ghost use Rattle.fallible_alloc.specs.Refusals.{Refused};

use crate::cells::{is_blank, push_row};
use crate::sequences::push_place;
use esc_screen::{Cell, Screen};
use esc_terminal::Styles;
use fallible_alloc::push_str;
use std::alloc::{AllocError, Allocator};

/// Appends the text that paints a screen: a terminal of its size that reads it shows the same
/// characters with their looks, and its cursor in the same place, whatever it showed before.
///
/// It begins with DECSTR, which ends modes, margins and character sets, and ED. Each row is written
/// from its first cell that is not blank on, with CUP, SGR and EL. If a wrap is pending after a
/// character in the last column, the row of the cursor comes once more at the end. Modes, links,
/// tab stops, the other screen and the title are not painted.
///
/// The error is that a request for memory was refused.
#[tactic(auto, using(crate::proofs::Writing::paint_text))]
pub fn push_painting<A: Allocator, B: Allocator>(
    text: &mut String<A>,
    screen: &Screen<B>,
    styles: &Styles<B>,
) -> Result<(), AllocError>
    ensures ok { OnOk result (string_bytes text.new ≡ string_bytes text.old
        ++ painting_text (λ n. known_look n (known_of styles.now)) (size_of screen.now)
        (grid_of screen.now)) }
    ensures refused { OnErr result (Refused A) }
{
    push_str(text, "\x1b[!p\x1b[2J")?;
    push_rows(text, screen, styles)?;
    push_cursor(text, screen, styles)
}

// Appends the rows.
fn push_rows<A: Allocator, B: Allocator>(
    text: &mut String<A>,
    screen: &Screen<B>,
    styles: &Styles<B>,
) -> Result<(), AllocError>
    ensures ok { OnOk result (string_bytes text.new ≡ string_bytes text.old
        ++ parts_text (rows_parts (λ n. known_look n (known_of styles.now))
        (grid_of screen.now).rows 0 (size_of screen.now).rows)) }
    ensures refused { OnErr result (Refused A) }
{
    for row in 0..screen.height() {
        push_row(text, row, screen.row(row as usize), styles)?;
    }
    Ok(())
}

/// Appends the text that brings the cursor to its place.
#[tactic(auto, using(crate::proofs::Writing::cursor_again, crate::proofs::Writing::cursor_there))]
pub(crate) fn push_cursor<A: Allocator, B: Allocator>(
    text: &mut String<A>,
    screen: &Screen<B>,
    styles: &Styles<B>,
) -> Result<(), AllocError>
    ensures ok { OnOk result (string_bytes text.new ≡ string_bytes text.old
        ++ parts_text (cursor_parts (λ n. known_look n (known_of styles.now))
        (size_of screen.now) (grid_of screen.now))) }
    ensures refused { OnErr result (Refused A) }
{
    let cursor = screen.cursor();
    let cells = screen.row(cursor.row as usize);
    if is_waiting(screen, cells) {
        push_place(text, cursor.row, 0)?;
        push_str(text, "\x1b[K")?;
        push_row(text, cursor.row, cells, styles)
    } else {
        push_place(text, cursor.row, cursor.column as usize)
    }
}

/// Returns whether a wrap is pending after a character in the last column.
pub(crate) fn is_waiting<B: Allocator>(screen: &Screen<B>, cells: &[Cell]) -> bool
    requires { cells.now ≡ row_of_cursor (grid_of screen.now) }
    ensures { result ≡ is_waiting (size_of screen.now) (grid_of screen.now) }
{
    let cursor = screen.cursor();
    cursor.pending && cursor.column as u32 + 1 == screen.width() as u32 && ends_drawn(cells)
}

// Returns whether a character stands in the last cell.
fn ends_drawn(cells: &[Cell]) -> bool
    ensures { result ≡ ends_drawn cells.now }
{
    match cells.last() {
        Some(cell) => !is_blank(cell.content),
        None => false,
    }
}
