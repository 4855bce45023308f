//! The text that leads from one screen to another.
ghost use Rattle.std.specs.Prelude.{◌≡◌, ◌++◌, OnErr, OnOk, string_bytes};
ghost use Rattle.esc_paint.specs.Differences.{change_parts, difference, row_changes, rows_changes, same_cursor, same_rows, same_screen, same_size};
ghost use Rattle.esc_paint.specs.Parts.{parts_text};
ghost use Rattle.esc_screen.specs.Grids.{row_of_cursor};
ghost use Rattle.esc_screen.specs.Screens.{grid_of, size_of};
ghost use Rattle.esc_terminal.specs.Links.{known_look, known_of};
ghost use Rattle.fallible_alloc.specs.Refusals.{Refused};

use crate::cells::push_cells;
use crate::painting::{is_waiting, push_cursor, push_painting};
use crate::pen::Pen;
use crate::same::{is_other, same_cells};
use crate::sequences::push_place;
use esc_screen::{Cell, Screen};
use esc_terminal::Styles;
use fallible_alloc::push_str;
use std::alloc::{AllocError, Allocator};

/// Appends the text that leads from one screen to another: a terminal that shows the characters of
/// the first one with their looks, and reads it, shows those of the second one, with its cursor in
/// the same place.
///
/// It is nothing if the screens are the same. If not, it begins with DECSTR, as the text of
/// [`push_painting`] does, and leaves out the same; each row is written from the first cell on that
/// differs. A screen of another size is painted whole.
///
/// The error is that a request for memory was refused.
#[tactic(auto, using(crate::proofs::Changing::other_size, crate::proofs::Changing::none_text, crate::proofs::Changing::some_text))]
pub fn push_difference<A: Allocator, B: Allocator, C: Allocator>(
    text: &mut String<A>,
    from: &Screen<B>,
    from_styles: &Styles<B>,
    to: &Screen<C>,
    to_styles: &Styles<C>,
) -> Result<(), AllocError>
    ensures ok { OnOk result (string_bytes text.new ≡ string_bytes text.old
        ++ difference (λ n. known_look n (known_of from_styles.now))
        (λ n. known_look n (known_of to_styles.now)) (size_of from.now) (size_of to.now)
        (grid_of from.now) (grid_of to.now)) }
    ensures refused { OnErr result (Refused A) }
{
    if !has_size_of(from, to) {
        return push_painting(text, to, to_styles);
    }
    if is_same_screen(from, from_styles, to, to_styles) {
        return Ok(());
    }
    push_str(text, "\x1b[!p")?;
    push_changes(text, from, from_styles, to, to_styles)?;
    push_cursor(text, to, to_styles)
}

// Returns whether two screens have the same size.
fn has_size_of<B: Allocator, C: Allocator>(from: &Screen<B>, to: &Screen<C>) -> bool
    ensures { result ≡ same_size (size_of from.now) (size_of to.now) }
{
    from.height() == to.height() && from.width() == to.width()
}

// Returns whether two screens are the same: their cells, and the cursor.
fn is_same_screen<B: Allocator, C: Allocator>(
    from: &Screen<B>,
    from_styles: &Styles<B>,
    to: &Screen<C>,
    to_styles: &Styles<C>,
) -> bool
    ensures { result ≡ same_screen (λ n. known_look n (known_of from_styles.now))
        (λ n. known_look n (known_of to_styles.now)) (size_of from.now) (size_of to.now)
        (grid_of from.now) (grid_of to.now) }
{
    has_same_cursor(from, to) && has_same_rows(from, from_styles, to, to_styles)
}

// Returns whether the cursor is in the same place, and a wrap is pending on both or on none.
fn has_same_cursor<B: Allocator, C: Allocator>(from: &Screen<B>, to: &Screen<C>) -> bool
    ensures { result ≡ same_cursor (size_of from.now) (size_of to.now) (grid_of from.now)
        (grid_of to.now) }
{
    let before = from.cursor();
    let after = to.cursor();
    let was_waiting = is_waiting(from, from.row(before.row as usize));
    let waits = is_waiting(to, to.row(after.row as usize));
    before.row == after.row && before.column == after.column && was_waiting == waits
}

// Returns whether each row is the same.
fn has_same_rows<B: Allocator, C: Allocator>(
    from: &Screen<B>,
    from_styles: &Styles<B>,
    to: &Screen<C>,
    to_styles: &Styles<C>,
) -> bool
    ensures { result ≡ same_rows (λ n. known_look n (known_of from_styles.now))
        (λ n. known_look n (known_of to_styles.now)) (grid_of from.now).rows
        (grid_of to.now).rows 0 (size_of to.now).rows }
{
    for row in 0..to.height() {
        let at = row as usize;
        if is_other(from.row(at), from_styles, to.row(at), to_styles) {
            return false;
        }
    }
    true
}

// Appends the rows that differ.
fn push_changes<A: Allocator, B: Allocator, C: Allocator>(
    text: &mut String<A>,
    from: &Screen<B>,
    from_styles: &Styles<B>,
    to: &Screen<C>,
    to_styles: &Styles<C>,
) -> Result<(), AllocError>
    ensures ok { OnOk result (string_bytes text.new ≡ string_bytes text.old
        ++ parts_text (rows_changes (λ n. known_look n (known_of from_styles.now))
        (λ n. known_look n (known_of to_styles.now)) (grid_of from.now).rows
        (grid_of to.now).rows 0 (size_of to.now).rows)) }
    ensures refused { OnErr result (Refused A) }
{
    for row in 0..to.height() {
        let at = row as usize;
        push_change(text, row, from.row(at), from_styles, to.row(at), to_styles)?;
    }
    Ok(())
}

// Appends a row from the first cell on that differs.
#[tactic(auto, using(crate::proofs::Changing::row_text, crate::proofs::Changing::row_none))]
fn push_change<A: Allocator, B: Allocator, C: Allocator>(
    text: &mut String<A>,
    row: u16,
    from: &[Cell],
    from_styles: &Styles<B>,
    to: &[Cell],
    to_styles: &Styles<C>,
) -> Result<(), AllocError>
    ensures ok { OnOk result (string_bytes text.new ≡ string_bytes text.old
        ++ parts_text (row_changes (λ n. known_look n (known_of from_styles.now))
        (λ n. known_look n (known_of to_styles.now)) row from.now to.now)) }
    ensures refused { OnErr result (Refused A) }
{
    let first = same_cells(from, from_styles, to, to_styles);
    if first < to.len() {
        push_place(text, row, first)?;
        push_str(text, "\x1b[K")?;
        push_cells(text, Pen::here(), row, first, to, to_styles)
    } else {
        Ok(())
    }
}
