//! Hidden cells: blank ones of the plain look.
ghost use Rattle.std.specs.Prelude.{◌≡◌};
ghost use Rattle.std.specs.List.{list_all};
ghost use Rattle.esc_screen.specs.Used.{IsUnusedFrom};
ghost use Rattle.esc_terminal.specs.Links.{Known, known_of};
ghost use Rattle.screen_lines.specs.Rows.{cells_parts, is_blank_content, is_hidden, is_unwritten};
ghost use Rattle.screen_lines.specs.declared.going.Going.{Going};

use esc_screen::{Cell, Content};
use esc_sgr::is_same;
use esc_style::Look;
use esc_terminal::Styles;
use std::alloc::Allocator;

/// Whether a cell is hidden: it is blank, and of the plain look.
#[inline]
pub(crate) fn is_hidden<A: Allocator + Copy>(styles: &Styles<A>, cell: &Cell) -> bool
    ensures { result ≡ is_hidden (known_of styles.now) cell.now }
{
    is_blank(cell.content)
        && (cell.look == 0 || is_same(&Look::plain(), &styles.look_at(cell.look)))
}

#[inline]
fn is_blank(content: Content) -> bool
    ensures { result ≡ is_blank_content content }
{
    match content {
        Content::Blank => true,
        Content::Narrow(_, _) | Content::Wide(_, _) | Content::Rest => false,
    }
}

// Whether a cell is as at first: it is hidden, whatever the looks are.
#[inline]
fn is_unwritten(cell: &Cell) -> bool
    ensures { result ≡ is_unwritten cell.now }
{
    is_blank(cell.content) && cell.look == 0
}

/// Cells up to the last that is not as at first, where so many are used at most.
pub(crate) fn written(cells: &[Cell], used: usize) -> &[Cell]
    requires { IsUnusedFrom used cells.now }
    ensures { (k : Known) (w : Going) → cells_parts k w result.now ≡ cells_parts k w cells.now }
{
    let mut end = used.min(cells.len());
    while 0 < end && is_unwritten(&cells[end - 1]) {
        end -= 1;
    }
    &cells[..end]
}

/// Whether all of these cells are hidden: blank, and of the plain look.
pub fn are_hidden<A: Allocator + Copy>(styles: &Styles<A>, cells: &[Cell]) -> bool
    ensures { result ≡ list_all (is_hidden (known_of styles.now)) cells.now }
{
    for cell in cells {
        if !is_hidden(styles, cell) {
            return false;
        }
    }
    true
}
