//! The cells of a row.
ghost use Rattle.std.specs.Prelude.{◌≡◌, ◌+◌, ◌<◌, ◌≤◌, ◌^◌, IfOk, OnErr, drop, length, map, true};
ghost use Rattle.esc_screen.specs.Cells.{cleared_cells, content_at, cut_row, deleted_cells, drawn_cell, emptied_cells, erased_cells, filled_cells, filled_part, inserted_cells, is_free, joined_at, mark_at, marked_cells, cells_with, put_all, put_wide, start_of};
ghost use Rattle.esc_screen.specs.Lists.{in_part, moved_down, moved_up};
ghost use Rattle.esc_screen.specs.Resized.{resized_row};
ghost use Rattle.fallible_alloc.specs.Refusals.{Refused};

use crate::cell::Cell;
use crate::content::Content;
use crate::marks::Marks;
use std::alloc::{AllocError, Allocator};

// Takes the character out of a cell.
#[inline]
fn empty(cells: &mut [Cell], at: usize)
    ensures { cells.new ≡ emptied_cells at cells.old }
{
    if at < cells.len() {
        cells[at] = Cell::blank(cells[at].look);
    }
}

/// Sees that no character stands on both sides of the left edge of a column.
#[inline]
pub(crate) fn cut_at(cells: &mut [Cell], at: usize)
    ensures { cells.new ≡ cut_row at cells.old }
{
    if at < cells.len() && cells[at].content.is_rest() {
        empty(cells, at.saturating_sub(1));
        empty(cells, at);
    }
}

/// Puts a character of one column.
#[inline]
pub(crate) fn put_narrow(cells: &mut [Cell], at: usize, c: char, look: u16)
    requires { at + 1 < 2 ^ 64 }
    ensures { cells.new ≡ cells_with at look c cells.old }
{
    cut_at(cells, at);
    cut_at(cells, at + 1);
    if at < cells.len() {
        cells[at] = Cell::narrow(c, look);
    }
}

// Whether none of the first so many cells, nor the next one, is the second half of a wide one.
fn is_free_for(cells: &[Cell], count: usize) -> bool
    ensures { result ≡ is_free count cells.now }
{
    for i in 0..cells.len() {
        if cells[i].content.is_rest() {
            return false;
        }
        if i == count {
            return true;
        }
    }
    true
}

// Writes characters of ASCII over as many cells.
fn draw(cells: &mut [Cell], text: &[u8], look: u16)
    requires { length cells.old ≡ length text.now }
    ensures { cells.new ≡ map (drawn_cell look) text.now }
{
    for i in 0..text.len() {
        cells[i] = Cell::narrow(text[i] as char, look);
    }
}

// Puts characters of ASCII where no wide one stands.
fn put_free(cells: &mut [Cell], at: usize, text: &[u8], look: u16)
    requires within { at + length text.now ≤ length cells.old }
    requires free { is_free (length text.now) (drop at cells.old) ≡ true }
    ensures { cells.new ≡ put_all at look text.now cells.old }
{
    let end = at + text.len();
    draw(&mut cells[at..end], text, look);
}

// Puts characters of ASCII, one by one.
fn put_each(cells: &mut [Cell], at: usize, text: &[u8], look: u16)
    requires { at + length text.now < 2 ^ 63 }
    ensures { cells.new ≡ put_all at look text.now cells.old }
{
    let mut column = at;
    for b in text {
        put_narrow(cells, column, *b as char, look);
        column += 1;
    }
}

/// Puts characters of ASCII, one byte each, one after another.
pub(crate) fn put_text(cells: &mut [Cell], at: usize, text: &[u8], look: u16)
    requires { at + length text.now < 2 ^ 63 }
    ensures { cells.new ≡ put_all at look text.now cells.old }
{
    if at + text.len() <= cells.len() && is_free_for(&cells[at..], text.len()) {
        put_free(cells, at, text, look);
    } else {
        put_each(cells, at, text, look);
    }
}

/// Puts a character of two columns.
pub(crate) fn put_both(cells: &mut [Cell], at: usize, c: char, look: u16)
    requires { at + 2 < 2 ^ 64 }
    ensures { cells.new ≡ put_wide at look c cells.old }
{
    cut_at(cells, at);
    cut_at(cells, at + 2);
    if at < cells.len() {
        cells[at] = Cell::new(Content::Wide(c, Marks::none()), look);
    }
    if at + 1 < cells.len() {
        cells[at + 1] = Cell::new(Content::Rest, look);
    }
}

/// Says that the row goes on in the next one, if a column is its last.
pub(crate) fn join(cells: &mut [Cell], at: usize)
    ensures { cells.new ≡ joined_at at cells.old }
{
    if at < cells.len() {
        cells[at] = cells[at].join();
    }
}

// The column of the character of which a column is part.
fn start_of(cells: &[Cell], at: usize) -> usize
    ensures { result ≡ start_of at cells.now }
{
    if at < cells.len() && cells[at].content.is_rest() {
        at.saturating_sub(1)
    } else {
        at
    }
}

// Puts a mark on the cell at a column.
fn mark_cell(cells: &mut [Cell], at: usize, mark: char)
    ensures { cells.new ≡ mark_at at mark cells.old }
{
    if at < cells.len() {
        cells[at].content = cells[at].content.with_mark(mark);
    }
}

/// Puts a mark on the character in a column.
pub(crate) fn mark(cells: &mut [Cell], at: usize, mark: char)
    ensures { cells.new ≡ marked_cells at mark cells.old }
{
    let start = start_of(cells, at);
    mark_cell(cells, start, mark);
}

/// Returns the content of this column: a character, also if the column is its second.
pub(crate) fn content_at(cells: &[Cell], at: usize) -> Content
    ensures { result ≡ content_at at cells.now }
{
    let start = start_of(cells, at);
    if start < cells.len() {
        cells[start].content
    } else {
        Content::Blank
    }
}

/// Makes all cells this one.
pub(crate) fn fill(cells: &mut [Cell], cell: Cell)
    ensures { cells.new ≡ filled_cells cell cells.old }
{
    cells.fill(cell);
}

// Takes the characters out of cells.
fn clear(cells: &mut [Cell], look: u16)
    ensures { cells.new ≡ cleared_cells look cells.old }
{
    fill(cells, Cell::blank(look));
}

/// Makes the cells from one column to before another blank.
pub(crate) fn clear_part(cells: &mut [Cell], from: usize, to: usize, look: u16)
    ensures { cells.new ≡ in_part from to (cleared_cells look) cells.old }
{
    let end = to.min(cells.len());
    if from < end {
        clear(&mut cells[from..end], look);
    }
}

/// Erases the cells from one column to before another.
pub(crate) fn erase(cells: &mut [Cell], from: usize, to: usize, look: u16)
    ensures { cells.new ≡ erased_cells look from to cells.old }
{
    cut_at(cells, from);
    cut_at(cells, to);
    clear_part(cells, from, to, look);
}

// Makes the cells from one column to before another this one, whatever stands at their edges.
fn fill_within(cells: &mut [Cell], from: usize, to: usize, cell: Cell)
    ensures { cells.new ≡ in_part from to (filled_cells cell) cells.old }
{
    let end = to.min(cells.len());
    if from < end {
        fill(&mut cells[from..end], cell);
    }
}

/// Makes the cells from one column to before another this one.
pub(crate) fn fill_part(cells: &mut [Cell], from: usize, to: usize, cell: Cell)
    ensures { cells.new ≡ filled_part cell from to cells.old }
{
    cut_at(cells, from);
    cut_at(cells, to);
    fill_within(cells, from, to, cell);
}

// Moves cells so many columns back: the last ones are blank then.
fn move_left(cells: &mut [Cell], count: usize, look: u16)
    ensures { cells.new ≡ moved_up count (cleared_cells look) cells.old }
{
    let len = cells.len();
    if count < len {
        cells.rotate_left(count);
        clear(&mut cells[len - count..], look);
    } else {
        clear(cells, look);
    }
}

// Moves cells so many columns on: the first ones are blank then.
fn move_right(cells: &mut [Cell], count: usize, look: u16)
    ensures { cells.new ≡ moved_down count (cleared_cells look) cells.old }
{
    if count < cells.len() {
        cells.rotate_right(count);
        clear(&mut cells[..count], look);
    } else {
        clear(cells, look);
    }
}

// Moves the cells from one column to before another back.
fn part_left(cells: &mut [Cell], from: usize, to: usize, count: usize, look: u16)
    ensures { cells.new ≡ in_part from to (moved_up count (cleared_cells look)) cells.old }
{
    let end = to.min(cells.len());
    if from < end {
        move_left(&mut cells[from..end], count, look);
    }
}

// Moves them on.
fn part_right(cells: &mut [Cell], from: usize, to: usize, count: usize, look: u16)
    ensures { cells.new ≡ in_part from to (moved_down count (cleared_cells look)) cells.old }
{
    let end = to.min(cells.len());
    if from < end {
        move_right(&mut cells[from..end], count, look);
    }
}

/// Takes out so many cells from one column on, and before another.
pub(crate) fn delete(cells: &mut [Cell], count: usize, from: usize, to: usize, look: u16)
    requires { from + count < 2 ^ 64 }
    ensures { cells.new ≡ deleted_cells look count from to cells.old }
{
    cut_at(cells, from);
    cut_at(cells, from + count);
    part_left(cells, from, to, count, look);
}

/// Puts in so many blank cells at one column: those that would be past another are gone.
pub(crate) fn insert(cells: &mut [Cell], count: usize, from: usize, to: usize, look: u16)
    ensures { cells.new ≡ inserted_cells look count from to cells.old }
{
    cut_at(cells, from);
    cut_at(cells, from.max(to.saturating_sub(count)));
    part_right(cells, from, to, count, look);
}

/// Returns so many cells: the first ones of a row, and blank ones after them.
pub(crate) fn resized<A: Allocator>(
    cells: &[Cell],
    alloc: A,
    columns: usize,
) -> Result<Vec<Cell, A>, AllocError>
    ensures ok { IfOk result (λ v. v.items ≡ resized_row columns cells.now) }
    ensures refused { OnErr result (Refused A) }
{
    let mut all = fallible_alloc::copied(alloc, cells)?;
    cut_at(&mut all, columns);
    all.truncate(columns);
    for _ in 0..columns.saturating_sub(cells.len()) {
        fallible_alloc::push(&mut all, Cell::blank(0))?;
    }
    Ok(all)
}
