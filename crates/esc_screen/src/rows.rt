//! The rows of a screen: a ring, so that all of them scroll at the cost of those that leave.
ghost use Rattle.std.specs.Prelude.{◌≡◌, ◌+◌, ◌++◌, ◌∷◌, ◌-◌, ◌<◌, ◌≤◌, ◌^◌, [], IfOk, OnErr, OnOk, drop, get_or, length, map, replicate, set, take};
ghost use Rattle.esc_screen.specs.Cells.{blank_row, cleared_cells, filled_cells, filled_part, shifted_cells};
ghost use Rattle.esc_screen.specs.Lists.{in_part, moved_down, moved_up, turned_down, turned_up};
ghost use Rattle.esc_screen.specs.Resized.{resized_each, resized_row, resized_rows};
ghost use Rattle.fallible_alloc.specs.Refusals.{Refused};

use crate::cell::Cell;
use crate::row::Row;
use crate::shift::Shift;
use std::alloc::{AllocError, Allocator};
use std::collections::VecDeque;

/// Returns so many blank rows of so many columns.
pub(crate) fn blank<A: Allocator + Copy>(
    alloc: A,
    count: usize,
    columns: usize,
) -> Result<VecDeque<Row<A>, A>, AllocError>
    ensures ok { IfOk result (λ v. v.items ≡ replicate count (blank_row 0 columns)) }
    ensures refused { OnErr result (Refused A) }
{
    let mut rows = Vec::new(alloc);
    push_blank(&mut rows, alloc, count, columns)?;
    Ok(VecDeque::from_vec(rows))
}

// Appends so many blank rows of so many columns.
fn push_blank<A: Allocator + Copy>(
    rows: &mut Vec<Row<A>, A>,
    alloc: A,
    count: usize,
    columns: usize,
) -> Result<(), AllocError>
    ensures ok { OnOk result
        (rows.new.items ≡ rows.old.items ++ replicate count (blank_row 0 columns)) }
    ensures refused { OnErr result (Refused A) }
{
    for _ in 0..count {
        push_blank_row(rows, alloc, columns)?;
    }
    Ok(())
}

// Appends a blank row of so many columns.
fn push_blank_row<A: Allocator + Copy>(
    rows: &mut Vec<Row<A>, A>,
    alloc: A,
    columns: usize,
) -> Result<(), AllocError>
    ensures ok { OnOk result (rows.new.items ≡ rows.old.items ++ blank_row 0 columns ∷ []) }
    ensures refused { OnErr result (Refused A) }
{
    let row = Row::new(alloc, columns)?;
    fallible_alloc::push(rows, row)?;
    Ok(())
}

/// Makes all cells of rows this one.
pub(crate) fn fill<A: Allocator>(rows: &mut VecDeque<Row<A>, A>, cell: Cell)
    ensures { rows.new.items ≡ map (filled_cells cell) rows.old.items }
{
    for i in 0..rows.len() {
        fill_row(rows, i, cell);
    }
}

fn fill_row<A: Allocator>(rows: &mut VecDeque<Row<A>, A>, at: usize, cell: Cell)
    ensures { rows.new.items
        ≡ set rows.old.items at (filled_cells cell (get_or rows.old.items at [])) }
{
    if let Some(row) = rows.get_mut(at) {
        row.fill(cell);
    }
}

/// Takes the characters out of all cells of rows.
pub(crate) fn clear<A: Allocator>(rows: &mut VecDeque<Row<A>, A>, look: u16)
    ensures { rows.new.items ≡ map (cleared_cells look) rows.old.items }
{
    for i in 0..rows.len() {
        clear_row(rows, i, look);
    }
}

fn clear_row<A: Allocator>(rows: &mut VecDeque<Row<A>, A>, at: usize, look: u16)
    ensures { rows.new.items
        ≡ set rows.old.items at (cleared_cells look (get_or rows.old.items at [])) }
{
    if let Some(row) = rows.get_mut(at) {
        row.clear(look);
    }
}

// Turns the rows from one to before another, so that so many of the first come last. If they are
// all rows, no other row moves.
fn turn_up<A: Allocator>(rows: &mut VecDeque<Row<A>, A>, from: usize, to: usize, count: usize)
    requires within { (from ≤ to) × (to ≤ length rows.old.items) }
    requires few { count ≤ to - from }
    ensures { rows.new.items ≡ in_part from to (turned_up count) rows.old.items }
{
    if from == 0 && to == rows.len() {
        rows.rotate_left(count);
    } else {
        rows.make_contiguous()[from..to].rotate_left(count);
    }
}

// The same, so that so many of the last come first.
fn turn_down<A: Allocator>(rows: &mut VecDeque<Row<A>, A>, from: usize, to: usize, count: usize)
    requires within { (from ≤ to) × (to ≤ length rows.old.items) }
    requires few { count ≤ to - from }
    ensures { rows.new.items ≡ in_part from to (turned_down count) rows.old.items }
{
    if from == 0 && to == rows.len() {
        rows.rotate_right(count);
    } else {
        rows.make_contiguous()[from..to].rotate_right(count);
    }
}

/// Moves the rows from one to before another up: the last ones are blank then.
pub(crate) fn part_up<A: Allocator>(
    rows: &mut VecDeque<Row<A>, A>,
    count: usize,
    from: usize,
    to: usize,
    look: u16,
)
    ensures { rows.new.items
        ≡ in_part from to (moved_up count (map (cleared_cells look))) rows.old.items }
{
    let end = to.min(rows.len());
    if from < end {
        let count = count.min(end - from);
        turn_up(rows, from, end, count);
        clear_part(rows, end - count, end, look);
    }
}

/// Moves the rows from one to before another down: the first ones are blank then.
pub(crate) fn part_down<A: Allocator>(
    rows: &mut VecDeque<Row<A>, A>,
    count: usize,
    from: usize,
    to: usize,
    look: u16,
)
    ensures { rows.new.items
        ≡ in_part from to (moved_down count (map (cleared_cells look))) rows.old.items }
{
    let end = to.min(rows.len());
    if from < end {
        let count = count.min(end - from);
        turn_down(rows, from, end, count);
        clear_part(rows, from, from + count, look);
    }
}

/// Takes the characters out of the rows from one to before another.
pub(crate) fn clear_part<A: Allocator>(
    rows: &mut VecDeque<Row<A>, A>,
    from: usize,
    to: usize,
    look: u16,
)
    ensures { rows.new.items ≡ in_part from to (map (cleared_cells look)) rows.old.items }
{
    let end = to.min(rows.len());
    if from < end {
        for i in from..end {
            clear_row(rows, i, look);
        }
    }
}

/// Puts columns into the rows from one to before another, or takes them out.
pub(crate) fn shift_part<A: Allocator>(
    rows: &mut VecDeque<Row<A>, A>,
    from: usize,
    to: usize,
    columns: Shift,
)
    requires { columns.column + columns.count < 2 ^ 64 }
    ensures { rows.new.items ≡ in_part from to (map (shifted_cells columns.more columns.look
        columns.count columns.column columns.end)) rows.old.items }
{
    let end = to.min(rows.len());
    if from < end {
        for i in from..end {
            shift_row(rows, i, columns);
        }
    }
}

fn shift_row<A: Allocator>(rows: &mut VecDeque<Row<A>, A>, at: usize, columns: Shift)
    requires { columns.column + columns.count < 2 ^ 64 }
    ensures { rows.new.items ≡ set rows.old.items at (shifted_cells columns.more columns.look
        columns.count columns.column columns.end (get_or rows.old.items at [])) }
{
    if let Some(row) = rows.get_mut(at) {
        row.shift(columns);
    }
}

/// Makes the cells from one column to before another this one, in the rows from one to before
/// another.
pub(crate) fn fill_area<A: Allocator>(
    rows: &mut VecDeque<Row<A>, A>,
    from: usize,
    to: usize,
    left: usize,
    right: usize,
    cell: Cell,
)
    ensures { rows.new.items ≡ in_part from to (map (filled_part cell left right)) rows.old.items }
{
    let end = to.min(rows.len());
    if from < end {
        for i in from..end {
            fill_row_part(rows, i, left, right, cell);
        }
    }
}

fn fill_row_part<A: Allocator>(
    rows: &mut VecDeque<Row<A>, A>,
    at: usize,
    left: usize,
    right: usize,
    cell: Cell,
)
    ensures { rows.new.items
        ≡ set rows.old.items at (filled_part cell left right (get_or rows.old.items at [])) }
{
    if let Some(row) = rows.get_mut(at) {
        row.fill_part(left, right, cell);
    }
}

// Appends a row with so many columns.
fn push_resized<A: Allocator + Copy>(
    all: &mut Vec<Row<A>, A>,
    alloc: A,
    row: &Row<A>,
    columns: usize,
) -> Result<(), AllocError>
    ensures ok { OnOk result
        (all.new.items ≡ all.old.items ++ resized_row columns row.now ∷ []) }
    ensures refused { OnErr result (Refused A) }
{
    let row = row.resized(alloc, columns)?;
    fallible_alloc::push(all, row)?;
    Ok(())
}

// The same of one of the rows.
fn push_resized_at<A: Allocator + Copy>(
    all: &mut Vec<Row<A>, A>,
    rows: &VecDeque<Row<A>, A>,
    at: usize,
    columns: usize,
) -> Result<(), AllocError>
    requires { at < length rows.now.items }
    ensures ok { OnOk result (all.new.items
        ≡ all.old.items ++ resized_row columns (get_or rows.now.items at []) ∷ []) }
    ensures refused { OnErr result (Refused A) }
{
    match rows.get(at) {
        Some(row) => push_resized(all, *rows.allocator(), row, columns),
        None => Ok(()),
    }
}

// Returns the rows from one to before another with so many columns.
fn resized_each<A: Allocator + Copy>(
    rows: &VecDeque<Row<A>, A>,
    from: usize,
    to: usize,
    columns: usize,
) -> Result<Vec<Row<A>, A>, AllocError>
    requires { (from ≤ to) × (to ≤ length rows.now.items) }
    ensures ok { IfOk result (λ v. v.items
        ≡ resized_each columns (take (to - from) (drop from rows.now.items))) }
    ensures refused { OnErr result (Refused A) }
{
    let mut all = Vec::new(*rows.allocator());
    for i in from..to {
        push_resized_at(&mut all, rows, i, columns)?;
    }
    Ok(all)
}

/// Returns the rows that are left for a screen of so many rows and columns, if so many leave at the
/// top: the first ones after these, and blank ones after them.
pub(crate) fn left<A: Allocator + Copy>(
    rows: &VecDeque<Row<A>, A>,
    gone: usize,
    count: usize,
    columns: usize,
) -> Result<VecDeque<Row<A>, A>, AllocError>
    ensures ok { IfOk result (λ v. v.items
        ≡ resized_rows count columns (drop gone rows.now.items)) }
    ensures refused { OnErr result (Refused A) }
{
    let first = gone.min(rows.len());
    let there = rows.len() - first;
    let mut all = resized_each(rows, first, first + count.min(there), columns)?;
    push_blank(
        &mut all,
        *rows.allocator(),
        count.saturating_sub(there),
        columns,
    )?;
    Ok(VecDeque::from_vec(all))
}
