//! This module says in which cells two screens differ. An error is that memory was refused.

use crate::rows::push_content;
use crate::sheet::Sheet;
use crate::view::View;
use esc_links::Hyperlink;
use esc_screen::{Cell, Content, Marks, Screen};
use esc_sequences::Underline;
use esc_sgr::is_same;
use esc_style::Look;
use std::alloc::AllocError;

/// Adds a line for each run of cells in a row that differ, as `row 1, columns 3 to 4: "ab" and
/// "cd"`; nothing, if two screens show the same.
pub fn push_differences(
    sheet: &mut Sheet,
    one: View<'_>,
    other: View<'_>,
) -> Result<(), AllocError> {
    let (first, second) = (one.screen, other.screen);
    if first.width() != second.width() || first.height() != second.height() {
        return push_sizes(sheet, first, second);
    }
    for at in 0..first.height() {
        let row = u64::from(at).saturating_add(1);
        push_row(sheet, row, (one.row(at), other.row(at)), (one, other))?;
    }
    Ok(())
}

// Adds the line of two screens that differ in size.
fn push_sizes(sheet: &mut Sheet, one: &Screen, other: &Screen) -> Result<(), AllocError> {
    sheet.push_text("sizes ")?;
    push_size(sheet, one)?;
    sheet.push_text(" and ")?;
    push_size(sheet, other)?;
    sheet.end_line()
}

fn push_size(sheet: &mut Sheet, screen: &Screen) -> Result<(), AllocError> {
    sheet.push_number(u64::from(screen.width()))?;
    sheet.push_text("x")?;
    sheet.push_number(u64::from(screen.height()))
}

// Adds a line for each run of cells of a row that differ; these are the cells of both screens.
fn push_row(
    sheet: &mut Sheet,
    row: u64,
    cells: (&[Cell], &[Cell]),
    views: (View<'_>, View<'_>),
) -> Result<(), AllocError> {
    let width = cells.0.len().min(cells.1.len());
    let mut count: usize = 0;
    for at in 0..width {
        if is_same_at(cells, views, at) {
            push_run(sheet, row, cells, count, at)?;
            count = 0;
        } else {
            count = count.saturating_add(1);
        }
    }
    push_run(sheet, row, cells, count, width)
}

// Returns whether the same is seen at a column.
fn is_same_at(cells: (&[Cell], &[Cell]), views: (View<'_>, View<'_>), at: usize) -> bool {
    match (cells.0.get(at), cells.1.get(at)) {
        (Some(one), Some(other)) => {
            is_same_content(one.content, other.content)
                && is_same(&seen_look(one, views.0), &seen_look(other, views.1))
                && is_same_link(views.0.link_of(one), views.1.link_of(other))
        }
        _ => true,
    }
}

// Returns what is seen of the look of a cell: of one without a character, the colour around it
// alone, unless it has a line or is inverse.
fn seen_look(cell: &Cell, view: View<'_>) -> Look {
    let look = view.look_of(cell);
    if !is_blank(cell.content) || look.inverse || has_line(&look) {
        return look;
    }
    let mut seen = Look::plain();
    seen.background = look.background;
    seen
}

// Returns whether a cell has no character that is seen.
fn is_blank(content: Content) -> bool {
    match content {
        Content::Blank => true,
        Content::Narrow(c, marks) => is_space(c, marks),
        Content::Wide(_, _) | Content::Rest => false,
    }
}

// Returns whether characters have a line below, above or through them.
fn has_line(look: &Look) -> bool {
    look.strikethrough || look.overline || !matches!(look.underline, Underline::None)
}

// Returns whether two links are the same.
fn is_same_link(one: Option<&Hyperlink>, other: Option<&Hyperlink>) -> bool {
    match (one, other) {
        (Some(one), Some(other)) => one.uri == other.uri && one.params == other.params,
        (None, None) => true,
        (Some(_), None) | (None, Some(_)) => false,
    }
}

// Adds the line of so many cells before a column, if there are any.
fn push_run(
    sheet: &mut Sheet,
    row: u64,
    cells: (&[Cell], &[Cell]),
    count: usize,
    end: usize,
) -> Result<(), AllocError> {
    if count == 0 {
        return Ok(());
    }
    let from = end.saturating_sub(count);
    let one = part(cells.0, from, end);
    let other = part(cells.1, from, end);
    sheet.push_text("row ")?;
    sheet.push_number(row)?;
    push_columns(sheet, from as u64, count as u64)?;
    push_quoted(sheet, one)?;
    if have_same_contents(one, other) {
        sheet.push_text(" looks otherwise")?;
    } else {
        sheet.push_text(" and ")?;
        push_quoted(sheet, other)?;
    }
    sheet.end_line()
}

// Returns the cells from one column to before another.
fn part(cells: &[Cell], from: usize, to: usize) -> &[Cell] {
    cells.get(from..to).unwrap_or(&[])
}

// Adds which columns so many are, after so many.
fn push_columns(sheet: &mut Sheet, before: u64, count: u64) -> Result<(), AllocError> {
    let first = before.saturating_add(1);
    if count == 1 {
        sheet.push_text(", column ")?;
        sheet.push_number(first)?;
    } else {
        sheet.push_text(", columns ")?;
        sheet.push_number(first)?;
        sheet.push_text(" to ")?;
        sheet.push_number(before.saturating_add(count))?;
    }
    sheet.push_text(": ")
}

// Adds the text of cells between quotes.
fn push_quoted(sheet: &mut Sheet, cells: &[Cell]) -> Result<(), AllocError> {
    sheet.push_text("\"")?;
    for cell in cells {
        push_content(sheet, cell.content)?;
    }
    sheet.push_text("\"")
}

// Returns whether cells have the same contents.
fn have_same_contents(cells: &[Cell], others: &[Cell]) -> bool {
    for (one, other) in cells.iter().zip(others) {
        if !is_same_content(one.content, other.content) {
            return false;
        }
    }
    true
}

// Returns whether the same is seen of two contents: a space is as a cell that is blank.
fn is_same_content(one: Content, other: Content) -> bool {
    match (one, other) {
        (Content::Rest, Content::Rest) => true,
        (Content::Wide(c, marks), Content::Wide(d, others)) => c == d && are_same(marks, others),
        (Content::Rest, _) | (_, Content::Rest) => false,
        (Content::Wide(_, _), _) | (_, Content::Wide(_, _)) => false,
        (Content::Blank, Content::Blank) => true,
        (Content::Narrow(c, marks), Content::Narrow(d, others)) => {
            c == d && are_same(marks, others)
        }
        (Content::Narrow(c, marks), Content::Blank) => is_space(c, marks),
        (Content::Blank, Content::Narrow(c, marks)) => is_space(c, marks),
    }
}

// Returns whether nothing is seen of a character.
fn is_space(c: char, marks: Marks) -> bool {
    c == ' ' && are_same(marks, Marks::none())
}

fn are_same(one: Marks, other: Marks) -> bool {
    one.first == other.first && one.second == other.second && one.others == other.others
}
