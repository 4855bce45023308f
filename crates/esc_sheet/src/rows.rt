//! The rows of a screen as text. An error is that memory was refused.

use crate::sheet::Sheet;
use crate::view::{Seen, View};
use esc_screen::{Cell, Content, Marks};
use esc_style::Look;
use std::alloc::{AllocError, Allocator};

/// Adds the rows of a screen, a line each, without the last ones that show nothing.
pub fn push_rows(sheet: &mut Sheet, view: View<'_>) -> Result<(), AllocError> {
    let seen = view.seen();
    let mut missing: u16 = 0;
    for at in 0..view.screen.height() {
        let cells = view.row(at);
        if seen.hides_all(cells) {
            missing = missing.saturating_add(1);
        } else {
            end_lines(sheet, missing)?;
            missing = 0;
            push_row(sheet, cells, seen)?;
            sheet.end_line()?;
        }
    }
    Ok(())
}

/// Adds so many ends of lines.
pub(crate) fn end_lines(sheet: &mut Sheet, count: u16) -> Result<(), AllocError> {
    for _ in 0..count {
        sheet.end_line()?;
    }
    Ok(())
}

/// Adds a row, without the last cells that show nothing, from the plain look to the plain look,
/// with no link open before and after it.
pub(crate) fn push_row<A: Allocator + Copy>(
    sheet: &mut Sheet,
    cells: &[Cell],
    seen: Seen<'_, A>,
) -> Result<(), AllocError> {
    let mut held: Option<u16> = None;
    let mut blanks: u16 = 0;
    for cell in cells {
        if seen.hides(cell) {
            blanks = blanks.saturating_add(1);
        } else if !cell.content.is_rest() {
            if blanks > 0 {
                push_blanks(sheet, seen, held, blanks)?;
                held = None;
                blanks = 0;
            }
            push_seen(sheet, seen, held, cell)?;
            held = Some(cell.look);
        }
    }
    push_plain(sheet, seen, held)
}

// Returns the look that holds, if it has this number; the plain one, if it has none.
fn held_look<A: Allocator + Copy>(seen: Seen<'_, A>, held: Option<u16>) -> Look {
    match held {
        Some(number) => seen.look_at(number),
        None => Look::plain(),
    }
}

// Returns the number of the link that is open.
fn held_link<A: Allocator + Copy>(seen: Seen<'_, A>, held: Option<u16>) -> Option<u16> {
    match held {
        Some(number) => seen.link_number(number),
        None => None,
    }
}

// Makes the plain look, and ends a link, after characters of this number.
fn push_plain<A: Allocator + Copy>(
    sheet: &mut Sheet,
    seen: Seen<'_, A>,
    held: Option<u16>,
) -> Result<(), AllocError> {
    if held_link(seen, held).is_some() {
        sheet.end_link()?;
    }
    sheet.push_change(&held_look(seen, held), &Look::plain())
}

// Adds so many blank cells after characters of this number.
fn push_blanks<A: Allocator + Copy>(
    sheet: &mut Sheet,
    seen: Seen<'_, A>,
    held: Option<u16>,
    count: u16,
) -> Result<(), AllocError> {
    push_plain(sheet, seen, held)?;
    for _ in 0..count {
        sheet.push(' ')?;
    }
    Ok(())
}

// Adds a cell after characters of this number.
fn push_seen<A: Allocator + Copy>(
    sheet: &mut Sheet,
    seen: Seen<'_, A>,
    held: Option<u16>,
    cell: &Cell,
) -> Result<(), AllocError> {
    if held_link(seen, held) != seen.link_number(cell.look) {
        sheet.push_link(seen.link_at(cell.look))?;
    }
    sheet.push_change(&held_look(seen, held), &seen.look_of(cell))?;
    push_content(sheet, cell.content)
}

/// Adds the content of a cell: a space if it is blank, and nothing for the second column of a
/// character.
pub(crate) fn push_content(sheet: &mut Sheet, content: Content) -> Result<(), AllocError> {
    match content {
        Content::Blank => sheet.push(' '),
        Content::Rest => Ok(()),
        Content::Narrow(c, marks) | Content::Wide(c, marks) => push_marked(sheet, c, marks),
    }
}

// Adds a character with its marks.
fn push_marked(sheet: &mut Sheet, c: char, marks: Marks) -> Result<(), AllocError> {
    sheet.push(c)?;
    for mark in [marks.first, marks.second] {
        if let Some(mark) = mark {
            sheet.push(mark)?;
        }
    }
    Ok(())
}
