//! A screen as an object of JSON (RFC 8259). An error is that memory was refused.

use crate::sheet::Sheet;
use crate::view::View;
use esc_links::Hyperlink;
use esc_screen::{Cell, Content, Cursor, Marks};
use esc_sequences::Underline;
use esc_sgr::is_first;
use esc_style::{Color, Look};
use std::alloc::AllocError;
use typed_functions::AnsiColor;
use unicode_visibility::is_shown;

// The colours that have names, by their numbers.
const NAMES: [&str; 16] = [
    "black",
    "red",
    "green",
    "yellow",
    "blue",
    "magenta",
    "cyan",
    "white",
    "bright-black",
    "bright-red",
    "bright-green",
    "bright-yellow",
    "bright-blue",
    "bright-magenta",
    "bright-cyan",
    "bright-white",
];

/// Adds the object of a screen, in one line.
pub fn push_object(sheet: &mut Sheet, view: View<'_>) -> Result<(), AllocError> {
    let screen = view.screen;
    push_number(sheet, "{\"columns\":", screen.width())?;
    push_number(sheet, ",\"rows\":", screen.height())?;
    push_cursor(sheet, screen.cursor(), screen.modes().shows_cursor)?;
    push_flag(sheet, ",\"alternate\":", screen.is_alternate())?;
    push_name(sheet, ",\"title\":", view.title)?;
    push_name(sheet, ",\"icon_name\":", view.icon_name)?;
    push_links(sheet, view.styles.links())?;
    sheet.push_text(",\"cells\":[")?;
    for at in 0..screen.height() {
        if at > 0 {
            sheet.push_text(",")?;
        }
        push_row(sheet, view.row(at), view)?;
    }
    sheet.push_text("]}")?;
    sheet.end_line()
}

// Adds a member that is a number.
fn push_number(sheet: &mut Sheet, name: &str, number: u16) -> Result<(), AllocError> {
    sheet.push_text(name)?;
    sheet.push_number(u64::from(number))
}

// Adds where the cursor is, and whether it is seen.
fn push_cursor(sheet: &mut Sheet, cursor: Cursor, is_seen: bool) -> Result<(), AllocError> {
    push_number(sheet, ",\"cursor\":{\"row\":", cursor.row)?;
    push_number(sheet, ",\"column\":", cursor.column)?;
    push_flag(sheet, ",\"pending\":", cursor.pending)?;
    push_flag(sheet, ",\"shown\":", is_seen)?;
    sheet.push_text("}")
}

// Adds a member that is true or false.
fn push_flag(sheet: &mut Sheet, name: &str, is_on: bool) -> Result<(), AllocError> {
    sheet.push_text(name)?;
    sheet.push_text(if is_on { "true" } else { "false" })
}

// Adds the links, if there are any, in the order of their numbers.
fn push_links(sheet: &mut Sheet, links: &[Hyperlink]) -> Result<(), AllocError> {
    if links.is_empty() {
        return Ok(());
    }
    sheet.push_text(",\"links\":[")?;
    let mut comma = "";
    for link in links {
        sheet.push_text(comma)?;
        sheet.push_text("{\"address\":")?;
        push_string(sheet, link.uri.as_str())?;
        if let Some(id) = link.params.get("id") {
            sheet.push_text(",\"id\":")?;
            push_string(sheet, id)?;
        }
        sheet.push_text("}")?;
        comma = ",";
    }
    sheet.push_text("]")
}

// Adds the cells of a row that show something.
fn push_row(sheet: &mut Sheet, cells: &[Cell], view: View<'_>) -> Result<(), AllocError> {
    sheet.push_text("[")?;
    let mut comma = "";
    let mut column: u16 = 0;
    for cell in cells {
        if !cell.content.is_rest() && !view.hides(cell) {
            sheet.push_text(comma)?;
            push_cell(sheet, column, cell, view)?;
            comma = ",";
        }
        column = column.saturating_add(1);
    }
    sheet.push_text("]")
}

// Adds the object of a cell.
fn push_cell(
    sheet: &mut Sheet,
    column: u16,
    cell: &Cell,
    view: View<'_>,
) -> Result<(), AllocError> {
    push_number(sheet, "{\"column\":", column)?;
    sheet.push_text(",\"text\":\"")?;
    push_content(sheet, cell.content)?;
    sheet.push_text("\"")?;
    if let Content::Wide(_, _) = cell.content {
        sheet.push_text(",\"width\":2")?;
    }
    push_look(sheet, &view.look_of(cell))?;
    if let Some(number) = view.seen().link_number(cell.look) {
        push_number(sheet, ",\"link\":", number)?;
    }
    sheet.push_text("}")
}

// Adds what stands in a cell.
fn push_content(sheet: &mut Sheet, content: Content) -> Result<(), AllocError> {
    match content {
        Content::Narrow(c, marks) | Content::Wide(c, marks) => push_marked(sheet, c, marks),
        Content::Blank | Content::Rest => Ok(()),
    }
}

fn push_marked(sheet: &mut Sheet, c: char, marks: Marks) -> Result<(), AllocError> {
    push_escaped(sheet, c)?;
    for mark in [marks.first, marks.second] {
        if let Some(mark) = mark {
            push_escaped(sheet, mark)?;
        }
    }
    Ok(())
}

// Adds the members of a look, but those of the plain one.
fn push_look(sheet: &mut Sheet, look: &Look) -> Result<(), AllocError> {
    if is_first(look) {
        return Ok(());
    }
    push_rendition(sheet, look.bold, ",\"bold\":true")?;
    push_rendition(sheet, look.faint, ",\"faint\":true")?;
    push_rendition(sheet, look.italic, ",\"italic\":true")?;
    sheet.push_text(underline_member(look.underline))?;
    push_rendition(sheet, look.blink, ",\"blink\":true")?;
    push_rendition(sheet, look.inverse, ",\"inverse\":true")?;
    push_rendition(sheet, look.concealed, ",\"concealed\":true")?;
    push_rendition(sheet, look.strikethrough, ",\"strikethrough\":true")?;
    push_rendition(sheet, look.overline, ",\"overline\":true")?;
    push_color(sheet, ",\"foreground\":", look.foreground)?;
    push_color(sheet, ",\"background\":", look.background)?;
    push_color(sheet, ",\"underline_color\":", look.underline_color)
}

// Adds the member of a rendition that holds.
fn push_rendition(sheet: &mut Sheet, is_on: bool, member: &str) -> Result<(), AllocError> {
    if is_on {
        sheet.push_text(member)
    } else {
        Ok(())
    }
}

fn underline_member(underline: Underline) -> &'static str {
    match underline {
        Underline::None => "",
        Underline::Single => ",\"underline\":\"single\"",
        Underline::Double => ",\"underline\":\"double\"",
        Underline::Curly => ",\"underline\":\"curly\"",
        Underline::Dotted => ",\"underline\":\"dotted\"",
        Underline::Dashed => ",\"underline\":\"dashed\"",
    }
}

// Adds the member of a colour: its name, its number in the view, or `#rrggbb`.
fn push_color(sheet: &mut Sheet, member: &str, color: Color) -> Result<(), AllocError> {
    match color {
        Color::Default => Ok(()),
        Color::Named(color) => {
            sheet.push_text(member)?;
            sheet.push_text("\"")?;
            sheet.push_text(name_of(color))?;
            sheet.push_text("\"")
        }
        Color::Palette(index) => {
            sheet.push_text(member)?;
            sheet.push_number(u64::from(index))
        }
        Color::Direct(color) => {
            let (red, green, blue) = color.to_tuple_rgb8();
            sheet.push_text(member)?;
            sheet.push_text("\"#")?;
            for channel in [red, green, blue] {
                push_hex(sheet, channel)?;
            }
            sheet.push_text("\"")
        }
    }
}

// Returns the name of a colour.
fn name_of(color: AnsiColor) -> &'static str {
    match NAMES.get(color.index() as usize) {
        Some(name) => *name,
        None => "",
    }
}

// Adds a name of the window after a key, or `null`.
fn push_name(sheet: &mut Sheet, key: &str, name: Option<&str>) -> Result<(), AllocError> {
    sheet.push_text(key)?;
    match name {
        Some(name) => push_string(sheet, name),
        None => sheet.push_text("null"),
    }
}

// Adds a string: the characters that show as they are, and any other by its number.
fn push_string(sheet: &mut Sheet, text: &str) -> Result<(), AllocError> {
    sheet.push_text("\"")?;
    for c in text.chars() {
        push_escaped(sheet, c)?;
    }
    sheet.push_text("\"")
}

// Adds a character of a string.
fn push_escaped(sheet: &mut Sheet, c: char) -> Result<(), AllocError> {
    if c == '"' || c == '\\' {
        sheet.push('\\')?;
        return sheet.push(c);
    }
    if is_shown(c) {
        return sheet.push(c);
    }
    let mut units = [0u16; 2];
    for unit in c.encode_utf16(&mut units) {
        let [high, low] = unit.to_be_bytes();
        sheet.push_text("\\u")?;
        push_hex(sheet, high)?;
        push_hex(sheet, low)?;
    }
    Ok(())
}

// Adds a byte as two hexadecimal digits.
fn push_hex(sheet: &mut Sheet, byte: u8) -> Result<(), AllocError> {
    sheet.push(digit(byte / 16))?;
    sheet.push(digit(byte % 16))
}

// Returns the hexadecimal digit of a number below 16.
fn digit(number: u8) -> char {
    match char::from_digit(u32::from(number), 16) {
        Some(digit) => digit,
        None => '0',
    }
}
