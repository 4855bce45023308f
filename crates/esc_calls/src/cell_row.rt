//! A cell of a screen, for C.
ghost use Rattle.std.specs.Prelude.{◌≡◌, map};
ghost use Rattle.esc_calls.specs.CellRows.{cell_row, character_of, color_number, link_count, mark_number, marks_of, underline_number, width_of};
ghost use Rattle.esc_calls.specs.Output.{Puts, put_into};
ghost use Rattle.esc_terminal.specs.Links.{known_of};

use esc_screen::{Cell, Content, Marks};
use esc_sequences::Underline;
use esc_style::Color;
use esc_terminal::Styles;

/// A cell of a screen: the character in it, its look, and its link.
#[repr(C)]
#[derive(Clone, Copy)]
pub struct CellRow {
    /// The code point of the character; 0, if the cell is blank or the second of a character.
    pub character: u32,
    /// The code point of the first mark on the character, or 0.
    pub first_mark: u32,
    /// That of the second one, or 0.
    pub second_mark: u32,
    /// The colour of the characters: 0 the terminal's own, 0x1000000 and an entry of the palette of
    /// 256, or 0x2000000 and red, green and blue, a byte each.
    pub foreground: u32,
    /// The colour around them.
    pub background: u32,
    /// The colour of their underline.
    pub underline_color: u32,
    /// The number of the link to which it leads, from 1 on, or 0.
    pub link: u32,
    /// Says how many columns the character takes: 1, 2, or 0 for the second half of one of two
    /// columns.
    pub width: u8,
    /// Says how it is underlined: 0 not, 1 once, 2 twice, 3 wavy, 4 dotted, 5 dashed.
    pub underline: u8,
    /// SGR 1.
    pub bold: bool,
    /// SGR 2.
    pub faint: bool,
    /// SGR 3.
    pub italic: bool,
    /// SGR 5 or 6.
    pub blink: bool,
    /// SGR 7.
    pub inverse: bool,
    /// SGR 8.
    pub concealed: bool,
    /// SGR 9.
    pub strikethrough: bool,
    /// SGR 53.
    pub overline: bool,
    /// Says whether marks on the character are left out: those after the second one.
    pub more_marks: bool,
    /// Says whether the row goes on in the next one, if it is the last cell of the row.
    pub joined: bool,
}

impl CellRow {
    /// Returns the row of a cell, which has the number of one of these looks and links.
    pub(crate) fn of(cell: Cell, styles: &Styles) -> CellRow
        ensures { result ≡ cell_row (known_of styles.now) cell }
    {
        let look = styles.look_at(cell.look);
        let marks = marks_of(cell.content);
        CellRow {
            character: character_of(cell.content),
            first_mark: mark_number(marks.first),
            second_mark: mark_number(marks.second),
            foreground: color_number(look.foreground),
            background: color_number(look.background),
            underline_color: color_number(look.underline_color),
            link: link_count(styles.link_number(cell.look)),
            width: width_of(cell.content),
            underline: underline_number(look.underline),
            bold: look.bold,
            faint: look.faint,
            italic: look.italic,
            blink: look.blink,
            inverse: look.inverse,
            concealed: look.concealed,
            strikethrough: look.strikethrough,
            overline: look.overline,
            more_marks: marks.others,
            joined: cell.joined,
        }
    }
}

pub(crate) fn character_of(content: Content) -> u32
    ensures { result ≡ character_of content }
{
    match content {
        Content::Narrow(c, _) | Content::Wide(c, _) => c as u32,
        Content::Blank | Content::Rest => 0,
    }
}

pub(crate) fn marks_of(content: Content) -> Marks
    ensures { result ≡ marks_of content }
{
    match content {
        Content::Narrow(_, marks) | Content::Wide(_, marks) => marks,
        Content::Blank | Content::Rest => Marks::none(),
    }
}

pub(crate) fn width_of(content: Content) -> u8
    ensures { result ≡ width_of content }
{
    match content {
        Content::Blank | Content::Narrow(_, _) => 1,
        Content::Wide(_, _) => 2,
        Content::Rest => 0,
    }
}

fn mark_number(mark: Option<char>) -> u32
    ensures { result ≡ mark_number mark }
{
    match mark {
        Some(c) => c as u32,
        None => 0,
    }
}

// Returns the number of a link from 1 on, or 0.
fn link_count(place: Option<u16>) -> u32
    ensures { result ≡ link_count place }
{
    match place {
        Some(place) => u32::from(place) + 1,
        None => 0,
    }
}

fn underline_number(underline: Underline) -> u8
    ensures { result ≡ underline_number underline }
{
    match underline {
        Underline::None => 0,
        Underline::Single => 1,
        Underline::Double => 2,
        Underline::Curly => 3,
        Underline::Dotted => 4,
        Underline::Dashed => 5,
    }
}

fn color_number(color: Color) -> u32
    ensures { result ≡ color_number color }
{
    match color {
        Color::Default => 0,
        Color::Named(name) => 0x100_0000 + u32::from(name.index()),
        Color::Palette(index) => 0x100_0000 + u32::from(index),
        Color::Direct(color) => {
            let (red, green, blue) = color.to_tuple_rgb8();
            0x200_0000 + u32::from(red) * 0x1_0000 + u32::from(green) * 0x100 + u32::from(blue)
        }
    }
}

/// Writes as many of these cells as there is room for, and leaves the other places as they are.
/// Returns how many there are.
pub(crate) fn put_cells(cells: &[Cell], styles: &Styles, out: &mut [CellRow]) -> usize
    ensures { Puts (map (cell_row (known_of styles.now)) cells.now) out.old out.new result }
{
    put_fitting(cells, styles, out);
    cells.len()
}

fn put_fitting(cells: &[Cell], styles: &Styles, out: &mut [CellRow])
    ensures { out.new ≡ put_into (map (cell_row (known_of styles.now)) cells.now) out.old }
{
    let fitting = cells.len().min(out.len());
    let mut at = 0;
    while at < fitting {
        out[at] = CellRow::of(cells[at], styles);
        at += 1;
    }
}
