//! Terminals that are compared.

use esc_paint::{push_difference, push_painting};
use esc_screen::{Cell, Content, Cursor, Marks, Screen};
use esc_sgr::is_same;
use esc_style::Look;
use esc_terminal::{Styles, Terminal};
use std::alloc::{AllocError, Allocator};

/// How many columns and rows they have.
pub const COLUMNS: u16 = 12;

pub const ROWS: u16 = 4;

/// A terminal over a heap. Functions own terminals only of a type parameter: a proof goes over all
/// parts of a `Terminal` on each path that drops one.
pub trait Seen<H>: Drop {
    /// Returns a terminal of so many columns and rows.
    fn sized(heap: H, columns: u16, rows: u16) -> Result<Self, AllocError>;

    /// Takes bytes.
    fn read(&mut self, bytes: &[u8]) -> Result<(), AllocError>;

    /// Appends the text that paints its screen.
    fn push_painting(&self, text: &mut String) -> Result<(), AllocError>;

    /// Appends the text that leads to the screen of another.
    fn push_difference(&self, to: &Self, text: &mut String) -> Result<(), AllocError>;

    /// Returns whether it shows the same as another.
    fn shows(&self, other: &Self) -> bool;
}

impl<A: Allocator + Copy> Seen<A> for Terminal<A> {
    fn sized(heap: A, columns: u16, rows: u16) -> Result<Terminal<A>, AllocError> {
        Terminal::new(heap, columns, rows)
    }

    fn read(&mut self, bytes: &[u8]) -> Result<(), AllocError> {
        self.feed(bytes)
    }

    fn push_painting(&self, text: &mut String) -> Result<(), AllocError> {
        match self.screen().zip(self.styles()) {
            Some((screen, styles)) => push_painting(text, screen, styles),
            None => Err(AllocError),
        }
    }

    fn push_difference(&self, to: &Terminal<A>, text: &mut String) -> Result<(), AllocError> {
        match (
            self.screen().zip(self.styles()),
            to.screen().zip(to.styles()),
        ) {
            (Some((old, old_styles)), Some((new, new_styles))) => {
                push_difference(text, old, old_styles, new, new_styles)
            }
            _ => Err(AllocError),
        }
    }

    fn shows(&self, other: &Terminal<A>) -> bool {
        match (
            self.screen().zip(self.styles()),
            other.screen().zip(other.styles()),
        ) {
            (Some((screen, styles)), Some((other, others))) => {
                same_cursor(screen.cursor(), other.cursor())
                    & same_rows(screen, styles, other, others)
            }
            _ => false,
        }
    }
}

/// Returns whether two terminals show the same.
pub fn shows_same<H, T: Seen<H>>(a: &T, b: &T) -> bool {
    a.shows(b)
}

fn same_marks(a: Marks, b: Marks) -> bool {
    a.first == b.first && a.second == b.second && a.others == b.others
}

fn same_content(a: Content, b: Content) -> bool {
    match (a, b) {
        (Content::Blank, Content::Blank) | (Content::Rest, Content::Rest) => true,
        (Content::Narrow(c, m), Content::Narrow(d, n)) => c == d && same_marks(m, n),
        (Content::Wide(c, m), Content::Wide(d, n)) => c == d && same_marks(m, n),
        _ => false,
    }
}

// Returns the look of a cell as it is seen: a blank one shows its background.
fn look_of<A: Allocator>(styles: &Styles<A>, cell: &Cell) -> Look {
    let look = styles.look_at(cell.look);
    match cell.content {
        Content::Blank => {
            let mut blank = Look::plain();
            blank.background = look.background;
            blank
        }
        _ => look,
    }
}

// Returns whether two cells of screens with these looks are seen as the same.
fn same_cell<A: Allocator>(
    styles: &Styles<A>,
    cell: &Cell,
    others: &Styles<A>,
    other: &Cell,
) -> bool {
    let is_one = is_same(&look_of(styles, cell), &look_of(others, other));
    is_one & same_content(cell.content, other.content)
}

fn same_row<A: Allocator>(
    styles: &Styles<A>,
    row: &[Cell],
    others: &Styles<A>,
    other: &[Cell],
) -> bool {
    let mut is_same = row.len() == other.len();
    for (cell, painted) in row.iter().zip(other) {
        is_same &= same_cell(styles, cell, others, painted);
    }
    is_same
}

fn same_rows<A: Allocator>(
    screen: &Screen<A>,
    styles: &Styles<A>,
    other: &Screen<A>,
    others: &Styles<A>,
) -> bool {
    let mut is_same = true;
    for row in 0..ROWS as usize {
        is_same &= same_row(styles, screen.row(row), others, other.row(row));
    }
    is_same
}

fn same_cursor(from: Cursor, to: Cursor) -> bool {
    from.row == to.row && from.column == to.column && from.pending == to.pending
}
