//! The cells of a screen.
ghost use Rattle.std.specs.Prelude.{◌≡◌};
ghost use Rattle.esc_screen.specs.Cells.{blank, cell, drawn_cell, is_joined, joined_cell};

use crate::content::Content;
use crate::marks::Marks;

/// A cell: its content and its look.
#[derive(Clone, Copy)]
pub struct Cell {
    /// Its content.
    pub content: Content,
    /// How it looks: a number that the caller chose.
    pub look: u16,
    /// Whether its row goes on in the next one, if it is the last cell of the row: the character
    /// after it wrapped.
    pub joined: bool,
}

/// Whether a row goes on in the next one, as its last cell says.
#[inline]
pub fn is_joined(cells: &[Cell]) -> bool
    ensures { result ≡ is_joined cells.now }
{
    match cells.last() {
        Some(cell) => cell.joined,
        None => false,
    }
}

impl Cell {
    /// A cell with this in it, that looks so.
    #[inline]
    pub(crate) fn new(content: Content, look: u16) -> Cell
        ensures { result ≡ cell content look }
    {
        Cell {
            content,
            look,
            joined: false,
        }
    }

    /// A blank cell that looks so.
    #[inline]
    pub fn blank(look: u16) -> Cell
        ensures { result ≡ blank look }
    {
        Cell::new(Content::Blank, look)
    }

    /// A character of one column that looks so, with no mark.
    #[inline]
    pub fn narrow(c: char, look: u16) -> Cell
        ensures { result ≡ drawn_cell look c }
    {
        Cell::new(Content::Narrow(c, Marks::none()), look)
    }

    /// The last cell of a row that goes on in the next one.
    #[inline]
    pub(crate) fn join(self) -> Cell
        ensures { result ≡ joined_cell self }
    {
        Cell {
            joined: true,
            ..self
        }
    }
}
