//! The content of a cell.
ghost use Rattle.std.specs.Prelude.{◌≡◌};
ghost use Rattle.esc_screen.specs.Cells.{is_rest_content, marked_content};

use crate::marks::Marks;

/// The content of a cell.
#[derive(Clone, Copy)]
pub enum Content {
    /// Nothing.
    Blank,
    /// A character of one column, and the marks on it.
    Narrow(char, Marks),
    /// A character of two columns, in the first of them, and the marks on it.
    Wide(char, Marks),
    /// The second column of the character before.
    Rest,
}

impl Content {
    /// Whether it is the second column of the character before.
    #[inline]
    pub fn is_rest(self) -> bool
        ensures { result ≡ is_rest_content self }
    {
        match self {
            Content::Rest => true,
            _ => false,
        }
    }

    /// With one mark more on the character; a cell that is blank, or the second column of a
    /// character, takes none.
    pub fn with_mark(self, mark: char) -> Content
        ensures { result ≡ marked_content mark self }
    {
        match self {
            Content::Narrow(c, marks) => Content::Narrow(c, marks.with(mark)),
            Content::Wide(c, marks) => Content::Wide(c, marks.with(mark)),
            _ => self,
        }
    }
}
