//! The screen whose lines are left.
ghost use Rattle.std.specs.Prelude.{◌≡◌};
ghost use Rattle.line_collapse.specs.Windows.{window_of};

use esc_filter::Unicode;

/// The columns of a screen if nothing says how many.
pub const COLUMNS: usize = 512;

/// The screen of a terminal whose lines are left, and the text in place of characters that deceive.
#[derive(Clone, Copy)]
pub struct Window {
    /// How many rows may be written again: 0 is as 1.
    pub rows: u16,
    /// After how many columns a line goes on in the next row: 0 is as 1.
    pub columns: u16,
    /// The text in place of characters that deceive.
    pub characters: Unicode,
    /// Whether the text is counted that is printed and stands in no row at last.
    pub counts: bool,
}

impl Window {
    /// A screen of so many rows and columns, where more than 65,535 are taken for so many, and with
    /// this choice for characters that deceive. Its text is counted. The screen is made at once, so
    /// its memory is rows times columns.
    pub fn new(rows: usize, columns: usize, characters: Unicode) -> Window
        ensures { result ≡ window_of rows columns characters }
    {
        Window {
            rows: rows.min(0xffff) as u16,
            columns: columns.min(0xffff) as u16,
            characters,
            counts: true,
        }
    }
}
