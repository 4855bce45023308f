//! The cursor of a screen.
ghost use Rattle.std.specs.Prelude.{◌≡◌};
ghost use Rattle.esc_screen.specs.Cursors.{draws, home, softly_reset};
ghost use Rattle.esc_screen.specs.Resized.{cursor_within};

/// The place, the look and the character set of the next character: DECSC saves them, and DECRC
/// restores them (VT510, "Save Cursor").
#[derive(Clone, Copy)]
pub struct Cursor {
    /// The row, from 0 on.
    pub row: u16,
    /// The column, from 0 on.
    pub column: u16,
    /// Whether the last column was just written, so that the next character goes to the next row.
    pub pending: bool,
    /// How characters look: a number that the caller chose.
    pub look: u16,
    /// How cells look that are erased.
    pub erased: u16,
    /// Whether rows are counted from the top margin, and the cursor stays within the margins.
    pub origin: bool,
    /// Whether the set G0 is that of line drawing, and not ASCII.
    pub g0_draws: bool,
    /// Whether the set G1 is.
    pub g1_draws: bool,
    /// Whether characters are of G1, and not of G0.
    pub shifted: bool,
}

impl Cursor {
    /// In the first column of the first row, as at first.
    pub fn home() -> Cursor
        ensures { result ≡ home }
    {
        Cursor {
            row: 0,
            column: 0,
            pending: false,
            look: 0,
            erased: 0,
            origin: false,
            g0_draws: false,
            g1_draws: false,
            shifted: false,
        }
    }

    /// Whether characters are of the set of line drawing.
    #[inline]
    pub fn draws(&self) -> bool
        ensures { result ≡ draws self.now }
    {
        if self.shifted {
            self.g1_draws
        } else {
            self.g0_draws
        }
    }

    /// As at first, but for its place.
    pub fn softly_reset(self) -> Cursor
        ensures { result ≡ softly_reset self }
    {
        Cursor {
            look: 0,
            erased: 0,
            origin: false,
            g0_draws: false,
            g1_draws: false,
            shifted: false,
            ..self
        }
    }

    /// The same, within so many rows and columns: in the last one, if it is past that.
    pub(crate) fn within(self, rows: u16, columns: u16) -> Cursor
        ensures { result ≡ cursor_within rows columns self }
    {
        Cursor {
            row: self.row.min(rows.saturating_sub(1)),
            column: self.column.min(columns.saturating_sub(1)),
            ..self
        }
    }
}
