//! The state of a screen, but for its cells, for C.
ghost use Rattle.esc_calls.specs.Screens.{Tells};

/// The state of a screen, but for its cells, titles, links and requests.
#[repr(C)]
#[derive(Clone, Copy)]
pub struct ScreenRow {
    /// Says how many rows were scrolled off its top in all.
    pub scrolled: u64,
    /// Says how many of these are kept: the last ones.
    pub kept: usize,
    /// Says how many requests the last chunk made.
    pub requests: usize,
    /// Says how many links it has.
    pub links: usize,
    /// Says how many columns it has.
    pub columns: u16,
    /// Says how many rows it has.
    pub rows: u16,
    /// The row of the cursor, from 0 on.
    pub cursor_row: u16,
    /// The column of the cursor, from 0 on.
    pub cursor_column: u16,
    /// Says whether the last column was just written, so that the next character goes to the next
    /// row.
    pub pending: bool,
    /// Says whether the cursor is shown (DECTCEM).
    pub shown: bool,
    /// Says whether the alternate screen is seen.
    pub alternate: bool,
    /// Says whether all cells are inverse (DECSCNM).
    pub reversed: bool,
    /// Says whether a program is in the middle of an update (mode 2026).
    pub synchronized: bool,
    /// Says whether its window has a title.
    pub has_title: bool,
}
