//! Rectangles of a screen.

/// A rectangle of a screen, from one row and column to another row and column, which are of it too.
/// Rows and columns are counted from 0, rows from the top margin in origin mode, and what would be
/// past the last one is the last one. It is empty where its end comes before its start.
#[derive(Clone, Copy)]
pub struct Area {
    /// The first row.
    pub top: u16,
    /// The first column.
    pub left: u16,
    /// The last row.
    pub bottom: u16,
    /// The last column.
    pub right: u16,
}
