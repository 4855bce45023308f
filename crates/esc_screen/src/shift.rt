//! Columns that are put in or taken out.

/// So many columns that are put into rows, or taken out.
#[derive(Clone, Copy)]
pub(crate) struct Shift {
    /// Whether they are put in.
    pub more: bool,
    /// How many.
    pub count: usize,
    /// The first of them.
    pub column: usize,
    /// The column before which cells move.
    pub end: usize,
    /// How cells look that are blank then.
    pub look: u16,
}
