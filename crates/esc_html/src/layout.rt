//! How a page is laid out.

/// How a page is laid out.
#[derive(Clone, Copy, Debug, PartialEq, Eq)]
pub struct Layout {
    /// Whether the tags that are open are closed before each line feed, and opened again after it:
    /// so each line is HTML by itself. A link is opened on 16 lines at most, and later characters
    /// are text.
    pub per_line: bool,
    /// Whether looks are declarations of CSS alone, in the attribute `style` of their spans, and
    /// not names of classes: so the page needs no style sheet.
    pub inline: bool,
}
