//! The escape sequences that have a name.

/// An escape sequence with a name: ESC and one final byte, with no intermediate (ECMA-48, 5.3 and
/// 8.3; xterm's list of control sequences).
#[derive(Clone, Copy, Debug, PartialEq, Eq)]
pub enum EscCode {
    /// ST, `ESC \`: ends a control string.
    StringTerminator,
    /// HTS, `ESC H`: sets a tab stop at the active column.
    HorizontalTabSet,
    /// `ESC k`: begins a title, as `screen` and `tmux` read it.
    TmuxTitle,
}
