//! The operation on tab stops.

/// The operation of a control sequence with several choices on tab stops.
#[derive(Clone, Copy, Debug, PartialEq, Eq)]
pub enum TabChange {
    /// `CSI .. g`, TBC (ECMA-48, 8.3.154): they are cleared. A choice is that of
    /// [`TabulationClear`](crate::TabulationClear).
    Clear,
    /// `CSI .. W`, CTC (ECMA-48, 8.3.17): they are set or cleared. A choice is that of
    /// [`CursorTabulationControl`](crate::CursorTabulationControl).
    Control,
}
