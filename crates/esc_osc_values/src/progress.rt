//! This module defines the progress of a task
//! (<https://conemu.github.io/en/AnsiEscapeCodes.html#ConEmu_specific_OSC>).

/// This is the progress of a task, as ConEmu shows it (its "ANSI X3.64 and Xterm 256 colors", OSC
/// 9;4).
#[derive(Clone, Debug, Drop, PartialEq, Eq)]
pub enum Progress {
    /// Shows no progress.
    None,
    /// Shows a percentage. One that was read is at most 100.
    SetPercentage(u8),
    /// Shows an error, at a percentage. One that was read is at most 100.
    SetError(u8),
    /// Shows that the task goes on for an unknown time.
    SetIndeterminate,
    /// Shows that the task pauses.
    Paused,
}
