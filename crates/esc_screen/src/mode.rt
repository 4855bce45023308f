//! Modes of a screen.

/// A mode of a screen that is set or reset.
#[derive(Clone, Copy)]
pub enum Mode {
    /// The first character past the last column goes to the next row: DECAWM.
    AutoWrap,
    /// A character moves those from the cursor on to the right: IRM.
    Insert,
    /// A line feed goes to the first column: LNM.
    NewLine,
    /// The colours of the screen are exchanged: DECSCNM.
    ReverseVideo,
    /// The cursor is seen: DECTCEM.
    ShowCursor,
    /// The display waits until the mode is reset: private mode 2026.
    Synchronized,
    /// [`Setting::Columns`](crate::Setting::Columns) has an effect: private mode 40.
    Columns,
}
