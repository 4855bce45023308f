//! This module defines iTerm2's proprietary commands
//! (<https://iterm2.com/documentation-escape-codes.html>).
use crate::file_data::ITermFileData;
use crate::unicode_version::ITermUnicodeVersionOp;
use esc_values::{Boxed, Text};
use std::alloc::{Allocator, Global};

/// This is a proprietary command of iTerm2: the operating system command 1337 (iTerm2's
/// documentation, "Proprietary Escape Codes").
#[derive(Drop)]
#[derive_where(Debug, PartialEq, Eq)]
pub enum ITermProprietary<A: Allocator = Global> {
    /// Marks this line, so that it can be jumped back to.
    SetMark,
    /// Brings the window before all others.
    StealFocus,
    /// Forgets the lines that have scrolled off.
    ClearScrollback,
    /// Names the directory that the shell works in.
    CurrentDir(Text<A>),
    /// Changes the session's profile to that of this name.
    SetProfile(Text<A>),
    /// Puts the text that follows, up to `EndCopy`, into this pasteboard: `rule`, `find`, `font`,
    /// or the general one if the name is empty.
    CopyToClipboard(Text<A>),
    /// Ends the text that `CopyToClipboard` began.
    EndCopy,
    /// Says whether the line of the cursor is highlighted.
    HighlightCursorLine(bool),
    /// Asks for the size of a cell.
    RequestCellSize,
    /// Reports the size of a cell, as the terminal does.
    ReportCellSize {
        /// The height of a cell, in tenths of a pixel.
        height_pixels: u32,
        /// The width of a cell, in tenths of a pixel.
        width_pixels: u32,
        /// The number of the display's pixels in a pixel, in tenths; none if it was not reported.
        scale: Option<u32>,
    },
    /// Puts this text into the general pasteboard. It is written in base64.
    Copy(Text<A>),
    /// Asks for the value of the variable of this name. It is written in base64, and is never read.
    ReportVariable(Text<A>),
    /// Sets a variable.
    SetUserVar {
        /// The name of the variable. A name that reads back has no `=`.
        name: Text<A>,
        /// Its value, written in base64.
        value: Text<A>,
    },
    /// Sets the format of the session's badge. It is written in base64.
    SetBadgeFormat(Text<A>),
    /// Sends a file to download, or a picture to show.
    File(Boxed<ITermFileData<A>, A>),
    /// Sets, keeps or brings back the version of Unicode that gives characters their widths.
    UnicodeVersion(ITermUnicodeVersionOp<A>),
}
