//! Control sequences of the window (xterm's list, XTWINOPS; DEC's VT340 and VT420, DECSLPP).
ghost use Rattle.std.specs.Prelude.{◌≡◌, Some, false};
ghost use Rattle.esc_sequences.specs.Csis.{csi_text, unspecified};
ghost use Rattle.typed_functions.specs.Spellings.{entries, window_numbers, window_spelling};

use crate::arguments::Arguments;
use crate::spelling::{Spelling, write_spelling};
use std::fmt;

/// A request or a report about the window, `CSI .. t`, by the names of termwiz. Sizes are in pixels
/// or, if the name says so, in cells.
///
/// A terminal reports that a window is open or iconified as `DeIconify` and `Iconify`, its place as
/// `MoveWindow`, and its sizes as `ResizeWindowPixels` and `ResizeWindowCells`: no other sequence
/// says so.
#[derive(Clone, Copy, Debug)]
pub enum Window {
    /// 1: it is opened again.
    DeIconify,
    /// 2: it is iconified.
    Iconify,
    /// 3: it is moved to this place.
    MoveWindow {
        x: u32,
        y: u32,
    },
    /// 4: it is given this size. A size that is left out stays as it is, and 0 is the size of the
    /// screen.
    ResizeWindowPixels {
        height: Option<u32>,
        width: Option<u32>,
    },
    /// 5: it is raised above all others.
    RaiseWindow,
    /// 5 with two numbers: a report of the size of the screen.
    ReportScreenSizePixelsResponse {
        height: u32,
        width: u32,
    },
    /// 6: it is lowered below all others.
    LowerWindow,
    /// 6 with two numbers: a report of the size of a cell.
    ReportCellSizePixelsResponse {
        height: u32,
        width: u32,
    },
    /// 7: it is drawn again.
    RefreshWindow,
    /// 8: its text area is given this size. A size that is left out stays as it is, and 0 is the
    /// size of the screen.
    ResizeWindowCells {
        height: Option<u32>,
        width: Option<u32>,
    },
    /// 9 and 0: it is no longer maximized.
    RestoreMaximizedWindow,
    /// 9 and 1: it is maximized.
    MaximizeWindow,
    /// 9 and 2: it is maximized in height.
    MaximizeWindowVertically,
    /// 9 and 3: it is maximized in width.
    MaximizeWindowHorizontally,
    /// 9 with two numbers: a report of the size of the screen.
    ReportScreenSizeCellsResponse {
        height: u32,
        width: u32,
    },
    /// 10 and 0: it no longer fills the screen.
    UndoFullScreenMode,
    /// 10 and 1: it fills the screen.
    ChangeToFullScreenMode,
    /// 10 and 2: it fills the screen, or no longer does.
    ToggleFullScreen,
    /// 11: a report is asked for whether it is open.
    ReportWindowState,
    /// 13: a report of its place.
    ReportWindowPosition,
    /// 13 and 2: a report of the place of its text area.
    ReportTextAreaPosition,
    /// 14: a report of the size of its text area.
    ReportTextAreaSizePixels,
    /// 14 and 2: a report of its size.
    ReportWindowSizePixels,
    /// 15: a report of the size of the screen.
    ReportScreenSizePixels,
    /// 16: a report of the size of a cell.
    ReportCellSizePixels,
    /// 18: a report of the size of its text area.
    ReportTextAreaSizeCells,
    /// 19: a report of the size of the screen.
    ReportScreenSizeCells,
    /// 20: a report of the label of its icon.
    ReportIconLabel,
    /// 21: a report of its title.
    ReportWindowTitle,
    /// 22 and 0: both titles are kept.
    PushIconAndWindowTitle,
    /// 22 and 1: the title of the icon is kept.
    PushIconTitle,
    /// 22 and 2: the title of the window is kept.
    PushWindowTitle,
    /// 23 and 0: both titles are again as they were kept.
    PopIconAndWindowTitle,
    /// 23 and 1: the title of the icon is.
    PopIconTitle,
    /// 23 and 2: the title of the window is.
    PopWindowTitle,
    /// 24 and up, DECSLPP: so many lines a page.
    SetLinesPerPage(u32),
}

/// Writes the control sequence in its normal spelling, in which defaults are left out. If it
/// returns `Ok`, all of it was written.
impl fmt::Display for Window {
    ghost output = { λ c. let s = window_spelling c in
        Some (csi_text (unspecified (entries s) false s.last)) };

    fn fmt<W: fmt::Write>(&self, f: &mut fmt::Formatter<W>) -> fmt::Result {
        write_spelling(window_spelling(*self), f)
    }
}

// Returns its spelling.
fn window_spelling(window: Window) -> Spelling
    ensures { result ≡ window_spelling window }
{
    Spelling::plain(numbers(window), b't')
}

// Returns its numbers.
fn numbers(window: Window) -> Arguments
    ensures { result ≡ window_numbers window }
{
    match window {
        Window::DeIconify => Arguments::Numbers(1, None, None),
        Window::Iconify => Arguments::Numbers(2, None, None),
        Window::MoveWindow { x, y } => Arguments::Numbers(3, Some(x), Some(y)),
        Window::ResizeWindowPixels { height, width } => Arguments::Numbers(4, height, width),
        Window::RaiseWindow => Arguments::Numbers(5, None, None),
        Window::ReportScreenSizePixelsResponse { height, width } => {
            Arguments::Numbers(5, Some(height), Some(width))
        }
        Window::LowerWindow => Arguments::Numbers(6, None, None),
        Window::ReportCellSizePixelsResponse { height, width } => {
            Arguments::Numbers(6, Some(height), Some(width))
        }
        Window::RefreshWindow => Arguments::Numbers(7, None, None),
        Window::ResizeWindowCells { height, width } => Arguments::Numbers(8, height, width),
        Window::RestoreMaximizedWindow => Arguments::Numbers(9, Some(0), None),
        Window::MaximizeWindow => Arguments::Numbers(9, Some(1), None),
        Window::MaximizeWindowVertically => Arguments::Numbers(9, Some(2), None),
        Window::MaximizeWindowHorizontally => Arguments::Numbers(9, Some(3), None),
        Window::ReportScreenSizeCellsResponse { height, width } => {
            Arguments::Numbers(9, Some(height), Some(width))
        }
        Window::UndoFullScreenMode => Arguments::Numbers(10, Some(0), None),
        Window::ChangeToFullScreenMode => Arguments::Numbers(10, Some(1), None),
        Window::ToggleFullScreen => Arguments::Numbers(10, Some(2), None),
        Window::ReportWindowState => Arguments::Numbers(11, None, None),
        Window::ReportWindowPosition => Arguments::Numbers(13, None, None),
        Window::ReportTextAreaPosition => Arguments::Numbers(13, Some(2), None),
        Window::ReportTextAreaSizePixels => Arguments::Numbers(14, None, None),
        Window::ReportWindowSizePixels => Arguments::Numbers(14, Some(2), None),
        Window::ReportScreenSizePixels => Arguments::Numbers(15, None, None),
        Window::ReportCellSizePixels => Arguments::Numbers(16, None, None),
        Window::ReportTextAreaSizeCells => Arguments::Numbers(18, None, None),
        Window::ReportScreenSizeCells => Arguments::Numbers(19, None, None),
        Window::ReportIconLabel => Arguments::Numbers(20, None, None),
        Window::ReportWindowTitle => Arguments::Numbers(21, None, None),
        Window::PushIconAndWindowTitle => Arguments::Numbers(22, Some(0), None),
        Window::PushIconTitle => Arguments::Numbers(22, Some(1), None),
        Window::PushWindowTitle => Arguments::Numbers(22, Some(2), None),
        Window::PopIconAndWindowTitle => Arguments::Numbers(23, Some(0), None),
        Window::PopIconTitle => Arguments::Numbers(23, Some(1), None),
        Window::PopWindowTitle => Arguments::Numbers(23, Some(2), None),
        Window::SetLinesPerPage(lines) => Arguments::Numbers(lines, None, None),
    }
}
