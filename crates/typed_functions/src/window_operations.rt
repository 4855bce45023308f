//! The request of a control sequence of the window, by its numbers.
ghost use Rattle.std.specs.Prelude.{◌≡◌};
ghost use Rattle.typed_functions.specs.Windows.{lone_window, window_fill, window_lower, window_maximize, window_move, operation, operation_below, window_place, title_pop, popped_title, title_push, pushed_title, window_raise, reports, window_size};

use crate::unfit::Unfit;
use crate::window::Window;

// Returns the operation of this number, with up to two more. From 24 on it is a count of lines.
pub(crate) fn operation(number: u32, a: Option<u32>, b: Option<u32>) -> Result<Window, Unfit>
    ensures { result ≡ operation number a b }
{
    if number >= 24 {
        alone(Window::SetLinesPerPage(number), a, b)
    } else {
        operation_below(number, a, b)
    }
}

// Returns the operation of a number below 24.
fn operation_below(number: u32, a: Option<u32>, b: Option<u32>) -> Result<Window, Unfit>
    ensures { result ≡ operation_below number a b }
{
    match number {
        1 => alone(Window::DeIconify, a, b),
        2 => alone(Window::Iconify, a, b),
        3 => moved(a, b),
        4 => Ok(Window::ResizeWindowPixels {
            height: a,
            width: b,
        }),
        5 => raised(a, b),
        6 => lowered(a, b),
        7 => alone(Window::RefreshWindow, a, b),
        8 => Ok(Window::ResizeWindowCells {
            height: a,
            width: b,
        }),
        9 => maximized(a, b),
        10 => filled(a, b),
        22 => pushed(a, b),
        23 => popped(a, b),
        _ => reports(number, a, b),
    }
}

// Returns the operation of a number from 11 to 21, which asks for a report.
fn reports(number: u32, a: Option<u32>, b: Option<u32>) -> Result<Window, Unfit>
    ensures { result ≡ reports number a b }
{
    match number {
        11 => alone(Window::ReportWindowState, a, b),
        13 => placed(a, b),
        14 => sized(a, b),
        15 => alone(Window::ReportScreenSizePixels, a, b),
        16 => alone(Window::ReportCellSizePixels, a, b),
        18 => alone(Window::ReportTextAreaSizeCells, a, b),
        19 => alone(Window::ReportScreenSizeCells, a, b),
        20 => alone(Window::ReportIconLabel, a, b),
        21 => alone(Window::ReportWindowTitle, a, b),
        _ => Err(Unfit::OutOfRange),
    }
}

// Returns an operation that takes no more numbers.
fn alone(window: Window, a: Option<u32>, b: Option<u32>) -> Result<Window, Unfit>
    ensures { result ≡ lone_window window a b }
{
    match (a, b) {
        (None, None) => Ok(window),
        (Some(_), _) | (None, Some(_)) => Err(Unfit::TooMany),
    }
}

// 3, and a place.
fn moved(x: Option<u32>, y: Option<u32>) -> Result<Window, Unfit>
    ensures { result ≡ window_move x y }
{
    match (x, y) {
        (Some(x), Some(y)) => Ok(Window::MoveWindow { x, y }),
        (None, _) | (Some(_), None) => Err(Unfit::TooFew),
    }
}

// 5, alone or before the size of the screen.
fn raised(height: Option<u32>, width: Option<u32>) -> Result<Window, Unfit>
    ensures { result ≡ window_raise height width }
{
    match (height, width) {
        (None, None) => Ok(Window::RaiseWindow),
        (Some(height), Some(width)) => Ok(Window::ReportScreenSizePixelsResponse { height, width }),
        (Some(_), None) | (None, Some(_)) => Err(Unfit::TooFew),
    }
}

// 6, alone or before the size of a cell.
fn lowered(height: Option<u32>, width: Option<u32>) -> Result<Window, Unfit>
    ensures { result ≡ window_lower height width }
{
    match (height, width) {
        (None, None) => Ok(Window::LowerWindow),
        (Some(height), Some(width)) => Ok(Window::ReportCellSizePixelsResponse { height, width }),
        (Some(_), None) | (None, Some(_)) => Err(Unfit::TooFew),
    }
}

// 9, before a choice or the size of the screen.
fn maximized(a: Option<u32>, b: Option<u32>) -> Result<Window, Unfit>
    ensures { result ≡ window_maximize a b }
{
    match (a, b) {
        (Some(height), Some(width)) => Ok(Window::ReportScreenSizeCellsResponse { height, width }),
        (None, _) => Err(Unfit::TooFew),
        (Some(0), None) => Ok(Window::RestoreMaximizedWindow),
        (Some(1), None) => Ok(Window::MaximizeWindow),
        (Some(2), None) => Ok(Window::MaximizeWindowVertically),
        (Some(3), None) => Ok(Window::MaximizeWindowHorizontally),
        (Some(_), None) => Err(Unfit::OutOfRange),
    }
}

// 10, and a choice.
fn filled(a: Option<u32>, b: Option<u32>) -> Result<Window, Unfit>
    ensures { result ≡ window_fill a b }
{
    match (a, b) {
        (_, Some(_)) => Err(Unfit::TooMany),
        (None, None) => Err(Unfit::TooFew),
        (Some(0), None) => Ok(Window::UndoFullScreenMode),
        (Some(1), None) => Ok(Window::ChangeToFullScreenMode),
        (Some(2), None) => Ok(Window::ToggleFullScreen),
        (Some(_), None) => Err(Unfit::OutOfRange),
    }
}

// 13, alone or before 2.
fn placed(a: Option<u32>, b: Option<u32>) -> Result<Window, Unfit>
    ensures { result ≡ window_place a b }
{
    match (a, b) {
        (_, Some(_)) => Err(Unfit::TooMany),
        (None, None) => Ok(Window::ReportWindowPosition),
        (Some(2), None) => Ok(Window::ReportTextAreaPosition),
        (Some(_), None) => Err(Unfit::OutOfRange),
    }
}

// 14, alone or before 2.
fn sized(a: Option<u32>, b: Option<u32>) -> Result<Window, Unfit>
    ensures { result ≡ window_size a b }
{
    match (a, b) {
        (_, Some(_)) => Err(Unfit::TooMany),
        (None, None) => Ok(Window::ReportTextAreaSizePixels),
        (Some(2), None) => Ok(Window::ReportWindowSizePixels),
        (Some(_), None) => Err(Unfit::OutOfRange),
    }
}

// 22, and a choice; after it there may be 0.
fn pushed(a: Option<u32>, b: Option<u32>) -> Result<Window, Unfit>
    ensures { result ≡ title_push a b }
{
    match (a, b) {
        (None, _) => Err(Unfit::TooFew),
        (Some(title), None | Some(0)) => pushed_title(title),
        (Some(_), Some(_)) => Err(Unfit::OutOfRange),
    }
}

fn pushed_title(title: u32) -> Result<Window, Unfit>
    ensures { result ≡ pushed_title title }
{
    match title {
        0 => Ok(Window::PushIconAndWindowTitle),
        1 => Ok(Window::PushIconTitle),
        2 => Ok(Window::PushWindowTitle),
        _ => Err(Unfit::OutOfRange),
    }
}

// 23, and a choice; after it there may be 0.
fn popped(a: Option<u32>, b: Option<u32>) -> Result<Window, Unfit>
    ensures { result ≡ title_pop a b }
{
    match (a, b) {
        (None, _) => Err(Unfit::TooFew),
        (Some(title), None | Some(0)) => popped_title(title),
        (Some(_), Some(_)) => Err(Unfit::OutOfRange),
    }
}

fn popped_title(title: u32) -> Result<Window, Unfit>
    ensures { result ≡ popped_title title }
{
    match title {
        0 => Ok(Window::PopIconAndWindowTitle),
        1 => Ok(Window::PopIconTitle),
        2 => Ok(Window::PopWindowTitle),
        _ => Err(Unfit::OutOfRange),
    }
}
