//! The rows that may be written again, by the options of a sanitizer.
ghost use Rattle.std.specs.Prelude.{◌≡◌, IfErr, IfOk};
ghost use Rattle.esc_calls.specs.SanitizerOptions.{IsFault, SaysWindow, columns_numbered, window_numbered};

use crate::fault::Fault;
use crate::sanitizer_options::{MOST_COLUMNS, MOST_ROWS, SanitizerOptions};
use esc_filter::Unicode;
use line_collapse::{COLUMNS, Window};

/// Returns the screen whose final rows are written, if rows may be written again; this is the way
/// for characters that deceive. Its text is counted only for an account.
pub(crate) fn window_said(
    options: &SanitizerOptions,
    characters: Unicode,
) -> Result<Option<Window>, Fault>
    ensures said { IfOk result (SaysWindow options.now characters) }
    ensures fault { IfErr result (IsFault options.now) }
{
    if options.rows > MOST_ROWS {
        return Err(Fault::Rows);
    }
    if options.columns > MOST_COLUMNS {
        return Err(Fault::Columns);
    }
    let counts = options.account != 0;
    Ok(window_of(options.rows, options.columns, characters, counts))
}

// Does the same, if the numbers are not too large. If `counts`, its text is counted.
fn window_of(rows: u32, columns: u32, characters: Unicode, counts: bool) -> Option<Window>
    ensures { result ≡ window_numbered rows columns characters counts }
{
    if rows == 0 {
        None
    } else {
        Some(Window {
            counts,
            ..Window::new(rows as usize, columns_of(columns), characters)
        })
    }
}

// Returns how many columns a number says; by 0 as many as is usual.
fn columns_of(number: u32) -> usize
    ensures { result ≡ columns_numbered number }
{
    if number == 0 {
        COLUMNS
    } else {
        number as usize
    }
}
