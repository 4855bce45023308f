//! Control functions by name.
ghost use Rattle.std.specs.Prelude.{◌≡◌};
ghost use Rattle.control_functions.specs.Controls.{control_of};
ghost use Rattle.esc_calls.specs.FunctionRows.{Says, SaysControl, SaysEscape, byte_of, escape_function_with, function_with};

use crate::function_row::{FunctionRow, note};
use control_functions::{C0, ControlFunction, EscapeFunction};

/// Does the work of `escape_stream_function` of `escape_c`.
pub fn function(
    private_prefix: u8,
    intermediate: u8,
    last: u8,
    count: usize,
    out: &mut FunctionRow,
) -> bool
    ensures { Says (function_with private_prefix intermediate count last) out.new result }
{
    let private_prefix = byte_of(private_prefix);
    match ControlFunction::of_parts(private_prefix, byte_of(intermediate), count, last) {
        Some(function) => {
            let (screen, answered) = (function.changes_screen(), function.is_answered());
            note(function.name(), function.words(), screen, answered, out);
            true
        }
        None => {
            note("", "", false, false, out);
            false
        }
    }
}

/// Does the work of `escape_stream_escape_function` of `escape_c`.
pub fn escape_function(intermediate: u8, last: u8, out: &mut FunctionRow) -> bool
    ensures { SaysEscape (escape_function_with intermediate last) out.new result }
{
    match EscapeFunction::of_bytes(byte_of(intermediate), last) {
        Some(function) => {
            let (screen, answered) = (function.changes_screen(), function.is_answered());
            note(function.name(), function.words(), screen, answered, out);
            true
        }
        None => {
            note("", "", false, false, out);
            false
        }
    }
}

/// Does the work of `escape_stream_control_function` of `escape_c`.
pub fn control_function(code: u8, out: &mut FunctionRow) -> bool
    ensures { SaysControl (control_of code) out.new result }
{
    match C0::of(code) {
        Some(control) => {
            let (screen, answered) = (control.changes_screen(), control.is_answered());
            note(control.name(), control.words(), screen, answered, out);
            true
        }
        None => {
            note("", "", false, false, out);
            false
        }
    }
}

// Returns the byte, if it is not 0.
pub(crate) fn byte_of(byte: u8) -> Option<u8>
    ensures { result ≡ byte_of byte }
{
    if byte == 0 { None } else { Some(byte) }
}
