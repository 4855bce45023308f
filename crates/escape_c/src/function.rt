//! Control functions by name.
ghost use Rattle.control_functions.specs.Controls.{control_of};
ghost use Rattle.esc_calls.specs.FunctionRows.{Says, SaysControl, SaysEscape, escape_function_with, function_with};

use esc_calls::function;
use esc_calls::function_row::FunctionRow;

/// Writes to `out` the row of the function of a control sequence, and returns whether it has a
/// name. If it has none, `out` is zeros.
///
/// The sequence has this private prefix and this intermediate, each 0 if there is none, and this
/// final byte; `count` is the number of its parameters and separators between them, which decides
/// between the two functions that each of the final bytes `T`, `s` and `u` has.
#[unsafe(no_mangle)]
pub extern "C" fn escape_stream_function(
    private_prefix: u8,
    intermediate: u8,
    last: u8,
    count: usize,
    out: &mut FunctionRow,
) -> bool
    ensures { Says (function_with private_prefix intermediate count last) out.new result }
{
    function::function(private_prefix, intermediate, last, count, out)
}

/// Does the same for an escape sequence with this intermediate, 0 if there is none, and this final
/// byte; for a C1 control the final byte is 40 less than its code (hexadecimal).
#[unsafe(no_mangle)]
pub extern "C" fn escape_stream_escape_function(
    intermediate: u8,
    last: u8,
    out: &mut FunctionRow,
) -> bool
    ensures { SaysEscape (escape_function_with intermediate last) out.new result }
{
    function::escape_function(intermediate, last, out)
}

/// Does the same for a C0 control, 00 to 1F (hexadecimal), or DEL, 7F.
#[unsafe(no_mangle)]
pub extern "C" fn escape_stream_control_function(code: u8, out: &mut FunctionRow) -> bool
    ensures { SaysControl (control_of code) out.new result }
{
    function::control_function(code, out)
}
