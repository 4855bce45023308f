//! Control strings by name.
ghost use Rattle.string_commands.specs.Rows.{place_below, place_named};
ghost use Rattle.string_commands.specs.Strings.{place_of_application, place_of_command, place_of_device};
ghost use Rattle.esc_calls.specs.FunctionRows.{byte_of};
ghost use Rattle.esc_calls.specs.StringRows.{SaysString};

use crate::function::byte_of;
use crate::string_row::{StringRow, note};
use string_commands::{application, command, device, named, row_at};

/// Does the work of `escape_stream_osc_function` of `escape_c`.
pub fn osc_function(text: &[u8], out: &mut StringRow) -> bool
    ensures { SaysString (place_of_command text.now) out.new result }
{
    note(command(text), out)
}

/// Does the work of `escape_stream_dcs_function` of `escape_c`.
pub fn dcs_function(
    marks: (u8, u8),
    last: u8,
    params: &[i64],
    data: &[u8],
    out: &mut StringRow,
) -> bool
    ensures { SaysString
        (place_of_device (byte_of marks.0) (byte_of marks.1) last params.now data.now)
        out.new result }
{
    let (prefix, intermediate) = marks;
    note(
        device((byte_of(prefix), byte_of(intermediate)), last, params, data),
        out,
    )
}

/// Does the work of `escape_stream_apc_function` of `escape_c`.
pub fn apc_function(text: &[u8], out: &mut StringRow) -> bool
    ensures { SaysString (place_of_application text.now) out.new result }
{
    note(application(text), out)
}

/// Does the work of `escape_stream_string_row` of `escape_c`.
pub fn string_row(row: usize, out: &mut StringRow) -> bool
    ensures { SaysString (place_below row) out.new result }
{
    note(row_at(row), out)
}

/// Does the work of `escape_stream_string_named` of `escape_c`.
pub fn string_named(name: &[u8], out: &mut StringRow) -> bool
    ensures { SaysString (place_named name.now) out.new result }
{
    note(named(name), out)
}
