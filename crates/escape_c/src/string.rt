//! Control strings by name.
ghost use Rattle.string_commands.specs.Rows.{place_below, place_named};
ghost use Rattle.string_commands.specs.Strings.{place_of_application, place_of_command, place_of_device};
ghost use Rattle.esc_calls.specs.FunctionRows.{byte_of};
ghost use Rattle.esc_calls.specs.StringRows.{SaysString};

use esc_calls::string_name;
use esc_calls::string_row::StringRow;

/// Writes to `out` the row of the operating system command of this text, which lies between `ESC ]`
/// and its terminator, and returns whether it has a name. If it has none, `out` is zeros.
#[unsafe(no_mangle)]
pub extern "C" fn escape_stream_osc_function(text: &[u8], out: &mut StringRow) -> bool
    ensures { SaysString (place_of_command text.now) out.new result }
{
    string_name::osc_function(text, out)
}

/// Does the same for a device control string with this private prefix and this intermediate, each 0
/// if there is none, this final byte, these parameters and these data, whose beginning is enough.
#[unsafe(no_mangle)]
pub extern "C" fn escape_stream_dcs_function(
    private_prefix: u8,
    intermediate: u8,
    last: u8,
    params: &[i64],
    data: &[u8],
    out: &mut StringRow,
) -> bool
    ensures { SaysString (place_of_device (byte_of private_prefix) (byte_of intermediate) last
        params.now data.now) out.new result }
{
    string_name::dcs_function((private_prefix, intermediate), last, params, data, out)
}

/// Does the same for the application program command of this text, which lies between `ESC _` and
/// its terminator.
#[unsafe(no_mangle)]
pub extern "C" fn escape_stream_apc_function(text: &[u8], out: &mut StringRow) -> bool
    ensures { SaysString (place_of_application text.now) out.new result }
{
    string_name::apc_function(text, out)
}

/// Does the same for the row in this place, from 0 on.
#[unsafe(no_mangle)]
pub extern "C" fn escape_stream_string_row(row: usize, out: &mut StringRow) -> bool
    ensures { SaysString (place_below row) out.new result }
{
    string_name::string_row(row, out)
}

/// Does the same for the string of this name.
#[unsafe(no_mangle)]
pub extern "C" fn escape_stream_string_named(name: &[u8], out: &mut StringRow) -> bool
    ensures { SaysString (place_named name.now) out.new result }
{
    string_name::string_named(name, out)
}
