//! The text of the termcap query that fields say.
ghost use Rattle.esc_calls.specs.Output.{Writes};
ghost use Rattle.esc_calls.specs.WrittenQueries.{IsRefusal, IsText};

use esc_calls::write_tcap;
use flat_values::FieldRow;
use std::alloc::Global;

/// Writes the text of the termcap query for the names that these fields are to `out`: `ESC P + q`,
/// the names in hexadecimal and `ESC \`, as much of it as fits, and its length in bytes to
/// `needed`. The fields are as [`escape_stream_read_tcap`](crate::escape_stream_read_tcap) writes
/// them. Reading the text gives these fields.
///
/// `NO_COMMAND` says that no names have these fields, and `NOT_WRITABLE` that there is no name.
/// `NO_MEMORY` is the only other status.
#[unsafe(no_mangle)]
pub extern "C" fn escape_stream_write_tcap(
    alloc: Global,
    fields: &[FieldRow],
    text: &[u8],
    out: &mut [u8],
    needed: &mut usize,
) -> u32
    ensures { Writes (IsText (fields.now, text.now)) (IsRefusal (fields.now, text.now))
        result (out.old, needed.old) (out.new, needed.new) }
{
    write_tcap::write_tcap(alloc, fields, text, out, needed)
}
