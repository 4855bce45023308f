//! The text of the command that a kind and fields say.
ghost use Rattle.esc_calls.specs.Output.{Writes};
ghost use Rattle.esc_calls.specs.WrittenOscs.{IsRefusal, IsText};

use esc_calls::write_osc;
use flat_values::FieldRow;
use std::alloc::Global;

/// Writes the text of the operating system command of this kind, which has these fields, to `out`:
/// `ESC ]`, its parts and `ESC \`, as much of it as fits, and its length in bytes to `needed`. The
/// fields are as [`escape_stream_read_osc`](crate::escape_stream_read_osc) writes them: `text` has
/// their texts one after another, and a number without a meaning in a row is 0. Reading the text
/// gives this kind and these fields.
///
/// `NO_COMMAND` says that no command has this kind and these fields. `NOT_WRITABLE` says that the
/// text of the one that has them would not read back as it, as that of a title with a control.
/// `NO_MEMORY` is the only other status.
#[unsafe(no_mangle)]
pub extern "C" fn escape_stream_write_osc(
    alloc: Global,
    kind: u32,
    fields: &[FieldRow],
    text: &[u8],
    out: &mut [u8],
    needed: &mut usize,
) -> u32
    ensures { Writes (IsText kind (fields.now, text.now)) (IsRefusal kind (fields.now, text.now))
        result (out.old, needed.old) (out.new, needed.new) }
{
    write_osc::write_osc(alloc, kind, fields, text, out, needed)
}
