//! The text of the kitty image that a kind and fields say.
ghost use Rattle.esc_calls.specs.Output.{Writes};
ghost use Rattle.esc_calls.specs.WrittenImages.{IsRefusal, IsText};

use esc_calls::write_kitty;
use flat_values::FieldRow;
use std::alloc::Global;

/// Writes the text of the command of kitty's graphics protocol of this kind, which has these
/// fields, to `out`: `ESC _`, its keys and its payload and `ESC \`, as much of it as fits, and its
/// length in bytes to `needed`. The fields are as
/// [`escape_stream_read_kitty`](crate::escape_stream_read_kitty) writes them. Reading the text
/// gives this kind and these fields.
///
/// `NO_COMMAND` says that no command has this kind and these fields. `NOT_WRITABLE` says that the
/// text of the one that has them would not read back as it, as that of pixels that are not in
/// base64. `NO_MEMORY` is the only other status.
#[unsafe(no_mangle)]
pub extern "C" fn escape_stream_write_kitty(
    alloc: Global,
    kind: u32,
    fields: &[FieldRow],
    text: &[u8],
    out: &mut [u8],
    needed: &mut usize,
) -> u32
    ensures { Writes (IsText kind (fields.now, text.now)) (IsRefusal kind (fields.now, text.now))
        result (out.old, needed.old) (out.new, needed.new) }
{
    write_kitty::write_kitty(alloc, kind, fields, text, out, needed)
}
