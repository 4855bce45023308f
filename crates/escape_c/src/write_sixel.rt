//! The text of the sixel image that a value and rows say.
ghost use Rattle.esc_calls.specs.Output.{Writes};
ghost use Rattle.esc_calls.specs.WrittenSixels.{IsRefusal, IsText};

use esc_calls::sixel_value::SixelValue;
use esc_calls::write_sixel;
use flat_values::SixelRow;
use std::alloc::Global;

/// Writes the text of the sixel image that has this value and these rows to `out`: `ESC P`,
/// parameters, `q`, data and `ESC \`, as much of it as fits, and its length in bytes to `needed`.
/// The value and the rows are as [`escape_stream_read_sixel`](crate::escape_stream_read_sixel)
/// writes them, but for the `width`, the `height` and the `item_count`, which follow from the rest
/// and are not looked at. Reading the text gives this value and these rows.
///
/// `NO_COMMAND` says that no image has this value and these rows. `NOT_WRITABLE` says that the text
/// of the one that has them would not read back as it, as that of one with a channel of a colour
/// that no percentage is read as. `NO_MEMORY` is the only other status.
#[unsafe(no_mangle)]
pub extern "C" fn escape_stream_write_sixel(
    alloc: Global,
    value: &SixelValue,
    rows: &[SixelRow],
    out: &mut [u8],
    needed: &mut usize,
) -> u32
    ensures { Writes (IsText value.now rows.now) (IsRefusal value.now rows.now)
        result (out.old, needed.old) (out.new, needed.new) }
{
    write_sixel::write_sixel(alloc, value, rows, out, needed)
}
