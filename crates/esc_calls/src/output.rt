//! The bytes that go into a caller's buffer.
ghost use Rattle.std.specs.Prelude.{◌≡◌, IfErr, IfOk, OnErr};
ghost use Rattle.esc_calls.specs.Output.{Copies, Puts, put_into};
ghost use Rattle.esc_calls.specs.Written.{status_of};

use crate::refusal::Refusal;
use crate::{DONE, NO_MEMORY};
use esc_values::Text;
use flat_values::{FieldRow, Fields};
use std::alloc::AllocError;

/// Copies as many of these as fit to the beginning of the buffer, and leaves the rest of the buffer
/// as it is. Returns how many there are.
#[inline]
pub(crate) fn put<T: Copy>(items: &[T], out: &mut [T]) -> usize
    ensures { Puts items.now out.old out.new result }
{
    let needed = items.len();
    let fitting = needed.min(out.len());
    out[..fitting].copy_from_slice(&items[..fitting]);
    needed
}

/// Copies as much as fits of the text from its byte `from` on. Returns how many bytes these are.
pub(crate) fn put_from(text: &[u8], from: usize, out: &mut [u8]) -> usize
    ensures { Copies text.now from out.old out.new result }
{
    let rest = &text[from.min(text.len())..];
    put(rest, out).min(out.len())
}

/// Writes a text, as much of it as fits, and its length. If there is none it writes nothing, and
/// the status says why.
pub(crate) fn put_text(text: Result<Text, Refusal>, out: &mut [u8], needed: &mut usize) -> u32
    ensures written { IfOk text (λ t. (result ≡ DONE) × Puts t out.old out.new needed.new) }
    ensures refused { IfErr text (λ e. (result ≡ status_of e) × (out.new ≡ out.old)
        × (needed.new ≡ needed.old)) }
{
    match text {
        Ok(text) => {
            *needed = put(text.as_bytes(), out);
            DONE
        }
        Err(refusal) => refusal.status(),
    }
}

/// Writes the value that was read, and as many rows and as much of their texts as there is room
/// for. If memory was refused it writes nothing.
pub(crate) fn put_read<V: Copy>(
    read: Result<(V, Fields), AllocError>,
    value: &mut V,
    fields: &mut [FieldRow],
    out: &mut [u8],
) -> u32
    ensures written { IfOk read (λ r. (result ≡ DONE) × (value.new ≡ r.0)
        × (fields.new ≡ put_into r.1.0 fields.old) × (out.new ≡ put_into r.1.1 out.old)) }
    ensures refused { OnErr read ((result ≡ NO_MEMORY) × (value.new ≡ value.old)
        × (fields.new ≡ fields.old) × (out.new ≡ out.old)) }
{
    match read {
        Ok((read, table)) => {
            *value = read;
            put(table.rows(), fields);
            put(table.text(), out);
            DONE
        }
        Err(_) => NO_MEMORY,
    }
}
