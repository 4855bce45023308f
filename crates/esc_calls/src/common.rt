//! The common parts of the calls that take a stream in chunks.
ghost use Rattle.std.specs.Prelude.{◌≡◌, ◌≢◌, IfSome, None, Some};
ghost use Rattle.esc_calls.specs.InChunks.{IsEnded, Stays, text_of};
ghost use Rattle.esc_calls.specs.Output.{Copies};
ghost use Rattle.fallible_alloc.specs.Refusals.{Refused};

use crate::in_chunks::InChunks;
use crate::kept::Kept;
use crate::output::put_from;
use crate::{DONE, NO_MEMORY};
use std::alloc::Global;

/// Ends a stream, and begins the next with this, in a block of its own. The status is `DONE` or
/// `NO_MEMORY`.
pub(crate) fn begin(alloc: Global, stream: &mut InChunks, kept: Kept) -> u32
    ensures begun { result ≡ DONE → stream.new.held.kept ≡ Some kept }
    ensures refused { result ≢ DONE → (result ≡ NO_MEMORY) × IsEnded stream.new × Refused Global }
{
    drop(stream.take(alloc));
    match boxed(alloc, kept) {
        Some(kept) => {
            *stream = InChunks::of(kept);
            DONE
        }
        None => NO_MEMORY,
    }
}

// Returns a value in a box. With none, a request for memory was refused. A value of any type is
// dropped then, so that no proof goes over the parts of each state.
fn boxed<T: Drop>(alloc: Global, value: T) -> Option<Box<T>>
    ensures boxed { IfSome result (λ boxed. boxed.value ≡ value) }
    ensures refused { result ≡ None → Refused Global }
{
    match fallible_alloc::boxed(alloc, value) {
        Ok(boxed) => Some(boxed),
        Err(_) => None,
    }
}

/// Copies the text that the last call added, from its byte `from` on, to the beginning of `out`,
/// as much as fits, and leaves the rest of `out` as it is. Returns how many bytes these are.
pub(crate) fn copy_output(
    alloc: Global,
    stream: &mut InChunks,
    from: usize,
    out: &mut [u8],
) -> usize
    ensures copied { Copies (text_of stream.old) from out.old out.new result }
    ensures kept { Stays stream.old stream.new }
{
    let Some(kept) = stream.take(alloc) else {
        return 0;
    };
    let count = put_from(kept.output().as_bytes(), from, out);
    *stream = InChunks::of(kept);
    count
}
