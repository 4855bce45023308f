//! The normal form of a stream.
ghost use Rattle.std.specs.Prelude.{◌≡◌};
ghost use Rattle.esc_actions.specs.Meaning.{meaning};
ghost use Rattle.esc_actions.specs.Texts.{list_text};
ghost use Rattle.esc_calls.specs.Output.{LacksMemory, Writes};

use crate::output::put;
use crate::{DONE, NO_MEMORY};
use esc_normal::normal_text;
use std::alloc::Global;

/// Does the work of `escape_stream_normal` of `escape_c`.
pub fn normal(alloc: Global, bytes: &[u8], out: &mut [u8], needed: &mut usize) -> u32
    ensures { Writes (λ t. t ≡ list_text (meaning {A = Global} bytes.now)) LacksMemory result
        (out.old, needed.old) (out.new, needed.new) }
{
    match normal_text(alloc, bytes, None) {
        Ok(text) => {
            *needed = put(text.as_bytes(), out);
            DONE
        }
        Err(_) => NO_MEMORY,
    }
}
