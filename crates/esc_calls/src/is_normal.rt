//! This module says whether a stream is in normal form.
ghost use Rattle.std.specs.Prelude.{◌≡◌, ◌≢◌, ◌↔◌, ℕ, IsTrue, List, true};
ghost use Rattle.esc_actions.specs.Meaning.{meaning};
ghost use Rattle.esc_actions.specs.Texts.{list_text};
ghost use Rattle.esc_actions.specs.Writable.{AreWritable};
ghost use Rattle.fallible_alloc.specs.Refusals.{Refused};

use crate::{DONE, NO_MEMORY};
use esc_actions::laws;
use esc_normal::normal_text;
use std::alloc::Global;

/// Does the work of `escape_stream_is_normal` of `escape_c`.
pub fn is_normal(alloc: Global, bytes: &[u8], answer: &mut bool) -> u32
    ensures equal { result ≡ DONE
        → (IsTrue answer.new ↔ (list_text (meaning {A = Global} bytes.now) ≡ bytes.now)) }
    ensures normalised { (t : List ℕ) → AreWritable {A = Global} (meaning t)
        → bytes.now ≡ list_text (meaning {A = Global} t) → result ≡ DONE → answer.new ≡ true }
    ensures refused { result ≢ DONE → (result ≡ NO_MEMORY) × (answer.new ≡ answer.old) }
    ensures memory { result ≡ NO_MEMORY → Refused Global }
{
    laws::normal_once::<Global>();
    match normal_text(alloc, bytes, None) {
        Ok(text) => {
            *answer = text.as_bytes() == bytes;
            DONE
        }
        Err(_) => NO_MEMORY,
    }
}
