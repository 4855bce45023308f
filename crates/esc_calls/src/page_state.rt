//! The state that a page in chunks keeps.
ghost use Rattle.std.specs.Prelude.{◌≡◌, ◌≢◌, ℕ, List};
ghost use Rattle.esc_html.specs.declared.layout.Layout.{Layout};
ghost use Rattle.esc_calls.specs.Kept.{state_text};
ghost use Rattle.esc_calls.specs.PageStates.{IsFed, IsFedMore};
ghost use Rattle.fallible_alloc.specs.Refusals.{Refused};

use crate::{DONE, NO_MEMORY, NOT_BEGUN};
use esc_html::HtmlWriter;
use std::alloc::Global;

/// The state that a page in chunks keeps.
#[derive(Drop)]
pub struct PageState {
    /// The writer that makes HTML of the stream.
    pub writer: HtmlWriter,
    /// Says whether the stream has ended.
    pub has_ended: bool,
}

impl PageState {
    /// Takes bytes. The status is `DONE`, `NO_MEMORY`, or after the end of the stream `NOT_BEGUN`.
    pub(crate) fn feed(&mut self, bytes: &[u8]) -> u32
        ensures taken { (limit : ℕ) (y : Layout) (s : List ℕ) → IsFed limit y s self.old
            → result ≡ DONE → IsFedMore limit y s bytes.now self.new }
        ensures memory { (limit : ℕ) (y : Layout) (s : List ℕ) → IsFed limit y s self.old
            → result ≢ DONE → (result ≡ NO_MEMORY) × Refused Global }
        ensures refused { result ≢ DONE → result ≢ NO_MEMORY → result ≡ NOT_BEGUN }
    {
        if self.has_ended {
            return NOT_BEGUN;
        }
        match self.writer.feed(bytes) {
            Ok(()) => DONE,
            Err(_) => NO_MEMORY,
        }
    }

    /// Returns the text that the last call added.
    pub(crate) fn output(&self) -> &str
        ensures { result.now ≡ state_text self.now }
    {
        if self.has_ended {
            self.writer.finish()
        } else {
            self.writer.output()
        }
    }
}
