//! This module keeps a string in memory, as far as a limit allows.
#![tactic(auto)]

ghost use Rattle.std.specs.Prelude.{ℕ, [], Option};
ghost use Rattle.esc_frame.specs.Machine.Keeps.{KeepsText};
ghost use Rattle.fallible_alloc.specs.Refusals.{Refused};

use crate::unfinished::count::fits;
use crate::unfinished::store::TextRoom;
use std::alloc::{AllocError, Allocator};

/// The buffer keeps the bytes of a string; none, and no memory, once there were more than the
/// limit.
#[derive(Drop)]
pub struct HeapBuffer<A: Allocator> {
    pub bytes: Vec<u8, A>,
    /// Says whether there were more than the limit.
    pub is_over: bool,
}

impl<A: Allocator> HeapBuffer<A> {
    /// Returns an empty buffer.
    pub fn new(alloc: A) -> Self
        ensures { (limit : Option ℕ) → KeepsText limit result [] }
    {
        HeapBuffer {
            bytes: Vec::new(alloc),
            is_over: false,
        }
    }
}

impl<A: Allocator> TextRoom for HeapBuffer<A> {
    ghost keeps = { λ limit kept t. KeepsText limit kept t };

    ghost may_fail = { λ _. Refused A };

    // The buffer keeps its memory.
    fn clear(&mut self) {
        self.bytes.clear();
        self.is_over = false;
    }

    #[inline(always)]
    fn is_new(&self) -> bool {
        !self.is_over && self.bytes.is_empty()
    }

    #[inline(always)]
    fn is_over(&self) -> bool {
        self.is_over
    }

    #[inline(always)]
    fn bytes(&self) -> &[u8] {
        &self.bytes
    }

    // Past the limit the buffer lets its bytes go, and its memory.
    #[inline]
    fn push(&mut self, limit: Option<usize>, text: &[u8]) -> Result<(), AllocError> {
        if self.is_over {
            return Ok(());
        }
        if fits(limit, self.bytes.len(), text.len()) {
            fallible_alloc::extend(&mut self.bytes, text)
        } else {
            self.is_over = true;
            self.bytes.clear();
            self.bytes.shrink_to_fit();
            Ok(())
        }
    }
}
