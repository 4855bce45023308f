//! The kept text of a string, in memory that was lent.
#![tactic(auto)]

ghost use Rattle.std.specs.Prelude.{◌≡◌, ◌≢◌, ◌≤◌, [], Option, Some, true, false, length};
ghost use Rattle.heapless_parser.specs.Texts.{KeepsBorrowed};

use crate::named::Named;
use esc_frame::unfinished::count::fits;
use esc_frame::unfinished::store::TextRoom;
use std::alloc::AllocError;
use std::marker::PhantomData;

/// The text at the beginning of memory that was lent. It refuses what has no room there.
#[derive(Drop)]
pub struct BorrowedText<'a, N: Named> {
    pub memory: &'a mut [u8],
    pub count: usize,
    /// Whether the string is past the limit.
    pub is_over: bool,
    pub of: PhantomData<N>,
    ghost same: { memory.ghost_name ≡ N.kept },
    ghost room: { length memory.now ≡ N.room },
    ghost fits: { count ≤ N.room },
}

impl<'a, N: Named> TextRoom for BorrowedText<'a, N> {
    ghost keeps = { λ limit k t. KeepsBorrowed limit k.is_over k.count k.memory.now t };

    // It asks for no memory, and if the limit is its room it never fails.
    ghost may_fail = { λ limit. limit ≢ Some N.room };

    #[inline]
    fn clear(&mut self) {
        self.count = 0;
        self.is_over = false;
    }

    #[inline]
    fn is_new(&self) -> bool {
        !self.is_over && self.count == 0
    }

    #[inline]
    fn is_over(&self) -> bool {
        self.is_over
    }

    #[inline]
    fn bytes(&self) -> &[u8] {
        if self.is_over {
            &[]
        } else {
            &self.memory[..self.count]
        }
    }

    #[inline]
    fn push(&mut self, limit: Option<usize>, text: &[u8]) -> Result<(), AllocError> {
        if self.is_over {
            return Ok(());
        }
        if !fits(limit, self.count, text.len()) {
            self.is_over = true;
            return Ok(());
        }
        if text.len() > self.memory.len() - self.count {
            return Err(AllocError);
        }
        let end = self.count + text.len();
        self.memory[self.count..end].copy_from_slice(text);
        self.count = end;
        Ok(())
    }
}
