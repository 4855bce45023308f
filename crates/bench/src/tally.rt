//! A count of actions.

ghost use Rattle.std.specs.Prelude.{⊤};

use crate::counted::Counted;
use esc_values::CsiParam;
use escape_stream::{Action, Sink};
use std::alloc::{AllocError, Allocator};

/// Counts the actions that it is given, and adds up their characters, so that no part of the work
/// can be left out.
#[derive(Clone, Copy)]
pub struct Tally {
    number: u64,
    total: u64,
}

impl Tally {
    /// Returns an empty tally.
    pub fn new() -> Tally {
        Tally {
            number: 0,
            total: 0,
        }
    }

    /// Counts one more action.
    #[inline]
    pub fn add<A: Allocator>(&mut self, action: Action<A>) {
        self.number = self.number.wrapping_add(1);
        match action {
            Action::Print(c) => self.total = self.total.wrapping_add(c as u64),
            other => let_go(other),
        }
    }

    /// Returns the counts.
    pub fn counted(&self) -> Counted {
        Counted::Actions(self.number, self.total)
    }
}

impl<A: Allocator> Sink<Action<A>> for Tally {
    ghost is_ready = { λ _. ⊤ };

    ghost may = { λ _ _. ⊤ };

    ghost takes = { λ _ _ _. ⊤ };

    ghost refuses = { λ _ _ _. ⊤ };

    #[inline]
    fn receive(&mut self, action: Action<A>) -> Result<(), AllocError> {
        self.add(action);
        Ok(())
    }

    // The next methods are as by default, and written out: at the type of an action, a method that
    // is taken over from the trait costs a proof some seconds more.
    #[inline]
    fn receive_sequence(
        &mut self,
        _params: &[CsiParam],
        _parameters_truncated: bool,
        _control: u8,
    ) -> Result<bool, AllocError> {
        Ok(false)
    }

    #[inline]
    fn receive_command(&mut self, _text: &[u8]) -> Result<bool, AllocError> {
        Ok(false)
    }

    #[inline]
    fn drops_sequences(&self, _control: u8) -> bool {
        false
    }

    #[inline]
    fn drops_images(&self) -> bool {
        false
    }
}

/// Lets go of an action, apart from the code that counts characters.
#[inline(never)]
pub(crate) fn let_go<A: Allocator>(_action: Action<A>) {}
