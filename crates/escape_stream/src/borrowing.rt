//! The receivers of the borrowed actions of a stream.
ghost use Rattle.std.specs.Prelude.{◌⊎◌, MatchResult, OnOk};
ghost use Rattle.escape_stream.specs.Borrowed.{HasClearText};

use crate::borrowed::ActionRef;
use std::alloc::AllocError;

/// Takes the borrowed actions of a stream, one after another: the receiver of
/// [`parse_borrowed_into`](crate::parse_borrowed_into).
///
/// An implementation says how a borrowed action changes its value (`takes`), which value a refused
/// call leaves (`refuses`), when it may be given any action (`is_ready`), and which actions it may
/// be given otherwise (`may`). After a call that returns `AllocError` no more calls are made. `T`
/// is the type of actions, as [`Action`](crate::Action).
pub trait BorrowingSink<T> {
    ghost use Rattle.escape_stream.specs.declared.borrowed.ActionRef.{ActionRef};

    // any borrowed action may be given, and after each one any other
    ghost is_ready: { Self → Type 0 };

    // the next may be this one
    ghost may: { Self → ActionRef T → Type 0 };

    // the value after a borrowed action
    ghost takes: { Self → ActionRef T → Self → Type 0 };

    // the value that a refused action may leave
    ghost refuses: { Self → ActionRef T → Self → Type 0 };

    /// Takes a borrowed action; a text is never empty, and none of its characters is a control of
    /// C0 or C1.
    fn receive(&mut self, action: ActionRef<'_, T>) -> Result<(), AllocError>
        requires ready { is_ready self.old ⊎ may self.old action }
        requires text { HasClearText action }
        ensures ready { is_ready self.old → OnOk result (is_ready self.new) }
        ensures given { MatchResult result (λ _. takes self.old action.entry self.new)
            (λ _. refuses self.old action.entry self.new) };
}

/// Calls a closure on each borrowed action.
/// [`parse_borrowed_into`](crate::parse_borrowed_into) hands it back.
#[derive(Drop)]
pub struct BorrowingCalls<F> {
    /// The closure.
    pub callback: F,
}

impl<T, F: FnMut(ActionRef<'_, T>)> BorrowingSink<T> for BorrowingCalls<F> {
    ghost is_ready = { λ p. F.IsAlwaysCallable p.callback };

    ghost may = { λ p a. F.pre p.callback a };

    ghost takes = { λ p a q. F.step p.callback a tt q.callback };

    ghost refuses = { λ p a q. ⊥ };

    #[inline]
    fn receive(&mut self, action: ActionRef<'_, T>) -> Result<(), AllocError>
        requires ready { F.IsAlwaysCallable self.old.callback ⊎ F.pre self.old.callback action }
        requires text { HasClearText action }
        ensures ready { F.IsAlwaysCallable self.old.callback
            → OnOk result (F.IsAlwaysCallable self.new.callback) }
        ensures given { MatchResult result
            (λ _. F.step self.old.callback action.entry tt self.new.callback) (λ _. ⊥) }
    {
        (self.callback)(action);
        Ok(())
    }
}
