//! Filters, as filters of streams in chunks.
ghost use Rattle.std.specs.Prelude.{◌≡◌, ℕ, Bool, Some, false};
ghost use Rattle.esc_filter.specs.Fed.{HasConsumedIn, added_by, policy_of};
ghost use Rattle.esc_filter.specs.Lines.{HasConsumedLines, added_by as added_by_lines, closed_by_lines_as, policy_of_lines, text_by_lines_as};
ghost use Rattle.esc_filter.specs.Openings.{resumed_closed, resumed_text};
ghost use Rattle.esc_filter.specs.Resumed.{ResumedHasConsumed, added_by as added_by_resuming, policy_of_resuming};
ghost use Rattle.esc_filter.specs.Passing.{closed_text_as, passed_text_as};
ghost use Rattle.esc_filter.specs.declared.guard.Guard.{Guard};

use crate::admit::Admit;
use crate::filter::Filter;
use crate::line_filter::LineFilter;
use crate::resuming::ResumingFilter;
use esc_normal::StreamFilter;
use std::alloc::{AllocError, Allocator};

impl<P: Admit<A>, A: Allocator + Copy> StreamFilter<A> for Filter<P, A> {
    ghost gives = { λ f m c s. (u : Guard) × (limit : ℕ)
        × HasConsumedIn u false limit (P.admits (policy_of f)) s f
        × (m ≡ passed_text_as {A = A} u (Some limit) (P.admits (policy_of f)))
        × (c ≡ closed_text_as {A = A} u (Some limit) (P.admits (policy_of f))) };

    ghost added = { λ f. added_by f };

    ghost has_ended = { λ _ _ _. Unit {0} };

    fn feed(&mut self, bytes: &[u8]) -> Result<(), AllocError> {
        match self.feed(bytes) {
            Ok(()) => Ok(()),
            Err(_) => Err(AllocError),
        }
    }

    fn finish(&mut self) -> Result<(), AllocError> {
        self.finish()
    }

    fn output(&self) -> &str {
        self.output()
    }
}

impl<P: Admit<A>, A: Allocator + Copy> StreamFilter<A> for LineFilter<P, A> {
    ghost gives = { λ f m c s. (u : Guard) × (limit : ℕ)
        × HasConsumedLines u limit (P.admits (policy_of_lines f)) s f
        × (m ≡ text_by_lines_as {A = A} u limit (P.admits (policy_of_lines f)))
        × (c ≡ closed_by_lines_as {A = A} u limit (P.admits (policy_of_lines f))) };

    ghost added = { λ f. added_by_lines f };

    ghost has_ended = { λ _ _ _. Unit {0} };

    fn feed(&mut self, bytes: &[u8]) -> Result<(), AllocError> {
        match self.feed(bytes) {
            Ok(()) => Ok(()),
            Err(_) => Err(AllocError),
        }
    }

    fn finish(&mut self) -> Result<(), AllocError> {
        match self.finish() {
            Ok(()) => Ok(()),
            Err(_) => Err(AllocError),
        }
    }

    fn output(&self) -> &str {
        self.output()
    }
}

impl<P: Admit<A>, A: Allocator + Copy> StreamFilter<A> for ResumingFilter<P, A> {
    ghost gives = { λ f m c s. (k : Bool) × (u : Guard) × (limit : ℕ)
        × ResumedHasConsumed k u limit (P.admits (policy_of_resuming f)) s f
        × (m ≡ resumed_text {A = A} k u limit (P.admits (policy_of_resuming f)))
        × (c ≡ resumed_closed {A = A} k u limit (P.admits (policy_of_resuming f))) };

    ghost added = { λ f. added_by_resuming f };

    ghost has_ended = { λ _ _ _. Unit {0} };

    fn feed(&mut self, bytes: &[u8]) -> Result<(), AllocError> {
        match self.feed(bytes) {
            Ok(()) => Ok(()),
            Err(_) => Err(AllocError),
        }
    }

    fn finish(&mut self) -> Result<(), AllocError> {
        match self.finish() {
            Ok(()) => Ok(()),
            Err(_) => Err(AllocError),
        }
    }

    fn output(&self) -> &str {
        self.output()
    }
}
