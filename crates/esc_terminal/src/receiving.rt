//! A terminal as a sink of actions.
ghost use Rattle.esc_terminal.specs.Fed.{Takes};
ghost use Rattle.fallible_alloc.specs.Refusals.{Refused};

use crate::state::State;
use esc_actions::Action;
use esc_parse::Sink;
use esc_sequences::csi::is_unspecified;
use esc_values::CsiParam;
use std::alloc::{AllocError, Allocator};

/// Each action has the effect of its value.
impl<A: Allocator + Copy> Sink<Action<A>> for State<A> {
    ghost is_ready = { λ _. Unit {0} };

    ghost may = { λ _ _. Unit {0} };

    ghost takes = { Takes };

    ghost refuses = { λ p a q. Refused A };

    fn receive(&mut self, action: Action<A>) -> Result<(), AllocError> {
        self.take(action)
    }

    #[inline]
    fn receive_text(&mut self, text: &[u8]) -> Result<(), AllocError> {
        self.print_all(text);
        Ok(())
    }

    #[inline]
    fn receive_str(&mut self, text: &str) -> Result<(), AllocError> {
        self.print_str(text);
        Ok(())
    }

    // Takes it from its parameters, where it is one value of them.
    fn receive_sequence(
        &mut self,
        params: &[CsiParam],
        parameters_truncated: bool,
        control: u8,
    ) -> Result<bool, AllocError> {
        if parameters_truncated || !is_unspecified(params, parameters_truncated, control) {
            return Ok(false);
        }
        self.take_sequence(params, control)?;
        Ok(true)
    }

    fn drops_images(&self) -> bool {
        true
    }

    // The next methods are as by default, and written out: at the type of an action, one that is
    // taken over from the trait costs a proof some seconds more.
    #[inline]
    fn receive_command(&mut self, _text: &[u8]) -> Result<bool, AllocError> {
        Ok(false)
    }

    #[inline]
    fn drops_sequences(&self, _control: u8) -> bool {
        false
    }
}
