//! A sink that keeps actions, but of the data of a device control string its first byte alone.
#![tactic(auto)]

ghost use Rattle.std.specs.Prelude.{◌≡◌, ◌++◌, ◌∷◌, OnErr, OnOk, [], if◌then◌else◌};
ghost use Rattle.esc_actions.specs.Values.{value_of};
ghost use Rattle.esc_account.specs.Brief.{is_datum};
ghost use Rattle.esc_account.specs.Briefs.{Keeps};
ghost use Rattle.fallible_alloc.specs.Refusals.{Refused};

use esc_actions::Action;
use esc_device::DeviceControlMode;
use esc_parse::Sink;
use esc_values::CsiParam;
use std::alloc::{AllocError, Allocator, Global};

/// Keeps the actions that come, but of data the first byte alone, so that a long string takes no
/// more memory for its meaning.
#[derive(Drop)]
pub(crate) struct Brief<A: Allocator = Global> {
    pub actions: Vec<Action<A>, A>,
    // whether data came
    pub has_datum: bool,
}

impl<A: Allocator> Sink<Action<A>> for Brief<A> {
    ghost is_ready = { λ _. Unit {0} };

    ghost may = { λ _ _. Unit {0} };

    ghost takes = { λ p a q. Keeps p a q };

    ghost refuses = { λ _ _ _. Refused A };

    fn receive(&mut self, action: Action<A>) -> Result<(), AllocError> {
        let is_datum = is_datum(&action);
        let skips = self.has_datum && is_datum;
        self.has_datum = self.has_datum || is_datum;
        push_unless(skips, &mut self.actions, action)
    }

    // The next methods do as by default, and are written out: at the type of an action, a method
    // that is taken over from the trait costs a proof some seconds more.
    #[inline]
    fn receive_text(&mut self, text: &[u8]) -> Result<(), AllocError> {
        for b in text {
            match self.receive(Action::Print(*b as char)) {
                Ok(()) => {}
                Err(error) => return Err(error),
            }
        }
        Ok(())
    }

    #[inline]
    fn receive_str(&mut self, text: &str) -> Result<(), AllocError> {
        for c in text.chars() {
            match self.receive(Action::Print(c)) {
                Ok(()) => {}
                Err(error) => return Err(error),
            }
        }
        Ok(())
    }

    #[inline]
    fn receive_sequence(
        &mut self,
        _params: &[CsiParam],
        _parameters_truncated: bool,
        _control: u8,
    ) -> Result<bool, AllocError> {
        Ok(false)
    }

    #[inline]
    fn receive_command(&mut self, _text: &[u8]) -> Result<bool, AllocError> {
        Ok(false)
    }

    #[inline]
    fn drops_sequences(&self, _control: u8) -> bool {
        false
    }

    #[inline]
    fn drops_images(&self) -> bool {
        false
    }
}

// Appends a value, or if `skips` drops it. It has any type, so that no proof goes over the parts of
// an action.
fn push_unless<T: Drop, A: Allocator>(
    skips: bool,
    list: &mut Vec<T, A>,
    value: T,
) -> Result<(), AllocError>
    ensures pushed { OnOk result
        (list.new.items ≡ list.old.items ++ (if skips then [] else value ∷ [])) }
    ensures refused { OnErr result (Refused A) }
{
    if skips {
        return Ok(());
    }
    fallible_alloc::push(list, value)?;
    Ok(())
}

// Whether it is a byte of the data of a device control string.
fn is_datum<A: Allocator>(action: &Action<A>) -> bool
    ensures { result ≡ is_datum (value_of action.now) }
{
    matches!(action, Action::DeviceControl(DeviceControlMode::Data(_)))
}
