//! The receiver of the actions that pass.
ghost use Rattle.std.specs.Prelude.{◌≡◌, false, MatchResult, OnErr, OnOk};
ghost use Rattle.esc_values.specs.Clear.{parts_of};
ghost use Rattle.esc_actions.specs.Values.{control};
ghost use Rattle.esc_actions.specs.declared.action.Action.TheVariants as action;
ghost use Rattle.esc_filter.specs.Fed.{MayTakeCommand, MayTakeSequence, Refuses, Takes, TakesBy};
ghost use Rattle.esc_filter.specs.Known.{ArePassedLinks, ArePassedRenditions};
ghost use Rattle.fallible_alloc.specs.Refusals.{Refused};

use crate::admit::{Admit, passes};
use crate::policy::{has_other_code, is_layout};
use crate::written::Written;
use esc_actions::{Action, ControlCode};
use esc_parse::Sink;
use esc_sequences::Esc;
use esc_values::CsiParam;
use std::alloc::{AllocError, Allocator, Global};

/// Appends the text of each action that passes, and drops the others.
#[derive(Drop)]
pub(crate) struct Passing<'p, P, A: Allocator = Global> {
    /// The writer of those that pass.
    pub written: Written<A>,
    /// The policy that admits them.
    pub policy: &'p P,
}

impl<'p, P: Admit<A>, A: Allocator> Passing<'p, P, A> {
    // Takes a control, which can be written by itself. No action is moved, so it costs less than
    // any other.
    #[inline(never)]
    fn receive_control(&mut self, code: ControlCode) -> Result<(), AllocError>
        ensures ok { OnOk result (Takes (P.admits self.old.policy.now) self.old.written
            (action.Control code) self.new.written × (self.new.policy.now ≡ self.old.policy.now)) }
        ensures refused { OnErr result (Refused A) }
    {
        if !self.admits_control(code) {
            self.policy.leaves_out(&Action::Control(code));
            return Ok(());
        }
        if self.written.drops_control(code) {
            self.policy.leaves_out(&Action::Control(code));
            return Ok(());
        }
        self.written.append_control(code)
    }

    // Returns whether the policy admits a control; most of them lay out text.
    #[inline]
    fn admits_control(&self, code: ControlCode) -> bool
        ensures { result ≡ P.admits self.now.policy.now (control code) }
    {
        if is_layout(code.as_char()) && self.policy.known().text {
            return true;
        }
        self.policy.admits(&Action::Control(code))
    }

    // Takes an escape sequence.
    #[inline]
    fn receive_escape(&mut self, esc: Esc) -> Result<(), AllocError>
        ensures { MatchResult result
            (λ _. Takes (P.admits self.old.policy.now) self.old.written (action.Esc esc)
            self.new.written × (self.new.policy.now ≡ self.old.policy.now))
            (λ _. Refuses self.old (action.Esc esc) self.new) }
    {
        if self.policy.known().no_escapes {
            return Ok(());
        }
        self.receive_any(Action::Esc(esc))
    }

    // Takes any action.
    fn receive_any(&mut self, action: Action<A>) -> Result<(), AllocError>
        ensures { MatchResult result
            (λ _. Takes (P.admits self.old.policy.now) self.old.written action self.new.written
            × (self.new.policy.now ≡ self.old.policy.now))
            (λ _. Refuses self.old action self.new) }
    {
        if !passes(self.policy, &action) {
            self.policy.leaves_out(&action);
            return Ok(());
        }
        if self.written.drops(&action) {
            self.policy.leaves_out(&action);
            return Ok(());
        }
        self.written.receive(action)
    }
}

// Control sequences and commands. One that passes is appended from its parameters or its text if
// possible, and one that does not is passed over; neither is made. If nothing is known of it,
// nothing is done, and it returns false.
impl<'p, P: Admit<A>, A: Allocator> Passing<'p, P, A> {
    // Takes a control sequence that ends in `m`, if all renditions pass.
    #[inline]
    fn take_rendition(&mut self, params: &[CsiParam]) -> Result<bool, AllocError>
        requires { ArePassedRenditions (P.admits self.old.policy.now) }
        ensures { MayTakeSequence P.admits self.old params.now 0x6d result self.new }
    {
        if self.written.append_rendition(params)? {
            return Ok(true);
        }
        self.ask_sequence(params, b'm')
    }

    // Asks the policy of a control sequence.
    #[inline(never)]
    fn ask_sequence(&mut self, params: &[CsiParam], control: u8) -> Result<bool, AllocError>
        ensures { MayTakeSequence P.admits self.old params.now control result self.new }
    {
        match self.policy.admits_sequence(params, control) {
            Some(true) => self.written.receive_sequence(params, false, control),
            Some(false) => Ok(true),
            None => Ok(false),
        }
    }

    // Takes a command, if all links pass.
    #[inline]
    fn take_link(&mut self, text: &[u8]) -> Result<bool, AllocError>
        requires { ArePassedLinks (P.admits self.old.policy.now) }
        ensures { MayTakeCommand P.admits self.old (parts_of text.now) result self.new }
    {
        if self.written.append_link(text)? {
            return Ok(true);
        }
        self.ask_command(text)
    }

    // Asks the policy of a command.
    #[inline(never)]
    fn ask_command(&mut self, text: &[u8]) -> Result<bool, AllocError>
        ensures { MayTakeCommand P.admits self.old (parts_of text.now) result self.new }
    {
        match self.policy.admits_command(text) {
            Some(true) => self.written.receive_command(text),
            Some(false) => Ok(true),
            None => Ok(false),
        }
    }
}

impl<'p, P: Admit<A>, A: Allocator> Sink<Action<A>> for Passing<'p, P, A> {
    ghost is_ready = { λ _. Unit {0} };

    ghost may = { λ _ _. Unit {0} };

    ghost takes = { TakesBy P.admits };

    ghost refuses = { Refuses };

    #[inline(always)]
    fn receive(&mut self, action: Action<A>) -> Result<(), AllocError> {
        match action {
            Action::Control(code) => self.receive_control(code),
            Action::Esc(esc) => self.receive_escape(esc),
            other => self.receive_any(other),
        }
    }

    #[inline]
    fn receive_text(&mut self, text: &[u8]) -> Result<(), AllocError> {
        if self.policy.admits_text(text) {
            return self.written.receive_text(text);
        }
        for byte in text {
            match self.receive(Action::Print(*byte as char)) {
                Ok(()) => {}
                Err(error) => return Err(error),
            }
        }
        Ok(())
    }

    #[inline]
    fn receive_str(&mut self, text: &str) -> Result<(), AllocError> {
        if self.policy.admits_str(text) && self.written.keeps(text) {
            return self.written.append_str(text);
        }
        for c in text.chars() {
            match self.receive(Action::Print(c)) {
                Ok(()) => {}
                Err(error) => return Err(error),
            }
        }
        Ok(())
    }

    #[inline]
    fn receive_sequence(
        &mut self,
        params: &[CsiParam],
        parameters_truncated: bool,
        control: u8,
    ) -> Result<bool, AllocError> {
        if parameters_truncated {
            return Ok(false);
        }
        if control == b'm' && self.policy.known().renditions {
            return self.take_rendition(params);
        }
        self.ask_sequence(params, control)
    }

    #[inline]
    fn receive_command(&mut self, text: &[u8]) -> Result<bool, AllocError> {
        let known = self.policy.known();
        if has_other_code(text) {
            if known.no_commands {
                return Ok(true);
            }
        } else if known.links {
            return self.take_link(text);
        }
        self.ask_command(text)
    }

    #[inline]
    fn drops_sequences(&self, control: u8) -> bool {
        control != b'm' && self.policy.known().no_functions
    }

    #[tactic(auto, using(crate::proofs::Admission::ImagesDoNotPass::passed_over))]
    #[inline]
    fn drops_images(&self) -> bool {
        !self.policy.admits_images()
    }
}
