//! The receivers of actions.
ghost use Rattle.std.specs.Prelude.{◌≡◌, ◌⊎◌, ◌≤◌, ◌+◌, ℕ, List, [], ◌∷◌, ◌++◌, IsTrue, MatchResult, OnOk, false, length, map, true, vec_capacity, vec_len};
ghost use Rattle.std.specs.List.{FoldsTo};
ghost use Rattle.std.specs.Str.{chars};
ghost use Rattle.esc_values.specs.Clear.{parts_of};
ghost use Rattle.esc_values.specs.declared.csi_param.CsiParam.{CsiParam};
ghost use Rattle.esc_sequences.specs.Csis.{CsiValue, csi_of};
ghost use Rattle.esc_frame.specs.Events.{MayGet};
ghost use Rattle.esc_frame.specs.Scans.{IsClearRun, IsRun, is_text_byte};
ghost use Rattle.esc_parse.specs.Collected.{Gathers};
ghost use Rattle.esc_parse.specs.Given.{By, MayReceiveBy, Receives, TakesAtOnce, first_of};
ghost use Rattle.esc_parse.specs.Images.{is_image};
ghost use Rattle.esc_actions.specs.Values.{csi, osc, value_of};
ghost use Rattle.esc_osc.specs.Reading.{meaning as command_meant};
ghost use Rattle.esc_actions.specs.declared.action.Action.TheVariants as action;
ghost use Rattle.fallible_alloc.specs.Refusals.{Refused};

use esc_actions::Action;
use esc_values::CsiParam;
use std::alloc::{AllocError, Allocator, Global};

/// The form that a sink takes characters in.
pub trait ActionShape {
    // the form of a character
    ghost print: { ℕ → Self };

    // it is this control sequence
    ghost is_sequence: { Self → CsiValue → Type 0 };

    // it is the command that these parts mean
    ghost is_command: { Self → List (List ℕ) → Type 0 };

    // it is an image
    ghost is_image: { Self → Type 0 };

    /// Returns the printed character in this form.
    fn print(c: char) -> Self
        ensures { result ≡ print c };
}

impl<A: Allocator> ActionShape for Action<A> {
    ghost use Rattle.esc_actions.specs.declared.action.Action.TheVariants.{Print};

    ghost print = { λ c. Print c };

    ghost is_sequence = { λ a c. value_of a ≡ csi c };

    ghost is_command = { λ a ps. value_of a ≡ osc (command_meant ps) };

    ghost is_image = { λ a. is_image (value_of a) ≡ true };

    fn print(c: char) -> Action<A> {
        Action::Print(c)
    }
}

/// Takes the actions of a stream, one after another: the receiver of
/// [`Parser::parse_into`](crate::parser::Parser::parse_into).
///
/// An implementation says how an action changes it (`takes`), which value a refused call leaves
/// (`refuses`), when it may be given any action (`is_ready`), and which actions it may be given
/// otherwise (`may`). After a call that returns `AllocError` no more calls are made.
pub trait Sink<T: ActionShape> {
    // any action may be given, and after each one any other
    ghost is_ready: { Self → Type 0 };

    // the next action may be this one
    ghost may: { Self → T → Type 0 };

    // the sink after an action
    ghost takes: { Self → T → Self → Type 0 };

    // the sink that a refused action may leave
    ghost refuses: { Self → T → Self → Type 0 };

    /// Takes an action.
    fn receive(&mut self, action: T) -> Result<(), AllocError>
        requires { is_ready self.old ⊎ may self.old action }
        ensures ready { is_ready self.old → OnOk result (is_ready self.new) }
        ensures given { MatchResult result (λ _. takes self.old action self.new)
            (λ _. refuses self.old action self.new) };

    /// Takes a run of text, never empty: characters 20 to 7F, one byte each. Its effect on the sink
    /// is the same as a `Print` of each, one after another. A sink that keeps text can take the run
    /// at once.
    #[inline]
    fn receive_text(&mut self, text: &[u8]) -> Result<(), AllocError>
        requires ready { MayGet is_ready may takes self.old (map T.print text.now) }
        requires run { IsRun is_text_byte text.now }
        ensures ready { is_ready self.old → OnOk result (is_ready self.new) }
        ensures given { Receives ⊥ takes refuses result self.old
            (map T.print text.now) self.new }
    {
        for b in text {
            match self.receive(T::print(*b as char)) {
                Ok(()) => {}
                Err(e) => return Err(e),
            }
        }
        Ok(())
    }

    /// Takes a run of characters as UTF-8, never empty: none is a control of C0 or C1. Its effect
    /// on the sink is the same as a `Print` of each, one after another. A sink that keeps text can
    /// take the run at once.
    #[inline]
    fn receive_str(&mut self, text: &str) -> Result<(), AllocError>
        requires ready { MayGet is_ready may takes self.old
            (map T.print (chars text.now)) }
        requires run { IsClearRun text.now }
        ensures ready { is_ready self.old → OnOk result (is_ready self.new) }
        ensures given { Receives ⊥ takes refuses result self.old
            (map T.print (chars text.now)) self.new }
    {
        for c in text.chars() {
            match self.receive(T::print(c)) {
                Ok(()) => {}
                Err(e) => return Err(e),
            }
        }
        Ok(())
    }

    /// Takes the actions of a control sequence at once, from its parameters, and returns whether it
    /// did: its effect on the sink is the same as receiving each. If it returns false it did
    /// nothing, and they are made and received; so it does by default.
    #[inline]
    fn receive_sequence(
        &mut self,
        _params: &[CsiParam],
        _parameters_truncated: bool,
        _control: u8,
    ) -> Result<bool, AllocError>
        requires { MayReceiveBy T.is_sequence is_ready may takes self.old
            (csi_of _params.now _parameters_truncated _control) }
        ensures ready { is_ready self.old → OnOk result (is_ready self.new) }
        ensures given { TakesAtOnce T.is_sequence takes refuses result self.old
            (csi_of _params.now _parameters_truncated _control) self.new }
    {
        Ok(false)
    }

    /// Does the same for an operating system command, from its text, whose parts are between `;`.
    #[inline]
    fn receive_command(&mut self, _text: &[u8]) -> Result<bool, AllocError>
        requires { MayReceiveBy T.is_command is_ready may takes self.old (parts_of _text.now ∷ []) }
        ensures ready { is_ready self.old → OnOk result (is_ready self.new) }
        ensures given { TakesAtOnce T.is_command takes refuses result self.old
            (parts_of _text.now ∷ []) self.new }
    {
        Ok(false)
    }

    /// Returns whether every control sequence with this final byte, whatever its parameters, would
    /// leave it as it is. If it returns true, as it does not by default, such a sequence is passed
    /// over: no action is made of it, and it is not given to
    /// [`receive_sequence`](Sink::receive_sequence). One with more parameters than are kept is
    /// still given.
    #[inline]
    fn drops_sequences(&self, _control: u8) -> bool
        ensures { IsTrue result → (es : List CsiParam) → FoldsTo (By T.is_sequence takes)
            self.now (csi_of es false _control) self.now }
    {
        false
    }

    /// Returns whether every image, of kitty's protocol or sixel, would leave it as it is. If it
    /// returns true, as it does not by default, none is made and received.
    #[inline]
    fn drops_images(&self) -> bool
        ensures { IsTrue result → (a : T) → T.is_image a → takes self.now a self.now }
    {
        false
    }
}

/// Calls a closure on each action. [`Parser::parse_into`](crate::parser::Parser::parse_into) hands
/// it back, if it returns no error, after exactly one call for each action, in order.
#[derive(Drop)]
pub struct Calls<F> {
    /// The closure.
    pub callback: F,
}

impl<T: ActionShape, F: FnMut(T)> Sink<T> for Calls<F> {
    ghost is_ready = { λ p. F.IsAlwaysCallable p.callback };

    ghost may = { λ p a. F.pre p.callback a };

    ghost takes = { λ p a q. F.step p.callback a tt q.callback };

    ghost refuses = { λ p a q. ⊥ };

    fn receive(&mut self, action: T) -> Result<(), AllocError> {
        (self.callback)(action);
        Ok(())
    }
}

/// Keeps the actions in a list.
#[derive(Drop)]
pub struct Collect<A: Allocator = Global> {
    /// The actions so far.
    pub actions: Vec<Action<A>, A>,
}

impl<A: Allocator> Collect<A> {
    /// Returns an empty list of actions. Takes no memory.
    pub fn new(alloc: A) -> Collect<A>
        ensures { result.actions.items ≡ [] }
    {
        Collect {
            actions: Vec::new(alloc),
        }
    }
}

impl<A: Allocator> Collect<A> {
    // Appends a `Print` of each of these characters, for which there is room.
    #[inline]
    fn push_text(&mut self, text: &[u8])
        requires { vec_len self.old.actions + length text.now ≤ vec_capacity self.old.actions }
        ensures { FoldsTo Gathers self.old (map action.Print text.now) self.new }
    {
        for b in text {
            self.actions.push_reserved(Action::Print(*b as char));
        }
    }
}

/// An action is refused if memory is: it is dropped, and those before it are kept.
impl<A: Allocator> Sink<Action<A>> for Collect<A> {
    ghost is_ready = { λ _. Unit {0} };

    ghost may = { λ _ _. Unit {0} };

    ghost takes = { λ p a q. q.actions.items ≡ p.actions.items ++ a ∷ [] };

    ghost refuses = { λ p a q. (q.actions.items ≡ p.actions.items) × Refused A };

    fn receive(&mut self, action: Action<A>) -> Result<(), AllocError> {
        fallible_alloc::push(&mut self.actions, action)?;
        Ok(())
    }

    #[inline]
    fn receive_text(&mut self, text: &[u8]) -> Result<(), AllocError> {
        fallible_alloc::reserve_for(&mut self.actions, text, 0)?;
        self.push_text(text);
        Ok(())
    }

    #[inline]
    fn receive_str(&mut self, text: &str) -> Result<(), AllocError> {
        for c in text.chars() {
            match self.receive(Action::Print(c)) {
                Ok(()) => {}
                Err(error) => return Err(error),
            }
        }
        Ok(())
    }

    // The next methods are as by default, and written out: at the type of an action, a method that
    // is taken over from the trait costs a proof some seconds more.
    #[inline]
    fn receive_sequence(
        &mut self,
        _params: &[CsiParam],
        _parameters_truncated: bool,
        _control: u8,
    ) -> Result<bool, AllocError> {
        Ok(false)
    }

    #[inline]
    fn receive_command(&mut self, _text: &[u8]) -> Result<bool, AllocError> {
        Ok(false)
    }

    #[inline]
    fn drops_sequences(&self, _control: u8) -> bool {
        false
    }

    #[inline]
    fn drops_images(&self) -> bool {
        false
    }
}

// Keeps the value if none is kept yet, and drops it otherwise.
#[inline]
fn keep_first<T: Drop>(first: &mut Option<T>, next: T)
    ensures { first.new ≡ first_of first.old next }
{
    if first.is_none() {
        *first = Some(next);
    }
}

/// Keeps the first action, and drops the others. It takes no memory.
#[derive(Drop)]
pub struct First<A: Allocator = Global> {
    /// The first action, once one came.
    pub action: Option<Action<A>>,
}

impl<A: Allocator> Sink<Action<A>> for First<A> {
    ghost is_ready = { λ _. Unit {0} };

    ghost may = { λ _ _. Unit {0} };

    ghost takes = { λ p a q. q.action ≡ first_of p.action a };

    ghost refuses = { λ p a q. ⊥ };

    fn receive(&mut self, action: Action<A>) -> Result<(), AllocError> {
        keep_first(&mut self.action, action);
        Ok(())
    }

    #[inline]
    fn receive_text(&mut self, text: &[u8]) -> Result<(), AllocError> {
        let [first, ..] = text else {
            return Ok(());
        };
        keep_first(&mut self.action, Action::Print(*first as char));
        Ok(())
    }

    #[inline]
    fn receive_str(&mut self, text: &str) -> Result<(), AllocError> {
        let Some(first) = text.chars().next() else {
            return Ok(());
        };
        keep_first(&mut self.action, Action::Print(first));
        Ok(())
    }

    // The next methods are as by default, and written out: at the type of an action, a method that
    // is taken over from the trait costs a proof some seconds more.
    #[inline]
    fn receive_sequence(
        &mut self,
        _params: &[CsiParam],
        _parameters_truncated: bool,
        _control: u8,
    ) -> Result<bool, AllocError> {
        Ok(false)
    }

    #[inline]
    fn receive_command(&mut self, _text: &[u8]) -> Result<bool, AllocError> {
        Ok(false)
    }

    #[inline]
    fn drops_sequences(&self, _control: u8) -> bool {
        false
    }

    #[inline]
    fn drops_images(&self) -> bool {
        false
    }
}
