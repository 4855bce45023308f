//! Actions that borrow their text and parameters from the parser.
ghost use Rattle.std.specs.Prelude.{◌≡◌, ◌+◌, ◌≤◌, [], ◌∷◌, OnErr, OnOk, length, map, vec_capacity, vec_len};
ghost use Rattle.std.specs.Str.{chars};
ghost use Rattle.esc_actions.specs.Values.{print, value_of};
ghost use Rattle.escape_stream.specs.Borrowed.{HasGrown, values_of};
ghost use Rattle.fallible_alloc.specs.Refusals.{Refused};

use esc_actions::{Action, ControlCode};
use esc_parse::commands::command_in;
use esc_sequences::csi::as_it_came;
use esc_sequences::{CSI, Sgr};
use esc_values::{Boxed, CsiParam};
use std::alloc::{AllocError, Allocator};

/// Actions as [`parse_borrowed`](crate::parse_borrowed) hands them out. Text, parameters and
/// commands stay at their place in the parser, so that no memory is asked for; small actions come
/// by value.
#[derive(Drop, Debug)]
pub enum ActionRef<'a, T = Action> {
    /// A run of one or more characters without controls; each is a [`Print`](Action::Print).
    Text(&'a str),
    /// A character by itself: one [`Print`](Action::Print).
    Print(char),
    /// A control code: one [`Control`](Action::Control).
    Control(ControlCode),
    /// A rendition: one [`CSI::Sgr`](crate::csi::CSI::Sgr).
    Sgr(Sgr),
    /// A control sequence that has no name (ECMA-48, 5.4): one
    /// [`CSI::Unspecified`](crate::csi::CSI::Unspecified).
    Sequence {
        /// The parameters of its body.
        params: &'a [CsiParam],
        /// Says whether the body has more parameters, which are not kept.
        parameters_truncated: bool,
        /// The final byte, 40 to 7E (hexadecimal).
        control: u8,
    },
    /// The text of an operating system command (ECMA-48, 8.3.89), with `;` between its parts: one
    /// [`OperatingSystemCommand`](Action::OperatingSystemCommand).
    Command(&'a [u8]),
    /// Any other action.
    Owned(T),
}

impl<A: Allocator + Copy> ActionRef<'_, Action<A>> {
    /// Appends the actions that this means to a list. They are those that
    /// [`Parser::parse`](crate::Parser::parse) would have handed out.
    ///
    /// The error is that memory was refused; the list is as it was then.
    pub fn append_to(self, alloc: A, actions: &mut Vec<Action<A>, A>) -> Result<(), AllocError>
        ensures ok { OnOk result
            (HasGrown actions.old.items (values_of self.entry) actions.new.items) }
        ensures refused { OnErr result ((actions.new.items ≡ actions.old.items) × Refused A) }
    {
        match self {
            ActionRef::Text(text) => append_text(text, actions),
            ActionRef::Print(c) => append(Action::Print(c), actions),
            ActionRef::Control(code) => append(Action::Control(code), actions),
            ActionRef::Sgr(sgr) => append(Action::CSI(CSI::Sgr(sgr)), actions),
            ActionRef::Sequence {
                params,
                parameters_truncated,
                control,
            } => {
                let sequence = as_it_came(alloc, params, parameters_truncated, control)?;
                append(Action::CSI(sequence), actions)
            }
            ActionRef::Command(text) => {
                let command = Boxed::new(alloc, command_in(alloc, text)?)?;
                append(Action::OperatingSystemCommand(command), actions)
            }
            ActionRef::Owned(action) => append(action, actions),
        }
    }
}

// Appends an action.
#[tactic(auto, using(crate::proofs::Appended::has_grown))]
fn append<A: Allocator>(
    action: Action<A>,
    actions: &mut Vec<Action<A>, A>,
) -> Result<(), AllocError>
    ensures ok { OnOk result
        (HasGrown actions.old.items (value_of action ∷ []) actions.new.items) }
    ensures refused { OnErr result ((actions.new.items ≡ actions.old.items) × Refused A) }
{
    fallible_alloc::push(actions, action)?;
    Ok(())
}

// Appends a `Print` of each character, once there is room for all.
fn append_text<A: Allocator>(text: &str, actions: &mut Vec<Action<A>, A>) -> Result<(), AllocError>
    ensures ok { OnOk result
        (HasGrown actions.old.items (map print (chars text.now)) actions.new.items) }
    ensures refused { OnErr result ((actions.new.items ≡ actions.old.items) × Refused A) }
{
    fallible_alloc::reserve_for(actions, text.as_bytes(), 0)?;
    push_text(text, actions);
    Ok(())
}

// Appends a `Print` of each character, for which there is room.
fn push_text<A: Allocator>(text: &str, actions: &mut Vec<Action<A>, A>)
    requires { vec_len actions.old + length text.now ≤ vec_capacity actions.old }
    ensures { HasGrown actions.old.items (map print (chars text.now)) actions.new.items }
{
    for c in text.chars() {
        actions.push_reserved(Action::Print(c));
    }
}
