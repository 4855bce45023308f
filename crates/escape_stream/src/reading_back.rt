//! The first action that the text of an action means.
ghost use Rattle.std.specs.Prelude.{◌≡◌, ◌∷◌, ◌++◌, ◌↔◌, [], false, true, IfOk, IfSome, IsTrue, OnErr, Some};
ghost use Rattle.std.specs.Option.{option_map};
ghost use Rattle.esc_actions.specs.Meaning.{meaning};
ghost use Rattle.esc_actions.specs.Texts.{has_text, text_after};
ghost use Rattle.esc_actions.specs.Values.{value_of};
ghost use Rattle.esc_actions.specs.Writable.{IsHandedOut, IsWritable};
ghost use Rattle.escape_stream.specs.Asked.{has_own_text};
ghost use Rattle.esc_parse.specs.Firsts.{first};
ghost use Rattle.esc_values.specs.Clear.{string_terminator};
ghost use Rattle.fallible_alloc.specs.Refusals.{Refused};

use esc_actions::exceptions::is_exception;
use esc_actions::{Action, laws};
use esc_equality::actions::same_action;
use esc_parse::Parser;
use esc_values::Text;
use esc_write::encoding::write_after;
use std::alloc::{AllocError, Allocator};

// Returns whether the action is the first that its own text means, and no exception: of all but
// strings of characters, bytes and ends of modes this says that it is writable. The error is that
// memory was refused.
#[tactic(auto, using(crate::proofs::NeverRead::not_exception))]
pub(crate) fn reads_back<A: Allocator + Copy>(
    alloc: A,
    action: &Action<A>,
) -> Result<bool, AllocError>
    ensures ok { has_own_text (value_of action.now) ≡ true
        → IfOk result (λ b. IsTrue b ↔ IsWritable (value_of action.now)) }
    ensures refused { OnErr result (Refused A) }
{
    if is_exception(action) {
        return Ok(false);
    }
    match first_meant(alloc, action) {
        Ok(Some(first)) => Ok(same_action(&first, action)),
        Ok(None) => Ok(false),
        Err(error) => Err(error),
    }
}

// Returns the first action that the text of this one means, with a string terminator after it; none
// if it has no text.
#[tactic(auto, using(crate::proofs::Backs::writable_has_text))]
fn first_meant<A: Allocator + Copy>(
    alloc: A,
    action: &Action<A>,
) -> Result<Option<Action<A>>, AllocError>
    ensures itself { has_own_text (value_of action.now) ≡ true → IsWritable (value_of action.now)
        → IfOk result (λ r. option_map value_of r ≡ Some (value_of action.now)) }
    ensures handed_out { IfOk result (λ r. IfSome r (λ a. IsHandedOut (value_of a))) }
    ensures refused { OnErr result (Refused A) }
{
    laws::reads_back::<A>();
    if !action.has_text() {
        return Ok(None);
    }
    match terminated(alloc, action) {
        Ok(text) => first_action(alloc, text.as_bytes()),
        Err(error) => Err(error),
    }
}

// Returns the text of the action with a string terminator after it.
fn terminated<A: Allocator>(alloc: A, action: &Action<A>) -> Result<Text<A>, AllocError>
    ensures ok { IfOk result (λ t. t
        ≡ text_after false (value_of action.now) ++ string_terminator) }
    ensures refused { has_text (value_of action.now) ≡ true → OnErr result (Refused A) }
{
    let mut text = Text::new(alloc);
    write_after(&mut text, false, action)?;
    text.push_str("\x1b\\")?;
    Ok(text)
}

// Returns the first action that these bytes mean.
fn first_action<A: Allocator + Copy>(
    alloc: A,
    bytes: &[u8],
) -> Result<Option<Action<A>>, AllocError>
    ensures meant { IfOk result (λ r. option_map value_of r ≡ first (meaning bytes.now)) }
    ensures handed_out { IfOk result (λ r. IfSome r (λ a. IsHandedOut (value_of a))) }
    ensures refused { OnErr result (Refused A) }
{
    let mut parser = Parser::new(alloc);
    match parser.parse_first(bytes) {
        Ok(Some((action, _))) => Ok(Some(action)),
        Ok(None) => Ok(None),
        Err(_) => Err(AllocError),
    }
}
