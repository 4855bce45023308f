//! The text of a value.
ghost use Rattle.std.specs.Prelude.{◌≡◌, ◌++◌, IfErr, IfOk, IfSome, OnErr};
ghost use Rattle.std.specs.Global.{Global};
ghost use Rattle.esc_values.specs.Clear.{string_terminator};
ghost use Rattle.esc_calls.specs.declared.refusal.Refusal.TheVariants.{NoMemory};
ghost use Rattle.fallible_alloc.specs.Refusals.{Refused};

use crate::refusal::Refusal;
use esc_values::Text;
use std::alloc::{AllocError, Global};
use std::fmt::Display;

/// Returns the text that a value is displayed as.
#[inline]
pub(crate) fn display<T: Display>(alloc: Global, value: &T) -> Result<Text, AllocError>
    ensures text { IfSome (T.output value.now) (λ t. IfOk result (λ x. x ≡ t)) }
    ensures refused { OnErr result (Refused Global) }
{
    let mut text = Text::new(alloc);
    text.push_display(value)?;
    Ok(text)
}

/// Returns the text that a value is displayed as, and drops the value here: a caller of many
/// variants' value has no way to return that drops it.
pub(crate) fn displayed<T: Display + Drop>(alloc: Global, value: T) -> Result<Text, Refusal>
    ensures text { IfSome (T.output value) (λ t. IfOk result (λ x. x ≡ t)) }
    ensures refused { IfErr result (λ e. (e ≡ NoMemory) × Refused Global) }
{
    match display(alloc, &value) {
        Ok(text) => Ok(text),
        Err(_) => Err(Refusal::NoMemory),
    }
}

/// Returns a text with `ESC \` after it.
pub(crate) fn ended(text: Text) -> Result<Text, AllocError>
    ensures text { IfOk result (λ t. t ≡ text ++ string_terminator) }
    ensures refused { OnErr result (Refused Global) }
{
    let mut text = text;
    text.push_str("\x1b\\")?;
    Ok(text)
}
