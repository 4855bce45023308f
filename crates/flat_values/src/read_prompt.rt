//! This module reads prompts from rows. An error is that memory was refused.
ghost use Rattle.std.specs.Prelude.{◌≡◌, IfOk, OnErr};
ghost use Rattle.flat_values.specs.Found.{held_form};
ghost use Rattle.flat_values.specs.FoundPrompts.{click_in, click_of, keys_in, prompt_in, prompt_kind_of, prompted};
ghost use Rattle.fallible_alloc.specs.Refusals.{Refused};

use crate::field_name::FieldName;
use crate::kinds::PromptForm;
use crate::read_optional::{named, past, text};
use crate::said::{Said, after, first, signed};
use esc_prompts::{FinalTermClick, FinalTermPromptKind, FinalTermSemanticPrompt as Prompt};
use esc_values::Text;
use std::alloc::{AllocError, Global};

// Reads the prompt of a kind.
pub(crate) fn prompt(
    alloc: Global,
    kind: PromptForm,
    fields: &[Said<'_>],
) -> Result<Prompt, AllocError>
    ensures ok { IfOk result (λ p. p ≡ prompt_in held_form kind fields.now) }
    ensures refused { OnErr result (Refused Global) }
{
    let aid = text(alloc, FieldName::Application, keys(kind, fields))?;
    Ok(prompted(kind, aid, fields))
}

// Returns the rows of its keys.
fn keys<'b, 'a>(kind: PromptForm, fields: &'b [Said<'a>]) -> &'b [Said<'a>]
    ensures { result.now ≡ keys_in kind fields.now }
{
    match kind {
        PromptForm::CommandStatus => after(fields),
        _ => fields,
    }
}

// Reads the prompt of a kind, with the name of the application if it has one.
fn prompted(kind: PromptForm, aid: Option<Text>, fields: &[Said<'_>]) -> Prompt
    ensures { result ≡ prompted held_form kind aid fields.now }
{
    match kind {
        PromptForm::FreshLineAndStart => Prompt::FreshLineAndStartPrompt {
            aid,
            cl: click(past(FieldName::Application, fields)),
        },
        PromptForm::EndOfCommandWithFreshLine => Prompt::MarkEndOfCommandWithFreshLine {
            aid,
            cl: click(past(FieldName::Application, fields)),
        },
        PromptForm::Start => Prompt::StartPrompt(prompt_kind(first(fields).count())),
        PromptForm::StartOfOutput => Prompt::MarkEndOfInputAndStartOfOutput { aid },
        PromptForm::CommandStatus => Prompt::CommandStatus {
            status: signed(first(fields).number()),
            aid,
        },
    }
}

// Reads the effect of a click, if it is given.
fn click(fields: &[Said<'_>]) -> Option<FinalTermClick>
    ensures { result ≡ click_in fields.now }
{
    match named(FieldName::Click, fields) {
        Some(field) => Some(click_of(field.count())),
        None => None,
    }
}

// Returns the click of this number.
fn click_of(number: u64) -> FinalTermClick
    ensures { result ≡ click_of number }
{
    match number {
        0 => FinalTermClick::Line,
        1 => FinalTermClick::MultipleLine,
        2 => FinalTermClick::ConservativeVertical,
        _ => FinalTermClick::SmartVertical,
    }
}

// Returns the kind of prompt of this number.
fn prompt_kind(number: u64) -> FinalTermPromptKind
    ensures { result ≡ prompt_kind_of number }
{
    match number {
        0 => FinalTermPromptKind::Initial,
        1 => FinalTermPromptKind::RightSide,
        2 => FinalTermPromptKind::Continuation,
        _ => FinalTermPromptKind::Secondary,
    }
}
