//! This module appends the fields of semantic prompts. An error is that memory was refused.
ghost use Rattle.std.specs.Prelude.{◌≡◌, ◌++◌, OnOk, OnErr, pos};
ghost use Rattle.flat_values.specs.Fields.{with_fields};
ghost use Rattle.flat_values.specs.Prompts.{aid_fields, click_fields, click_number, kind_number, prompt_fields};
ghost use Rattle.fallible_alloc.specs.Refusals.{Refused};

use crate::field_name::FieldName;
use crate::fields::Fields;
use esc_prompts::{FinalTermClick, FinalTermPromptKind, FinalTermSemanticPrompt as Prompt};
use esc_values::Text;
use std::alloc::{AllocError, Global};

// Appends the fields of a prompt.
pub(crate) fn append_prompt(prompt: &Prompt, fields: &mut Fields) -> Result<(), AllocError>
    ensures ok { OnOk result (fields.new ≡ with_fields fields.old (prompt_fields prompt.now)) }
    ensures refused { OnErr result (Refused Global) }
{
    match prompt {
        Prompt::FreshLine
        | Prompt::MarkEndOfPromptAndStartOfInputUntilNextMarker
        | Prompt::MarkEndOfPromptAndStartOfInputUntilEndOfLine => Ok(()),
        Prompt::FreshLineAndStartPrompt { aid, cl }
        | Prompt::MarkEndOfCommandWithFreshLine { aid, cl } => append_keys(aid, *cl, fields),
        Prompt::StartPrompt(kind) => {
            fields.push_number(FieldName::PromptKind, kind_number(*kind))
        }
        Prompt::MarkEndOfInputAndStartOfOutput { aid } => append_aid(aid, fields),
        Prompt::CommandStatus { status, aid } => {
            fields.push_number(FieldName::Status, i64::from(*status))?;
            append_aid(aid, fields)
        }
    }
}

// Appends the keys that are there.
#[tactic(auto, using(crate::proofs::Tables::with_more))]
fn append_keys(
    aid: &Option<Text>,
    click: Option<FinalTermClick>,
    fields: &mut Fields,
) -> Result<(), AllocError>
    ensures ok { OnOk result
        (fields.new ≡ with_fields fields.old (aid_fields aid.now ++ click_fields click)) }
    ensures refused { OnErr result (Refused Global) }
{
    append_aid(aid, fields)?;
    match click {
        Some(click) => fields.push_number(FieldName::Click, click_number(click)),
        None => Ok(()),
    }
}

// Appends the name of the application, if it is given.
fn append_aid(aid: &Option<Text>, fields: &mut Fields) -> Result<(), AllocError>
    ensures ok { OnOk result (fields.new ≡ with_fields fields.old (aid_fields aid.now)) }
    ensures refused { OnErr result (Refused Global) }
{
    match aid {
        Some(aid) => fields.push_text(FieldName::Application, aid.as_bytes()),
        None => Ok(()),
    }
}

// Returns the number of the effect of a click.
fn click_number(click: FinalTermClick) -> i64
    ensures { result ≡ pos (click_number click) }
{
    match click {
        FinalTermClick::Line => 0,
        FinalTermClick::MultipleLine => 1,
        FinalTermClick::ConservativeVertical => 2,
        FinalTermClick::SmartVertical => 3,
    }
}

// Returns the number of a kind of prompt.
fn kind_number(kind: FinalTermPromptKind) -> i64
    ensures { result ≡ pos (kind_number kind) }
{
    match kind {
        FinalTermPromptKind::Initial => 0,
        FinalTermPromptKind::RightSide => 1,
        FinalTermPromptKind::Continuation => 2,
        FinalTermPromptKind::Secondary => 3,
    }
}
