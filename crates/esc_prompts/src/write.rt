//! This module writes semantic prompts.
ghost use Rattle.std.specs.Prelude.{Some, ◌++◌};
ghost use Rattle.std.specs.Fmt.{DisplaysOnOk};
ghost use Rattle.esc_prompts.specs.Prompts.{aid_text, click_text, prompt_text};
ghost use Rattle.esc_prompts.specs.declared.prompt.FinalTermSemanticPrompt.TheVariants as prompt;

use crate::click::FinalTermClick;
use crate::prompt::FinalTermSemanticPrompt;
use esc_values::Text;
use std::alloc::Allocator;
use std::fmt;
use std::fmt::Display;

/// Writes the text between `ESC ]` and the string terminator: the code 133, the letter, and after
/// it the keys that are there, each after a `;`. A status is written before the keys, and with an
/// `aid` also as the key `err`.
///
/// If it returns `Ok`, all of it was written.
impl<A: Allocator> fmt::Display for FinalTermSemanticPrompt<A> {
    ghost output = { λ p. Some (prompt_text p) };

    fn fmt<W: fmt::Write>(&self, f: &mut fmt::Formatter<W>) -> fmt::Result {
        match self {
            FinalTermSemanticPrompt::FreshLine => f.write_str("133;L"),
            FinalTermSemanticPrompt::FreshLineAndStartPrompt { aid, cl } => {
                write_keys("133;A", aid, *cl, f)
            }
            FinalTermSemanticPrompt::MarkEndOfCommandWithFreshLine { aid, cl } => {
                write_keys("133;N", aid, *cl, f)
            }
            FinalTermSemanticPrompt::StartPrompt(kind) => write!(f, "133;P;k={kind}"),
            FinalTermSemanticPrompt::MarkEndOfPromptAndStartOfInputUntilNextMarker => {
                f.write_str("133;B")
            }
            FinalTermSemanticPrompt::MarkEndOfPromptAndStartOfInputUntilEndOfLine => {
                f.write_str("133;I")
            }
            FinalTermSemanticPrompt::MarkEndOfInputAndStartOfOutput { aid } => {
                write_keys("133;C", aid, None, f)
            }
            FinalTermSemanticPrompt::CommandStatus { status, aid } => {
                write_status(*status, aid, f)
            }
        }
    }
}

// Writes `before`, and the keys that are there.
fn write_keys<W: fmt::Write, A: Allocator>(
    before: &str,
    aid: &Option<Text<A>>,
    cl: Option<FinalTermClick>,
    f: &mut fmt::Formatter<W>,
) -> fmt::Result
    ensures { DisplaysOnOk W.write_str_gives f.old result
        (Some (before.now ++ aid_text aid.now ++ click_text cl)) f.new }
{
    f.write_str(before)?;
    Aid(aid).fmt(f)?;
    Click(cl).fmt(f)
}

// Writes the end of a command with this status.
fn write_status<W: fmt::Write, A: Allocator>(
    status: i32,
    aid: &Option<Text<A>>,
    f: &mut fmt::Formatter<W>,
) -> fmt::Result
    ensures { DisplaysOnOk W.write_str_gives f.old result
        (Some (prompt_text {A = A} (prompt.CommandStatus status aid.now))) f.new }
{
    match aid {
        None => write!(f, "133;D;{status}"),
        Some(aid) => write!(f, "133;D;{status};err={status};aid={aid}"),
    }
}

// This is the key `aid` and its value, if there is one.
#[derive_where(Clone, Copy)]
struct Aid<'a, A: Allocator>(&'a Option<Text<A>>);

impl<A: Allocator> Display for Aid<'_, A> {
    ghost output = { λ a. Some (aid_text a.0.now) };

    fn fmt<W: fmt::Write>(&self, f: &mut fmt::Formatter<W>) -> fmt::Result {
        match self.0 {
            Some(aid) => write!(f, ";aid={aid}"),
            None => Ok(()),
        }
    }
}

// This is the key `cl` and its word, if there is one.
#[derive(Clone, Copy)]
struct Click(Option<FinalTermClick>);

impl Display for Click {
    ghost output = { λ c. Some (click_text c.0) };

    fn fmt<W: fmt::Write>(&self, f: &mut fmt::Formatter<W>) -> fmt::Result {
        match self.0 {
            Some(click) => write!(f, ";cl={click}"),
            None => Ok(()),
        }
    }
}
