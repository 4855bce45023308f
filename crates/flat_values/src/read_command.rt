//! This module reads a command from rows. An error is that memory was refused.
ghost use Rattle.std.specs.Prelude.{◌≡◌, IfOk, OnErr};
ghost use Rattle.flat_values.specs.Found.{channel_of, first, held_form};
ghost use Rattle.flat_values.specs.FoundCommands.{bared, command_in, other_in, texted};
ghost use Rattle.fallible_alloc.specs.Refusals.{Refused};

use crate::kinds::{BareKind, Form, OtherKind, TextKind};
use crate::read_colors::{colored_items, dynamic, progress};
use crate::read_iterm::iterm;
use crate::read_link::link;
use crate::read_lists::items;
use crate::read_prompt::prompt;
use crate::said::{Said, after, first};
use esc_iterm::ITermProprietary as ITerm;
use esc_osc::OperatingSystemCommand as Command;
use esc_osc_values::Selection;
use esc_prompts::FinalTermSemanticPrompt as Prompt;
use esc_values::Text;
use std::alloc::{AllocError, Global};

// Reads the command of a kind.
pub(crate) fn command(alloc: Global, form: Form, fields: &[Said<'_>]) -> Result<Command, AllocError>
    ensures ok { IfOk result (λ c. c ≡ command_in held_form form fields.now) }
    ensures refused { OnErr result (Refused Global) }
{
    match form {
        Form::Bare(kind) => Ok(bare(kind)),
        Form::Text(kind) => {
            let text = first(fields).string(alloc)?;
            Ok(texted(kind, text))
        }
        Form::Prompt(kind) => { Ok(Command::FinalTermSemanticPrompt(prompt(alloc, kind, fields)?)) }
        Form::ITerm(kind) => Ok(Command::ITermProprietary(iterm(alloc, kind, fields)?)),
        Form::Other(kind) => other(alloc, kind, fields),
    }
}

// Returns the command of a kind that has nothing.
fn bare(kind: BareKind) -> Command
    ensures { result ≡ bared kind }
{
    match kind {
        BareKind::PromptFreshLine => Command::FinalTermSemanticPrompt(Prompt::FreshLine),
        BareKind::PromptInputUntilNextMarker => Command::FinalTermSemanticPrompt(
            Prompt::MarkEndOfPromptAndStartOfInputUntilNextMarker,
        ),
        BareKind::PromptInputUntilEndOfLine => Command::FinalTermSemanticPrompt(
            Prompt::MarkEndOfPromptAndStartOfInputUntilEndOfLine,
        ),
        BareKind::ITermSetMark => Command::ITermProprietary(ITerm::SetMark),
        BareKind::ITermStealFocus => Command::ITermProprietary(ITerm::StealFocus),
        BareKind::ITermClearScrollback => Command::ITermProprietary(ITerm::ClearScrollback),
        BareKind::ITermEndCopy => Command::ITermProprietary(ITerm::EndCopy),
        BareKind::ITermRequestCellSize => Command::ITermProprietary(ITerm::RequestCellSize),
    }
}

// Returns the command of a kind that has one text.
fn texted(kind: TextKind, text: Text) -> Command
    ensures { result ≡ texted kind text }
{
    match kind {
        TextKind::IconNameAndWindowTitle => Command::SetIconNameAndWindowTitle(text),
        TextKind::WindowTitle => Command::SetWindowTitle(text),
        TextKind::WindowTitleSun => Command::SetWindowTitleSun(text),
        TextKind::IconName => Command::SetIconName(text),
        TextKind::IconNameSun => Command::SetIconNameSun(text),
        TextKind::Notification => Command::SystemNotification(text),
        TextKind::WorkingDirectory => Command::CurrentWorkingDirectory(text),
        TextKind::ITermCurrentDir => Command::ITermProprietary(ITerm::CurrentDir(text)),
        TextKind::ITermSetProfile => Command::ITermProprietary(ITerm::SetProfile(text)),
        TextKind::ITermCopyToClipboard => Command::ITermProprietary(ITerm::CopyToClipboard(text)),
        TextKind::ITermCopy => Command::ITermProprietary(ITerm::Copy(text)),
        TextKind::ITermReportVariable => Command::ITermProprietary(ITerm::ReportVariable(text)),
        TextKind::ITermSetBadgeFormat => Command::ITermProprietary(ITerm::SetBadgeFormat(text)),
    }
}

// Reads the command of any other kind that is no prompt and none of iTerm2.
fn other(alloc: Global, kind: OtherKind, fields: &[Said<'_>]) -> Result<Command, AllocError>
    ensures ok { IfOk result (λ c. c ≡ other_in held_form kind fields.now) }
    ensures refused { OnErr result (Refused Global) }
{
    match kind {
        OtherKind::Unspecified => Ok(Command::Unspecified(items(alloc, fields)?)),
        OtherKind::Hyperlink => Ok(Command::SetHyperlink(link(alloc, fields)?)),
        OtherKind::ClearSelection => Ok(Command::ClearSelection(selection(fields))),
        OtherKind::QuerySelection => Ok(Command::QuerySelection(selection(fields))),
        OtherKind::SetSelection => selected(alloc, fields),
        OtherKind::ColorNumber => Ok(Command::ChangeColorNumber(colored_items(alloc, fields)?)),
        OtherKind::DynamicColors => dynamic_colors(alloc, fields),
        OtherKind::ResetDynamicColor => Ok(Command::ResetDynamicColor(dynamic(&first(fields)))),
        OtherKind::ResetColors => Ok(Command::ResetColors(items(alloc, fields)?)),
        OtherKind::Rxvt => Ok(Command::RxvtExtension(items(alloc, fields)?)),
        OtherKind::Progress => Ok(Command::ConEmuProgress(progress(fields))),
    }
}

// Reads the selections.
fn selection(fields: &[Said<'_>]) -> Selection
    ensures { result ≡ record { 0 = channel_of held_form (first fields.now) } }
{
    Selection::from_bits_retain(first(fields).channel())
}

// Reads the selections, and their text.
fn selected(alloc: Global, fields: &[Said<'_>]) -> Result<Command, AllocError>
    ensures ok { IfOk result (λ c. c ≡ other_in held_form OtherKind.SetSelection fields.now) }
    ensures refused { OnErr result (Refused Global) }
{
    let text = first(after(fields)).string(alloc)?;
    Ok(Command::SetSelection(selection(fields), text))
}

// Reads a dynamic colour, and colours for it and those after it.
fn dynamic_colors(alloc: Global, fields: &[Said<'_>]) -> Result<Command, AllocError>
    ensures ok { IfOk result (λ c. c ≡ other_in held_form OtherKind.DynamicColors fields.now) }
    ensures refused { OnErr result (Refused Global) }
{
    let colors = colored_items(alloc, after(fields))?;
    Ok(Command::ChangeDynamicColors(dynamic(&first(fields)), colors))
}
