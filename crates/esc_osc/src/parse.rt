//! This module reads parts.
ghost use Rattle.std.specs.Prelude.{◌≡◌, IfOk, OnErr, Some, [], ◌∷◌, map, codes};
ghost use Rattle.std.specs.Option.{option_map};
ghost use Rattle.std.specs.Str.Lossy.{utf8_lossy};
ghost use Rattle.esc_links.specs.Hyperlinks.{link_of};
ghost use Rattle.esc_osc_values.specs.Colors.{colors_of};
ghost use Rattle.esc_osc_values.specs.Progresses.{progress_of};
ghost use Rattle.esc_iterm.specs.ITerms.{iterm_of};
ghost use Rattle.esc_prompts.specs.Prompts.{prompt_of};
ghost use Rattle.esc_osc.specs.Reading.{dynamic_command, fitting, meaning, named_command, notification, reading, selection_command};
ghost use Rattle.esc_osc_values.specs.Lists.{lone_text};
ghost use Rattle.esc_osc.specs.declared.command.OperatingSystemCommand.TheVariants as command;
ghost use Rattle.fallible_alloc.specs.Refusals.{Refused};

use crate::command::OperatingSystemCommand as Command;
use crate::text_form::TextForm;
use esc_iterm::ITermProprietary;
use esc_links::Hyperlink;
use esc_osc_values::code::OperatingSystemCommandCode as Code;
use esc_osc_values::dynamic_codes::{changed_by, reset_by};
use esc_osc_values::dynamic_color_number::DynamicColorNumber;
use esc_osc_values::read_code::code_in;
use esc_osc_values::read_items::{
    copied, read_colors, read_lone_text, read_numbers, read_pairs, read_texts, read_title,
    without_first,
};
use esc_osc_values::read_progress::read_progress;
use esc_osc_values::read_selection::read_selection;
use esc_prompts::FinalTermSemanticPrompt;
use esc_values::base64_text::read_base64_text;
use esc_values::{Error, Text};
use std::alloc::{AllocError, Allocator};
use std::str;

impl<A: Allocator + Copy> Command<A> {
    /// Returns the command that these parts mean: the one that the code in the first part names, if
    /// the other parts fit it, else `Unspecified` of the same parts. The error is that memory was
    /// refused.
    pub fn parse(alloc: A, parts: &[&[u8]]) -> Result<Command<A>, AllocError>
        ensures ok { IfOk result (λ c. c ≡ meaning (map (λ p. p.now) parts.now)) }
        ensures refused { OnErr result (Refused A) }
    {
        match read_fitting(alloc, parts)? {
            Some(command) => Ok(command),
            None => Ok(Command::Unspecified(copied(alloc, parts)?)),
        }
    }
}

// Returns the case that fits, if one does.
fn read_fitting<A: Allocator + Copy>(
    alloc: A,
    parts: &[&[u8]],
) -> Result<Option<Command<A>>, AllocError>
    ensures ok { IfOk result (λ c. c ≡ fitting (map (λ p. p.now) parts.now)) }
    ensures refused { OnErr result (Refused A) }
{
    let Some((first, args)) = parts.split_first() else {
        return Ok(None);
    };
    read_lossy(alloc, first, args)
}

// Reads the parts after the first by the code that the first names. A part that is UTF-8 is its own
// lossy text.
fn read_lossy<A: Allocator + Copy>(
    alloc: A,
    first: &[u8],
    args: &[&[u8]],
) -> Result<Option<Command<A>>, AllocError>
    ensures ok { IfOk result (λ c. c
        ≡ named_command (utf8_lossy first.now) (map (λ p. p.now) args.now)) }
    ensures refused { OnErr result (Refused A) }
{
    match str::from_utf8(first) {
        Ok(text) => read_named(alloc, text, args),
        Err(_) => {
            let text = fallible_alloc::lossy(alloc, first)?;
            read_named(alloc, text.as_str(), args)
        }
    }
}

// Reads the parts after the first by the code of this text.
fn read_named<A: Allocator + Copy>(
    alloc: A,
    first: &str,
    args: &[&[u8]],
) -> Result<Option<Command<A>>, AllocError>
    ensures ok { IfOk result (λ c. c ≡ named_command first.now (map (λ p. p.now) args.now)) }
    ensures refused { OnErr result (Refused A) }
{
    match code_in(first, args) {
        Some(code) => read_by_code(alloc, code, first, args),
        None => Ok(None),
    }
}

// Reads the lossy text of the first part and the parts after it, by the code.
fn read_by_code<A: Allocator + Copy>(
    alloc: A,
    code: Code,
    first: &str,
    args: &[&[u8]],
) -> Result<Option<Command<A>>, AllocError>
    ensures ok { IfOk result (λ c. c ≡ reading code first.now (map (λ p. p.now) args.now)) }
    ensures refused { OnErr result (Refused A) }
{
    match code {
        Code::SetIconNameAndWindowTitle => Ok(TextForm::IconNameAndWindowTitle.with(read_title(
            alloc, args,
        )?)),
        Code::SetIconName => Ok(TextForm::IconName.with(read_title(alloc, args)?)),
        Code::SetWindowTitle => Ok(TextForm::WindowTitle.with(read_title(alloc, args)?)),
        Code::ChangeColorNumber => match read_pairs(alloc, args)? {
            Some(p) => Ok(Some(Command::ChangeColorNumber(p))),
            None => Ok(None),
        },
        Code::SetCurrentWorkingDirectory => Ok(TextForm::CurrentWorkingDirectory.with(
            read_lone_text(alloc, args)?,
        )),
        Code::SetHyperlink => read_link(alloc, args),
        Code::SystemNotification => read_notified(alloc, args),
        Code::ManipulateSelectionData => read_selected(alloc, args),
        Code::ResetColors => match read_numbers(alloc, args)? {
            Some(n) => Ok(Some(Command::ResetColors(n))),
            None => Ok(None),
        },
        Code::FinalTermSemanticPrompt => read_prompt(alloc, args),
        Code::RxvtProprietary => Ok(Some(Command::RxvtExtension(read_texts(alloc, args)?))),
        Code::ITermProprietary => read_proprietary(alloc, args),
        Code::SetWindowTitleSun => Ok(TextForm::WindowTitleSun.with(without_first(alloc, first)?)),
        Code::SetIconNameSun => Ok(TextForm::IconNameSun.with(without_first(alloc, first)?)),
        Code::SetTextForegroundColor
        | Code::SetTextBackgroundColor
        | Code::SetTextCursorColor
        | Code::SetXWindowProperty
        | Code::ChangeSpecialColorNumber
        | Code::ChangeTitleTabColor
        | Code::SetMouseForegroundColor
        | Code::SetMouseBackgroundColor
        | Code::SetTektronixForegroundColor
        | Code::SetTektronixBackgroundColor
        | Code::SetHighlightBackgroundColor
        | Code::SetTektronixCursorColor
        | Code::SetHighlightForegroundColor
        | Code::SetLogFileName
        | Code::SetFont
        | Code::EmacsShell
        | Code::ResetSpecialColor
        | Code::ResetTextForegroundColor
        | Code::ResetTextBackgroundColor
        | Code::ResetTextCursorColor
        | Code::ResetMouseForegroundColor
        | Code::ResetMouseBackgroundColor
        | Code::ResetTektronixForegroundColor
        | Code::ResetTektronixBackgroundColor
        | Code::ResetHighlightColor
        | Code::ResetTektronixCursorColor
        | Code::ResetHighlightForegroundColor => read_dynamic(
            alloc,
            changed_by(code),
            reset_by(code),
            args,
        ),
    }
}

// Reads a mark of prompts and commands.
fn read_prompt<A: Allocator + Copy>(
    alloc: A,
    args: &[&[u8]],
) -> Result<Option<Command<A>>, AllocError>
    ensures ok { IfOk result
        (λ c. c ≡ option_map command.FinalTermSemanticPrompt
        (prompt_of (map (λ p. p.now) args.now))) }
    ensures refused { OnErr result (Refused A) }
{
    let read = FinalTermSemanticPrompt::parse(alloc, args)?;
    match read {
        Some(mark) => Ok(Some(Command::FinalTermSemanticPrompt(mark))),
        None => Ok(None),
    }
}

// Reads a command of iTerm2.
fn read_proprietary<A: Allocator + Copy>(
    alloc: A,
    args: &[&[u8]],
) -> Result<Option<Command<A>>, AllocError>
    ensures ok { IfOk result
        (λ c. c ≡ option_map command.ITermProprietary (iterm_of (map (λ p. p.now) args.now))) }
    ensures refused { OnErr result (Refused A) }
{
    let read = ITermProprietary::parse(alloc, args)?;
    match read {
        Some(command) => Ok(Some(Command::ITermProprietary(command))),
        None => Ok(None),
    }
}

// Reads a notification.
fn read_notification<A: Allocator + Copy>(
    alloc: A,
    args: &[&[u8]],
) -> Result<Option<Command<A>>, AllocError>
    ensures ok { IfOk result
        (λ c. c ≡ option_map command.SystemNotification (lone_text (map (λ p. p.now) args.now))) }
    ensures refused { OnErr result (Refused A) }
{
    Ok(TextForm::SystemNotification.with(read_lone_text(alloc, args)?))
}

// Reads the link after the code, if there is one.
fn read_link<A: Allocator + Copy>(
    alloc: A,
    args: &[&[u8]],
) -> Result<Option<Command<A>>, AllocError>
    ensures ok { IfOk result
        (λ c. c ≡ option_map command.SetHyperlink
        (link_of (codes "8" ∷ map (λ p. p.now) args.now))) }
    ensures refused { OnErr result (Refused A) }
{
    let [params, uri] = args else {
        return Ok(None);
    };
    match Hyperlink::parse(alloc, &[b"8".as_slice(), params, uri]) {
        Ok(link) => Ok(Some(Command::SetHyperlink(link))),
        Err(Error::Invalid) => Ok(None),
        Err(Error::Memory(error)) => Err(error),
    }
}

// Reads the progress of a task, else a notification.
fn read_notified<A: Allocator + Copy>(
    alloc: A,
    args: &[&[u8]],
) -> Result<Option<Command<A>>, AllocError>
    ensures ok { IfOk result
        (λ c. c ≡ notification (progress_of (map (λ p. p.now) args.now))
        (lone_text (map (λ p. p.now) args.now))) }
    ensures refused { OnErr result (Refused A) }
{
    match read_progress(args) {
        Some(progress) => Ok(Some(Command::ConEmuProgress(progress))),
        None => read_notification(alloc, args),
    }
}

// Reads changes of this dynamic colour and those after it.
fn read_changed<A: Allocator + Copy>(
    alloc: A,
    number: DynamicColorNumber,
    args: &[&[u8]],
) -> Result<Option<Command<A>>, AllocError>
    ensures ok { IfOk result
        (λ c. c ≡ option_map (command.ChangeDynamicColors number)
        (colors_of (map (λ p. p.now) args.now))) }
    ensures refused { OnErr result (Refused A) }
{
    match read_colors(alloc, args)? {
        Some(colors) => Ok(Some(Command::ChangeDynamicColors(number, colors))),
        None => Ok(None),
    }
}

// Reads a dynamic colour that is changed, else one that is reset.
fn read_dynamic<A: Allocator + Copy>(
    alloc: A,
    changed: Option<DynamicColorNumber>,
    reset: Option<DynamicColorNumber>,
    args: &[&[u8]],
) -> Result<Option<Command<A>>, AllocError>
    ensures ok { IfOk result (λ c. c ≡ dynamic_command changed reset (map (λ p. p.now) args.now)) }
    ensures refused { OnErr result (Refused A) }
{
    match changed {
        Some(number) => read_changed(alloc, number, args),
        None => match reset {
            Some(number) => Ok(Some(Command::ResetDynamicColor(number))),
            None => Ok(None),
        },
    }
}

// Reads a selection alone, with `?`, or with a text.
fn read_selected<A: Allocator + Copy>(
    alloc: A,
    args: &[&[u8]],
) -> Result<Option<Command<A>>, AllocError>
    ensures ok { IfOk result (λ c. c ≡ selection_command (map (λ p. p.now) args.now)) }
    ensures refused { OnErr result (Refused A) }
{
    match args {
        [] => Ok(None),
        [letters] => Ok(read_cleared(letters)),
        [letters, text] => read_content(alloc, letters, text),
        _ => Ok(None),
    }
}

// Reads a selection that is cleared.
fn read_cleared<A: Allocator>(letters: &[u8]) -> Option<Command<A>>
    ensures { result ≡ selection_command (letters.now ∷ []) }
{
    let Some(selection) = read_selection(letters) else {
        return None;
    };
    Some(Command::ClearSelection(selection))
}

// Reads a selection, with `?` or with a text.
fn read_content<A: Allocator + Copy>(
    alloc: A,
    letters: &[u8],
    text: &[u8],
) -> Result<Option<Command<A>>, AllocError>
    ensures ok { IfOk result (λ c. c ≡ selection_command (letters.now ∷ text.now ∷ [])) }
    ensures refused { OnErr result (Refused A) }
{
    let Some(selection) = read_selection(letters) else {
        return Ok(None);
    };
    if text == b"?".as_slice() {
        return Ok(Some(Command::QuerySelection(selection)));
    }
    match read_base64_text(alloc, text)? {
        Some(content) => Ok(Some(Command::SetSelection(selection, content))),
        None => Ok(None),
    }
}
