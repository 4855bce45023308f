//! This module writes commands.
ghost use Rattle.std.specs.Prelude.{Some};
ghost use Rattle.std.specs.Fmt.{DisplaysOnOk};
ghost use Rattle.esc_osc.specs.Commands.{command_text, inner_text};

use crate::command::OperatingSystemCommand;
use esc_osc_values::write_items::{
    write_content, write_dynamic, write_numbers, write_pairs, write_parts, write_progress,
    write_question, write_reset, write_selection, write_text, write_texts,
};
use std::alloc::Allocator;
use std::fmt;
use std::fmt::Display;

/// Writes `ESC ]`, the parts of the command with `;` between them, and the string terminator `ESC
/// \`. Bytes that are no UTF-8 are written as U+FFFD. If it returns `Ok`, all of it was written.
impl<A: Allocator> fmt::Display for OperatingSystemCommand<A> {
    ghost output = { λ c. Some (command_text c) };

    fn fmt<W: fmt::Write>(&self, f: &mut fmt::Formatter<W>) -> fmt::Result {
        f.write_str("\x1b]")?;
        write_inner(self, f)?;
        f.write_str("\x1b\\")
    }
}

// Writes the text between `ESC ]` and the string terminator.
fn write_inner<W: fmt::Write, A: Allocator>(
    command: &OperatingSystemCommand<A>,
    f: &mut fmt::Formatter<W>,
) -> fmt::Result
    ensures { DisplaysOnOk W.write_str_gives f.old result (Some (inner_text command.now)) f.new }
{
    match command {
        OperatingSystemCommand::SetIconNameAndWindowTitle(title) => write_text("0;", title, f),
        OperatingSystemCommand::SetWindowTitle(title) => write_text("2;", title, f),
        OperatingSystemCommand::SetWindowTitleSun(title) => write_text("l", title, f),
        OperatingSystemCommand::SetIconName(title) => write_text("1;", title, f),
        OperatingSystemCommand::SetIconNameSun(title) => write_text("L", title, f),
        OperatingSystemCommand::SetHyperlink(Some(link)) => link.fmt(f),
        OperatingSystemCommand::SetHyperlink(None) => f.write_str("8;;"),
        OperatingSystemCommand::ClearSelection(selection) => write_selection(selection, f),
        OperatingSystemCommand::QuerySelection(selection) => write_question(selection, f),
        OperatingSystemCommand::SetSelection(selection, content) => write_content(
            selection, content, f,
        ),
        OperatingSystemCommand::SystemNotification(text) => write_text("9;", text, f),
        OperatingSystemCommand::ITermProprietary(command) => command.fmt(f),
        OperatingSystemCommand::FinalTermSemanticPrompt(prompt) => prompt.fmt(f),
        OperatingSystemCommand::ChangeColorNumber(pairs) => write_pairs(pairs.as_slice(), f),
        OperatingSystemCommand::ChangeDynamicColors(number, colors) => write_dynamic(
            *number,
            colors.as_slice(),
            f,
        ),
        OperatingSystemCommand::ResetDynamicColor(number) => write_reset(*number, f),
        OperatingSystemCommand::CurrentWorkingDirectory(path) => write_text("7;", path, f),
        OperatingSystemCommand::ResetColors(numbers) => write_numbers(numbers.as_slice(), f),
        OperatingSystemCommand::RxvtExtension(texts) => write_texts(texts.as_slice(), f),
        OperatingSystemCommand::ConEmuProgress(progress) => write_progress(progress, f),
        OperatingSystemCommand::Unspecified(parts) => write_parts(parts.as_slice(), f),
    }
}
