//! This module defines operating system commands
//! (<https://invisible-island.net/xterm/ctlseqs/ctlseqs.html>).
ghost use Rattle.std.specs.Prelude.{◌≡◌, IfSome, is_none};
ghost use Rattle.esc_osc.specs.Commands.{code_under, inner_text, is_unspecified, IsUnder};

use esc_iterm::ITermProprietary;
use esc_links::Hyperlink;
use esc_osc_values::change_color_pair::ChangeColorPair;
use esc_osc_values::code::OperatingSystemCommandCode;
use esc_osc_values::color_or_query::ColorOrQuery;
use esc_osc_values::dynamic_codes::{change_code, reset_code};
use esc_osc_values::dynamic_color_number::DynamicColorNumber;
use esc_osc_values::progress::Progress;
use esc_osc_values::selection::Selection;
use esc_prompts::FinalTermSemanticPrompt;
use esc_values::{Items, Text};
use std::alloc::{Allocator, Global};

/// An operating system command is a control string between `ESC ]` and a string terminator, whose
/// parts have `;` between them (xterm's list of control sequences, "Operating System Commands").
#[derive(Drop)]
#[derive_where(Debug, PartialEq)]
pub enum OperatingSystemCommand<A: Allocator = Global> {
    /// Code 0: sets the name of the icon and the title of the window. The title may hold `;`.
    SetIconNameAndWindowTitle(Text<A>),
    /// Code 2: sets the title of the window. The title may hold `;`.
    SetWindowTitle(Text<A>),
    /// Code `l`: sets the title of the window, as Sun's terminals do it.
    SetWindowTitleSun(Text<A>),
    /// Code 1: sets the name of the icon. The name may hold `;`.
    SetIconName(Text<A>),
    /// Code `L`: sets the name of the icon, as Sun's terminals do it.
    SetIconNameSun(Text<A>),
    /// Code 8: says that the text printed next belongs to this link, or to none.
    SetHyperlink(Option<Hyperlink<A>>),
    /// Code 52 with a selection alone: clears it.
    ClearSelection(Selection),
    /// Code 52 with a selection and `?`: asks for its text.
    QuerySelection(Selection),
    /// Code 52 with a selection and a text in base64: sets it.
    SetSelection(Selection, Text<A>),
    /// Code 9: shows a notification.
    SystemNotification(Text<A>),
    /// Code 1337: a command of iTerm2.
    ITermProprietary(ITermProprietary<A>),
    /// Code 133: marks a beginning or an end of a shell's prompts, commands and their output.
    FinalTermSemanticPrompt(FinalTermSemanticPrompt<A>),
    /// Code 4: changes colours of the palette, or asks for them.
    ChangeColorNumber(Items<ChangeColorPair, A>),
    /// Codes 10 to 19: changes this dynamic colour and those after it, or asks for them, one a
    /// colour.
    ChangeDynamicColors(DynamicColorNumber, Items<ColorOrQuery, A>),
    /// Codes 110 to 119: resets a dynamic colour.
    ResetDynamicColor(DynamicColorNumber),
    /// Code 7: names the directory that the shell works in.
    CurrentWorkingDirectory(Text<A>),
    /// Code 104: resets these colours of the palette; all of them if none is named.
    ResetColors(Items<u8, A>),
    /// Code 777: is an extension of rxvt, as its parts.
    RxvtExtension(Items<Text<A>, A>),
    /// Code 9 with `4`: shows the progress of a task, as ConEmu does it.
    ConEmuProgress(Progress),
    /// Is any other command, as its parts.
    Unspecified(Items<Items<u8, A>, A>),
}

impl<A: Allocator> OperatingSystemCommand<A> {
    /// Returns the code that its text is written under; none for `Unspecified`, whose parts may
    /// have any.
    pub fn code(&self) -> Option<OperatingSystemCommandCode>
        ensures under { IfSome result (λ c. IsUnder c (inner_text self.now)) }
        ensures none { is_none result ≡ is_unspecified self.now }
    {
        code_under(self)
    }
}

// Returns the code under which a command is written.
fn code_under<A: Allocator>(
    command: &OperatingSystemCommand<A>,
) -> Option<OperatingSystemCommandCode>
    ensures code { result ≡ code_under command.now }
    ensures none { is_none result ≡ is_unspecified command.now }
{
    let code = match command {
        OperatingSystemCommand::SetIconNameAndWindowTitle(_) =>
            OperatingSystemCommandCode::SetIconNameAndWindowTitle,
        OperatingSystemCommand::SetWindowTitle(_) => OperatingSystemCommandCode::SetWindowTitle,
        OperatingSystemCommand::SetWindowTitleSun(_) =>
            OperatingSystemCommandCode::SetWindowTitleSun,
        OperatingSystemCommand::SetIconName(_) => OperatingSystemCommandCode::SetIconName,
        OperatingSystemCommand::SetIconNameSun(_) => OperatingSystemCommandCode::SetIconNameSun,
        OperatingSystemCommand::SetHyperlink(_) => OperatingSystemCommandCode::SetHyperlink,
        OperatingSystemCommand::ClearSelection(_)
        | OperatingSystemCommand::QuerySelection(_)
        | OperatingSystemCommand::SetSelection(_, _) =>
            OperatingSystemCommandCode::ManipulateSelectionData,
        OperatingSystemCommand::SystemNotification(_) | OperatingSystemCommand::ConEmuProgress(_) =>
            OperatingSystemCommandCode::SystemNotification,
        OperatingSystemCommand::ITermProprietary(_) => OperatingSystemCommandCode::ITermProprietary,
        OperatingSystemCommand::FinalTermSemanticPrompt(_) =>
            OperatingSystemCommandCode::FinalTermSemanticPrompt,
        OperatingSystemCommand::ChangeColorNumber(_) =>
            OperatingSystemCommandCode::ChangeColorNumber,
        OperatingSystemCommand::ChangeDynamicColors(number, _) => change_code(*number),
        OperatingSystemCommand::ResetDynamicColor(number) => reset_code(*number),
        OperatingSystemCommand::CurrentWorkingDirectory(_) =>
            OperatingSystemCommandCode::SetCurrentWorkingDirectory,
        OperatingSystemCommand::ResetColors(_) => OperatingSystemCommandCode::ResetColors,
        OperatingSystemCommand::RxvtExtension(_) => OperatingSystemCommandCode::RxvtProprietary,
        OperatingSystemCommand::Unspecified(_) => return None,
    };
    Some(code)
}
