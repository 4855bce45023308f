//! The policy of a quiet log.
ghost use Rattle.std.specs.Prelude.{◌≡◌};
ghost use Rattle.esc_actions.specs.Values.{value_of};
ghost use Rattle.example_quiet_log.specs.Quiet.{is_loud, keeps};

use esc_actions::Action;
use esc_filter::Admit;
use esc_osc::OperatingSystemCommand;
use esc_sequences::{Esc, EscCode};
use std::alloc::Allocator;

/// Admits actions that set no title and show no notification.
#[derive(Clone, Copy)]
pub struct Quiet;

impl<A: Allocator> Admit<A> for Quiet {
    ghost admits = { λ _ v. keeps v };

    fn admits(&self, action: &Action<A>) -> bool {
        is_kept(action)
    }
}

// Returns whether this action stays in the log.
fn is_kept<A: Allocator>(action: &Action<A>) -> bool
    ensures { result ≡ keeps (value_of action.now) }
{
    match action {
        Action::Print(_) | Action::PrintString(_) | Action::Control(_) => true,
        Action::Esc(Esc::Code(EscCode::TmuxTitle | EscCode::StringTerminator)) => false,
        Action::Esc(_) | Action::CSI(_) => true,
        Action::OperatingSystemCommand(command) => !is_loud(command.as_ref()),
        Action::KittyImage(_) | Action::Sixel(_) | Action::XtGetTcap(_) => true,
        Action::DeviceControl(_) => false,
    }
}

// Returns whether the command sets a title or the name of an icon, or shows a notification.
fn is_loud<A: Allocator>(command: &OperatingSystemCommand<A>) -> bool
    ensures { result ≡ is_loud command.now }
{
    match command {
        OperatingSystemCommand::SetIconNameAndWindowTitle(_)
        | OperatingSystemCommand::SetWindowTitle(_)
        | OperatingSystemCommand::SetWindowTitleSun(_)
        | OperatingSystemCommand::SetIconName(_)
        | OperatingSystemCommand::SetIconNameSun(_)
        | OperatingSystemCommand::SystemNotification(_)
        | OperatingSystemCommand::RxvtExtension(_) => true,
        OperatingSystemCommand::SetHyperlink(_)
        | OperatingSystemCommand::ClearSelection(_)
        | OperatingSystemCommand::QuerySelection(_)
        | OperatingSystemCommand::SetSelection(_, _)
        | OperatingSystemCommand::ITermProprietary(_)
        | OperatingSystemCommand::FinalTermSemanticPrompt(_)
        | OperatingSystemCommand::ChangeColorNumber(_)
        | OperatingSystemCommand::ChangeDynamicColors(_, _)
        | OperatingSystemCommand::ResetDynamicColor(_)
        | OperatingSystemCommand::CurrentWorkingDirectory(_)
        | OperatingSystemCommand::ResetColors(_)
        | OperatingSystemCommand::ConEmuProgress(_)
        | OperatingSystemCommand::Unspecified(_) => false,
    }
}
