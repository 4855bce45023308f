//! This module defines the commands that are a code and one text.
ghost use Rattle.std.specs.Prelude.{◌≡◌};
ghost use Rattle.std.specs.Option.{option_map};
ghost use Rattle.esc_osc.specs.TextForms.{with_text};

use crate::command::OperatingSystemCommand;
use esc_values::Text;
use std::alloc::Allocator;

// This is a command that is a code and one text.
#[derive(Clone, Copy)]
pub(crate) enum TextForm {
    IconNameAndWindowTitle,
    WindowTitle,
    WindowTitleSun,
    IconName,
    IconNameSun,
    SystemNotification,
    CurrentWorkingDirectory,
}

impl TextForm {
    // Returns the command with this text, if there is one.
    pub(crate) fn with<A: Allocator>(
        self,
        text: Option<Text<A>>,
    ) -> Option<OperatingSystemCommand<A>>
        ensures { result ≡ option_map (with_text self) text }
    {
        match text {
            Some(text) => Some(self.with_text(text)),
            None => None,
        }
    }

    // Returns the command with this text.
    fn with_text<A: Allocator>(self, text: Text<A>) -> OperatingSystemCommand<A>
        ensures { result ≡ with_text self text }
    {
        match self {
            TextForm::IconNameAndWindowTitle => {
                OperatingSystemCommand::SetIconNameAndWindowTitle(text)
            }
            TextForm::WindowTitle => OperatingSystemCommand::SetWindowTitle(text),
            TextForm::WindowTitleSun => OperatingSystemCommand::SetWindowTitleSun(text),
            TextForm::IconName => OperatingSystemCommand::SetIconName(text),
            TextForm::IconNameSun => OperatingSystemCommand::SetIconNameSun(text),
            TextForm::SystemNotification => OperatingSystemCommand::SystemNotification(text),
            TextForm::CurrentWorkingDirectory => {
                OperatingSystemCommand::CurrentWorkingDirectory(text)
            }
        }
    }
}
