//! This module defines the commands that are a keyword and one text.
ghost use Rattle.std.specs.Prelude.{◌≡◌};
ghost use Rattle.esc_iterm.specs.TextForms.{with_text};

use crate::proprietary::ITermProprietary;
use esc_values::Text;
use std::alloc::Allocator;

// This is a command that is a keyword and one text.
#[derive(Clone, Copy)]
pub(crate) enum TextForm {
    CurrentDir,
    SetProfile,
    CopyToClipboard,
    Copy,
    SetBadgeFormat,
}

impl TextForm {
    // Returns the command with this text.
    pub(crate) fn with_text<A: Allocator>(self, text: Text<A>) -> ITermProprietary<A>
        ensures { result ≡ with_text self text }
    {
        match self {
            TextForm::CurrentDir => ITermProprietary::CurrentDir(text),
            TextForm::SetProfile => ITermProprietary::SetProfile(text),
            TextForm::CopyToClipboard => ITermProprietary::CopyToClipboard(text),
            TextForm::Copy => ITermProprietary::Copy(text),
            TextForm::SetBadgeFormat => ITermProprietary::SetBadgeFormat(text),
        }
    }
}
