//! This module finds a command: its kinds by their numbers, in groups that are read alike.
ghost use Rattle.std.specs.Prelude.{◌≡◌};
ghost use Rattle.flat_values.specs.FoundCommands.{form_at};

use self::Form::{Bare, ITerm, Other, Prompt, Text};

// The form says how the command of a kind is read.
#[derive(Clone, Copy)]
pub(crate) enum Form {
    // is none of those below
    Other(OtherKind),
    // is read from nothing
    Bare(BareKind),
    // is read from one text
    Text(TextKind),
    // is any other prompt
    Prompt(PromptForm),
    // is any other command of iTerm2
    ITerm(ITermKind),
}

// These commands have nothing.
#[derive(Clone, Copy)]
pub(crate) enum BareKind {
    PromptFreshLine,
    PromptInputUntilNextMarker,
    PromptInputUntilEndOfLine,
    ITermSetMark,
    ITermStealFocus,
    ITermClearScrollback,
    ITermEndCopy,
    ITermRequestCellSize,
}

// These commands have one text.
#[derive(Clone, Copy)]
pub(crate) enum TextKind {
    IconNameAndWindowTitle,
    WindowTitle,
    WindowTitleSun,
    IconName,
    IconNameSun,
    Notification,
    WorkingDirectory,
    ITermCurrentDir,
    ITermSetProfile,
    ITermCopyToClipboard,
    ITermCopy,
    ITermReportVariable,
    ITermSetBadgeFormat,
}

// These are the other prompts.
#[derive(Clone, Copy)]
pub(crate) enum PromptForm {
    FreshLineAndStart,
    EndOfCommandWithFreshLine,
    Start,
    StartOfOutput,
    CommandStatus,
}

// These are the other commands of iTerm2.
#[derive(Clone, Copy)]
pub(crate) enum ITermKind {
    HighlightCursorLine,
    ReportCellSize,
    SetUserVar,
    File,
    SetVersion,
    PushVersion,
    PopVersion,
}

// These are the other commands.
#[derive(Clone, Copy)]
pub(crate) enum OtherKind {
    Unspecified,
    Hyperlink,
    ClearSelection,
    QuerySelection,
    SetSelection,
    ColorNumber,
    DynamicColors,
    ResetDynamicColor,
    ResetColors,
    Rxvt,
    Progress,
}

// has the kinds in the order of their numbers, which is that of `CommandKind`
const FORMS: [Form; 44] = [
    Other(OtherKind::Unspecified),
    Text(TextKind::IconNameAndWindowTitle),
    Text(TextKind::WindowTitle),
    Text(TextKind::WindowTitleSun),
    Text(TextKind::IconName),
    Text(TextKind::IconNameSun),
    Other(OtherKind::Hyperlink),
    Other(OtherKind::ClearSelection),
    Other(OtherKind::QuerySelection),
    Other(OtherKind::SetSelection),
    Text(TextKind::Notification),
    Other(OtherKind::ColorNumber),
    Other(OtherKind::DynamicColors),
    Other(OtherKind::ResetDynamicColor),
    Text(TextKind::WorkingDirectory),
    Other(OtherKind::ResetColors),
    Other(OtherKind::Rxvt),
    Other(OtherKind::Progress),
    Bare(BareKind::PromptFreshLine),
    Prompt(PromptForm::FreshLineAndStart),
    Prompt(PromptForm::EndOfCommandWithFreshLine),
    Prompt(PromptForm::Start),
    Bare(BareKind::PromptInputUntilNextMarker),
    Bare(BareKind::PromptInputUntilEndOfLine),
    Prompt(PromptForm::StartOfOutput),
    Prompt(PromptForm::CommandStatus),
    Bare(BareKind::ITermSetMark),
    Bare(BareKind::ITermStealFocus),
    Bare(BareKind::ITermClearScrollback),
    Text(TextKind::ITermCurrentDir),
    Text(TextKind::ITermSetProfile),
    Text(TextKind::ITermCopyToClipboard),
    Bare(BareKind::ITermEndCopy),
    ITerm(ITermKind::HighlightCursorLine),
    Bare(BareKind::ITermRequestCellSize),
    ITerm(ITermKind::ReportCellSize),
    Text(TextKind::ITermCopy),
    Text(TextKind::ITermReportVariable),
    ITerm(ITermKind::SetUserVar),
    Text(TextKind::ITermSetBadgeFormat),
    ITerm(ITermKind::File),
    ITerm(ITermKind::SetVersion),
    ITerm(ITermKind::PushVersion),
    ITerm(ITermKind::PopVersion),
];

// Returns the form of the kind of this number; that of a command that is kept as its parts if there
// is no such kind.
pub(crate) fn form_at(number: u32) -> Form
    ensures { result ≡ form_at number }
{
    let index = number as usize;
    if index < FORMS.len() {
        FORMS[index]
    } else {
        Other(OtherKind::Unspecified)
    }
}
