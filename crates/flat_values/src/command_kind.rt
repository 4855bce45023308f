//! This module defines the kinds of commands.
ghost use Rattle.std.specs.Prelude.{◌≡◌};
ghost use Rattle.flat_values.specs.Kinds.{iterm_kind, kind_number, kind_of, prompt_kind, version_kind};

use esc_iterm::{ITermProprietary, ITermUnicodeVersionOp};
use esc_osc::OperatingSystemCommand as Command;
use esc_prompts::FinalTermSemanticPrompt as Prompt;

/// The kind says which command it is. The commands of iTerm2 and the prompts have a kind each, and
/// so have the three operations on the version of Unicode. Each kind names its
/// [fields](crate::FieldName), in order: `?` says that one may be absent, and `*` that the text
/// before it comes once for each item. The numbers are those of the header for C, so a new kind
/// comes last.
#[derive(Clone, Copy)]
pub enum CommandKind {
    /// `Part*`: any other command, as its parts.
    Unspecified,
    /// `Text`.
    SetIconNameAndWindowTitle,
    /// `Text`.
    SetWindowTitle,
    /// `Text`.
    SetWindowTitleSun,
    /// `Text`.
    SetIconName,
    /// `Text`.
    SetIconNameSun,
    /// `Uri Implicit (Key Value)*`; nothing if the link ends.
    SetHyperlink,
    /// `Selection`.
    ClearSelection,
    /// `Selection`.
    QuerySelection,
    /// `Selection Text`.
    SetSelection,
    /// `Text`.
    SystemNotification,
    /// `(PaletteIndex Red Green Blue)*`; each colour may be a `Query` in place of the three.
    ChangeColorNumber,
    /// `DynamicColor (Red Green Blue)*`; each colour may be a `Query` in place of the three. The
    /// first colour is for that number, the next for the next number.
    ChangeDynamicColors,
    /// `DynamicColor`.
    ResetDynamicColor,
    /// `Directory`.
    CurrentWorkingDirectory,
    /// `PaletteIndex*`; nothing if all colours are reset.
    ResetColors,
    /// `Part*`.
    RxvtExtension,
    /// `ProgressState Percent?`: with the states 1 and 2 it has a percentage.
    ConEmuProgress,
    /// No field.
    PromptFreshLine,
    /// `Application? Click?`.
    PromptFreshLineAndStartPrompt,
    /// `Application? Click?`.
    PromptEndOfCommandWithFreshLine,
    /// `PromptKind`.
    PromptStartPrompt,
    /// No field.
    PromptStartOfInputUntilNextMarker,
    /// No field.
    PromptStartOfInputUntilEndOfLine,
    /// `Application?`.
    PromptStartOfOutput,
    /// `Status Application?`.
    PromptCommandStatus,
    /// No field.
    ITermSetMark,
    /// No field.
    ITermStealFocus,
    /// No field.
    ITermClearScrollback,
    /// `Directory`.
    ITermCurrentDir,
    /// `Name`.
    ITermSetProfile,
    /// `Name`, that of the pasteboard.
    ITermCopyToClipboard,
    /// No field.
    ITermEndCopy,
    /// `Highlighted`.
    ITermHighlightCursorLine,
    /// No field.
    ITermRequestCellSize,
    /// `CellHeight CellWidth Scale?`.
    ITermReportCellSize,
    /// `Text`.
    ITermCopy,
    /// `Name`.
    ITermReportVariable,
    /// `Name Value`.
    ITermSetUserVar,
    /// `Text`.
    ITermSetBadgeFormat,
    /// `Name?`; `Size?`; the width in one of its three units, or nothing if it is automatic; the
    /// height as well; `PreserveAspectRatio Inline DoNotMoveCursor Content`.
    ITermFile,
    /// `Version`.
    ITermSetUnicodeVersion,
    /// `Label?`.
    ITermPushUnicodeVersion,
    /// `Label?`.
    ITermPopUnicodeVersion,
}

impl CommandKind {
    /// Returns the kind of this command.
    pub fn of(command: &Command) -> CommandKind
        ensures { result ≡ kind_of command.now }
    {
        match command {
            Command::SetIconNameAndWindowTitle(_) => CommandKind::SetIconNameAndWindowTitle,
            Command::SetWindowTitle(_) => CommandKind::SetWindowTitle,
            Command::SetWindowTitleSun(_) => CommandKind::SetWindowTitleSun,
            Command::SetIconName(_) => CommandKind::SetIconName,
            Command::SetIconNameSun(_) => CommandKind::SetIconNameSun,
            Command::SetHyperlink(_) => CommandKind::SetHyperlink,
            Command::ClearSelection(_) => CommandKind::ClearSelection,
            Command::QuerySelection(_) => CommandKind::QuerySelection,
            Command::SetSelection(_, _) => CommandKind::SetSelection,
            Command::SystemNotification(_) => CommandKind::SystemNotification,
            Command::ITermProprietary(command) => proprietary(command),
            Command::FinalTermSemanticPrompt(prompt) => prompted(prompt),
            Command::ChangeColorNumber(_) => CommandKind::ChangeColorNumber,
            Command::ChangeDynamicColors(_, _) => CommandKind::ChangeDynamicColors,
            Command::ResetDynamicColor(_) => CommandKind::ResetDynamicColor,
            Command::CurrentWorkingDirectory(_) => CommandKind::CurrentWorkingDirectory,
            Command::ResetColors(_) => CommandKind::ResetColors,
            Command::RxvtExtension(_) => CommandKind::RxvtExtension,
            Command::ConEmuProgress(_) => CommandKind::ConEmuProgress,
            Command::Unspecified(_) => CommandKind::Unspecified,
        }
    }

    /// Returns its number: its place in this order, from 0.
    pub fn number(self) -> u32
        ensures { result ≡ kind_number self }
    {
        self as u32
    }
}

// Returns the kind of a command of iTerm2.
fn proprietary(command: &ITermProprietary) -> CommandKind
    ensures { result ≡ iterm_kind command.now }
{
    match command {
        ITermProprietary::SetMark => CommandKind::ITermSetMark,
        ITermProprietary::StealFocus => CommandKind::ITermStealFocus,
        ITermProprietary::ClearScrollback => CommandKind::ITermClearScrollback,
        ITermProprietary::CurrentDir(_) => CommandKind::ITermCurrentDir,
        ITermProprietary::SetProfile(_) => CommandKind::ITermSetProfile,
        ITermProprietary::CopyToClipboard(_) => CommandKind::ITermCopyToClipboard,
        ITermProprietary::EndCopy => CommandKind::ITermEndCopy,
        ITermProprietary::HighlightCursorLine(_) => CommandKind::ITermHighlightCursorLine,
        ITermProprietary::RequestCellSize => CommandKind::ITermRequestCellSize,
        ITermProprietary::ReportCellSize { .. } => CommandKind::ITermReportCellSize,
        ITermProprietary::Copy(_) => CommandKind::ITermCopy,
        ITermProprietary::ReportVariable(_) => CommandKind::ITermReportVariable,
        ITermProprietary::SetUserVar { .. } => CommandKind::ITermSetUserVar,
        ITermProprietary::SetBadgeFormat(_) => CommandKind::ITermSetBadgeFormat,
        ITermProprietary::File(_) => CommandKind::ITermFile,
        ITermProprietary::UnicodeVersion(version) => versioned(version),
    }
}

// Returns the kind of an operation on the version of Unicode.
fn versioned(version: &ITermUnicodeVersionOp) -> CommandKind
    ensures { result ≡ version_kind version.now }
{
    match version {
        ITermUnicodeVersionOp::Set(_) => CommandKind::ITermSetUnicodeVersion,
        ITermUnicodeVersionOp::Push(_) => CommandKind::ITermPushUnicodeVersion,
        ITermUnicodeVersionOp::Pop(_) => CommandKind::ITermPopUnicodeVersion,
    }
}

// Returns the kind of a prompt.
fn prompted(prompt: &Prompt) -> CommandKind
    ensures { result ≡ prompt_kind prompt.now }
{
    match prompt {
        Prompt::FreshLine => CommandKind::PromptFreshLine,
        Prompt::FreshLineAndStartPrompt { .. } => CommandKind::PromptFreshLineAndStartPrompt,
        Prompt::MarkEndOfCommandWithFreshLine { .. } =>
            CommandKind::PromptEndOfCommandWithFreshLine,
        Prompt::StartPrompt(_) => CommandKind::PromptStartPrompt,
        Prompt::MarkEndOfPromptAndStartOfInputUntilNextMarker =>
            CommandKind::PromptStartOfInputUntilNextMarker,
        Prompt::MarkEndOfPromptAndStartOfInputUntilEndOfLine =>
            CommandKind::PromptStartOfInputUntilEndOfLine,
        Prompt::MarkEndOfInputAndStartOfOutput { .. } => CommandKind::PromptStartOfOutput,
        Prompt::CommandStatus { .. } => CommandKind::PromptCommandStatus,
    }
}
