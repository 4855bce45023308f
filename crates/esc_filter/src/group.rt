//! Groups of actions.
ghost use Rattle.std.specs.Prelude.{◌≡◌};
ghost use Rattle.esc_actions.specs.Values.{value_of};
ghost use Rattle.esc_sequences.specs.Csis.{csi_value};
ghost use Rattle.esc_filter.specs.Groups.{group_of, of_body, of_command, of_control, of_escape, of_parts, of_print, of_rendition, of_sequence, of_text};

use crate::concealed::conceals;
use crate::function_groups::{group_of_escape_function, group_of_function};
use crate::links::has_address;
use crate::policy::{are_plain, are_shown, is_layout};
use crate::screen::{changes_with, escape_changes_with, is_palette};
use control_functions::{ControlFunction, EscapeFunction};
use esc_actions::Action;
use esc_osc::OperatingSystemCommand;
use esc_sequences::{CSI, Esc};
use esc_values::{CsiParam, Items};
use std::alloc::Allocator;

/// A group of actions. Each action is in one. [`Policy::Text`] admits the first two groups, `Color`
/// the first five, `Screen` all up to `Palette`, and `All` all.
///
/// [`Policy::Text`]: crate::Policy::Text
#[derive(Clone, Copy, Debug, PartialEq, Eq)]
pub enum Group {
    /// Characters but DEL.
    Characters,
    /// Tab, line feed and carriage return.
    Layout,
    /// Graphic renditions (SGR), but those of `Hidden`.
    Sgr,
    /// Graphic renditions, one of which conceals text (SGR 8).
    Hidden,
    /// Hyperlinks (OSC 8), and their ends. An address may have `;` in it. A link with DEL or a
    /// character that deceives ([`is_deceiving`](crate::is_deceiving)) passes only with `Other`.
    Links,
    /// Bell, backspace, line tabulation and form feed.
    Controls,
    /// Cursor movement, states saved and restored with the cursor or as renditions, the cursor's
    /// shape, and tab stops.
    Cursor,
    /// Erasing, inserting, deleting, copying and filling, the renditions of a rectangle, and the
    /// repeated character.
    Erase,
    /// Scrolling, index and next line, and margins.
    Scroll,
    /// Modes of the screen.
    Modes,
    /// Character sets, shift in and shift out, and the size of a line's characters.
    Charsets,
    /// Colours of the palette, set and reset.
    Palette,
    /// Titles of the window, and names of the icon (OSC 0, 1, 2, l and L).
    Titles,
    /// The clipboard, set and cleared (OSC 52).
    Clipboard,
    /// Images of kitty's protocol, and sixel.
    Images,
    /// Anything else.
    Other,
}

impl Group {
    /// Returns the group of an action.
    pub fn of<A: Allocator>(action: &Action<A>) -> Group
        ensures { result ≡ group_of (value_of action.now) }
    {
        match action {
            Action::Print(c) => group_of_print(*c),
            Action::PrintString(text) => group_of_text(text.as_bytes()),
            Action::Control(code) => group_of_control(code.as_char()),
            Action::Esc(esc) => group_of_escape(*esc),
            Action::CSI(csi) => group_of_sequence(csi),
            Action::OperatingSystemCommand(command) => group_of_command(command.as_ref()),
            Action::KittyImage(_) | Action::Sixel(_) => Group::Images,
            Action::XtGetTcap(_) | Action::DeviceControl(_) => Group::Other,
        }
    }
}

fn group_of_print(c: char) -> Group
    ensures { result ≡ of_print c }
{
    if c != '\x7f' {
        Group::Characters
    } else {
        Group::Other
    }
}

fn group_of_text(text: &[u8]) -> Group
    ensures { result ≡ of_text text.now }
{
    if are_shown(text) {
        Group::Characters
    } else {
        Group::Other
    }
}

fn group_of_control(code: char) -> Group
    ensures { result ≡ of_control code }
{
    if is_layout(code) {
        return Group::Layout;
    }
    match code {
        '\x07' | '\x08' | '\x0b' | '\x0c' => Group::Controls,
        '\x0e' | '\x0f' => Group::Charsets,
        _ => Group::Other,
    }
}

fn group_of_escape(esc: Esc) -> Group
    ensures { result ≡ of_escape esc }
{
    match EscapeFunction::of(esc) {
        Some(function) if escape_changes_with(function, esc) => group_of_escape_function(function),
        Some(_) | None => Group::Other,
    }
}

fn group_of_sequence<A: Allocator>(csi: &CSI<A>) -> Group
    ensures { result ≡ of_sequence (csi_value csi.now) }
{
    match csi {
        CSI::Sgr(_) => Group::Sgr,
        CSI::Unspecified(sequence) => {
            let sequence = sequence.as_ref();
            group_of_body(sequence.params.as_slice(), sequence.control)
        }
    }
}

// Returns the group of a control sequence that has no name of its own.
pub(crate) fn group_of_body(params: &[CsiParam], control: u8) -> Group
    ensures { result ≡ of_body params.now control }
{
    if control == b'm' && are_plain(params) {
        return group_of_rendition(params);
    }
    match ControlFunction::of_csi_params(params, control) {
        Some(function) if changes_with(function, params) => group_of_function(function),
        Some(_) | None => Group::Other,
    }
}

// Returns the group of renditions with these parameters.
fn group_of_rendition(params: &[CsiParam]) -> Group
    ensures { result ≡ of_rendition params.now }
{
    if conceals(params) {
        Group::Hidden
    } else {
        Group::Sgr
    }
}

fn group_of_command<A: Allocator>(command: &OperatingSystemCommand<A>) -> Group
    ensures { result ≡ of_command command.now }
{
    if is_palette(command) {
        return Group::Palette;
    }
    match command {
        OperatingSystemCommand::SetHyperlink(_) => Group::Links,
        OperatingSystemCommand::SetIconNameAndWindowTitle(_)
        | OperatingSystemCommand::SetIconName(_)
        | OperatingSystemCommand::SetIconNameSun(_)
        | OperatingSystemCommand::SetWindowTitle(_)
        | OperatingSystemCommand::SetWindowTitleSun(_) => Group::Titles,
        OperatingSystemCommand::ClearSelection(_) | OperatingSystemCommand::SetSelection(_, _) => {
            Group::Clipboard
        }
        OperatingSystemCommand::QuerySelection(_)
        | OperatingSystemCommand::SystemNotification(_)
        | OperatingSystemCommand::ITermProprietary(_)
        | OperatingSystemCommand::FinalTermSemanticPrompt(_)
        | OperatingSystemCommand::ChangeColorNumber(_)
        | OperatingSystemCommand::ChangeDynamicColors(_, _)
        | OperatingSystemCommand::ResetDynamicColor(_)
        | OperatingSystemCommand::CurrentWorkingDirectory(_)
        | OperatingSystemCommand::ResetColors(_)
        | OperatingSystemCommand::RxvtExtension(_)
        | OperatingSystemCommand::ConEmuProgress(_) => Group::Other,
        OperatingSystemCommand::Unspecified(parts) => group_of_parts(parts.as_slice()),
    }
}

// Returns the group of a command that has these parts, and no other reading.
fn group_of_parts<A: Allocator>(parts: &[Items<u8, A>]) -> Group
    ensures { result ≡ of_parts parts.now }
{
    if has_address(parts) {
        Group::Links
    } else {
        Group::Other
    }
}
