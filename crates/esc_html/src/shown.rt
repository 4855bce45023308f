//! Which actions a page shows.
ghost use Rattle.std.specs.Prelude.{◌≡◌};
ghost use Rattle.esc_actions.specs.Values.{value_of};
ghost use Rattle.esc_html.specs.Marks.{is_shown, is_shown_command, is_shown_control, is_shown_function, leads};
ghost use Rattle.typed_functions.specs.Functions.{value_of as function_value};

use crate::address::is_page_address;
use crate::address_parts::{address_in, is_safe_in_parts};
use crate::breaks::{begins_line, escape_begins_line};
use esc_actions::Action;
use esc_links::Hyperlink;
use esc_osc::OperatingSystemCommand;
use std::alloc::Allocator;
use typed_functions::Function;

/// Whether a page shows an action, or its change of looks and links: a character but DEL, a tab, a
/// control that begins a line, renditions, and a link to a safe address or the end of one. All
/// other actions leave nothing in a page.
pub fn is_shown<A: Allocator>(action: &Action<A>) -> bool
    ensures { result ≡ is_shown (value_of action.now) }
{
    match action {
        Action::Print(c) => *c != '\u{7f}',
        Action::Control(code) => is_shown_control(code.as_char()),
        Action::Esc(esc) => escape_begins_line(*esc),
        Action::CSI(csi) => is_shown_function(Function::of(csi)),
        Action::OperatingSystemCommand(command) => is_shown_command(command.as_ref()),
        Action::PrintString(_)
        | Action::KittyImage(_)
        | Action::Sixel(_)
        | Action::XtGetTcap(_)
        | Action::DeviceControl(_) => false,
    }
}

// Whether it is a tab, or begins a line.
fn is_shown_control(c: char) -> bool
    ensures { result ≡ is_shown_control c }
{
    c == '\t' || begins_line(c)
}

// Whether it asks for renditions.
fn is_shown_function(function: Function<'_>) -> bool
    ensures { result ≡ is_shown_function (function_value function.entry) }
{
    match function {
        Function::Sgr(_) => true,
        _ => false,
    }
}

// Whether it begins a link that leads somewhere in a page, or ends one.
fn is_shown_command<A: Allocator>(command: &OperatingSystemCommand<A>) -> bool
    ensures { result ≡ is_shown_command command.now }
{
    match command {
        OperatingSystemCommand::SetHyperlink(link) => leads(link),
        OperatingSystemCommand::Unspecified(parts) => {
            is_safe_in_parts(address_in(parts.as_slice()))
        }
        _ => false,
    }
}

// Whether a link leads somewhere in a page, or ends.
fn leads<A: Allocator>(link: &Option<Hyperlink<A>>) -> bool
    ensures { result ≡ leads link.now }
{
    match link {
        Some(link) => is_page_address(link.uri.as_str()),
        None => true,
    }
}
