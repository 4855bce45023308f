//! Policies.
ghost use Rattle.std.specs.Prelude.{◌≡◌, ◌||◌, IfSome, IsTrue, Some, false, true};
ghost use Rattle.std.specs.List.{list_all, list_any};
ghost use Rattle.esc_values.specs.Clear.{parts_of};
ghost use Rattle.esc_sequences.specs.Csis.{csi_of, csi_value};
ghost use Rattle.esc_actions.specs.Values.{value_of};
ghost use Rattle.esc_osc.specs.Reading.{meaning as command_meant};
ghost use Rattle.esc_filter.specs.Rules.{BeginsOther, admits, is_color, is_layout, is_link, is_plain_param, is_rendition, is_screen_sequence, is_shown, is_text};

use crate::admit::Admit;
use crate::known::Known;
use crate::links::{clean_link, is_link};
use crate::screen::{is_screen, is_screen_body};
use esc_actions::Action;
use esc_sequences::CSI;
use esc_values::CsiParam;
use std::alloc::Allocator;

/// Says which actions pass a filter. Each admits all that the one before it does.
#[derive(Clone, Copy, Debug, PartialEq, Eq)]
pub enum Policy {
    /// Characters but DEL; tab, line feed and carriage return.
    Text,
    /// And graphic renditions (SGR), and hyperlinks without DEL and characters that deceive
    /// ([`is_deceiving`](crate::is_deceiving)).
    Color,
    /// And actions that change the screen alone: the controls 07 to 0F; cursor movement, erasing,
    /// inserting, deleting, copying, filling, scrolling, margins and tab stops; modes of the
    /// screen, character sets, the cursor's shape, and colours of the palette. The tables of
    /// `control_functions` say which control and escape sequences do so. It is a list of actions
    /// that are known to be so: nothing that a terminal answers, nothing that changes what keys,
    /// mouse or terminal send, no title, clipboard, notification, file, directory, print, device
    /// control string or application program command is on it, and nothing unknown.
    Screen,
    /// All that can be written by itself, C1 controls, images and queries too. It keeps broken
    /// input from becoming a sequence, and does not protect from sequences that are there.
    All,
}

impl<A: Allocator> Admit<A> for Policy {
    ghost use Rattle.esc_filter.specs.Rules.{admits as admits_by};

    ghost admits = { λ p v. admits_by p v };

    // Each policy admits text, as most actions are.
    #[inline]
    fn admits(&self, action: &Action<A>) -> bool {
        if is_text(action) {
            return true;
        }
        is_admitted(self, action)
    }

    #[inline]
    fn known(&self) -> Known {
        match self {
            Policy::Text => Known {
                text: true,
                renditions: false,
                links: false,
                no_functions: true,
                no_commands: true,
                no_escapes: true,
            },
            Policy::Color => Known {
                text: true,
                renditions: true,
                links: true,
                no_functions: true,
                no_commands: true,
                no_escapes: true,
            },
            Policy::Screen | Policy::All => Known {
                text: true,
                renditions: true,
                links: true,
                no_functions: false,
                no_commands: false,
                no_escapes: false,
            },
        }
    }

    #[inline]
    fn admits_text(&self, text: &[u8]) -> bool {
        are_shown(text)
    }

    #[inline]
    fn admits_str(&self, text: &str) -> bool {
        are_shown(text.as_bytes())
    }

    #[inline(always)]
    fn admits_sequence(&self, params: &[CsiParam], control: u8) -> Option<bool> {
        match self {
            Policy::Text => Some(false),
            Policy::Color => color_passes(params, control),
            Policy::Screen => screen_passes(params, control),
            Policy::All => Some(true),
        }
    }

    #[inline]
    fn admits_command(&self, text: &[u8]) -> Option<bool> {
        match self {
            Policy::Text => Some(false),
            Policy::Color => link_passes::<A>(text),
            Policy::Screen => None,
            Policy::All => Some(true),
        }
    }

    #[tactic(auto, using(crate::proofs::Admission::ImagesDoNotPass::images))]
    #[inline]
    fn admits_images(&self) -> bool {
        match self {
            Policy::Text => false,
            Policy::Color => false,
            Policy::Screen => false,
            Policy::All => true,
        }
    }
}

// Returns whether the policy admits the action, apart from the code for text.
#[inline(never)]
fn is_admitted<A: Allocator>(policy: &Policy, action: &Action<A>) -> bool
    ensures { result ≡ admits policy.now (value_of action.now) }
{
    match policy {
        Policy::Text => is_text(action),
        Policy::Color => is_text(action) || is_color(action),
        Policy::Screen => is_text(action) || is_color(action) || is_screen(action),
        Policy::All => true,
    }
}

// Returns whether the command of this text is a link; known if it begins with a digit other than 8,
// and if it is a plain link of bytes 20 to 7E.
#[inline]
fn link_passes<A: Allocator>(text: &[u8]) -> Option<bool>
    ensures { IfSome result (λ b. is_link (command_meant {A = A} (parts_of text.now)) ≡ b) }
{
    if has_other_code(text) {
        Some(false)
    } else {
        match clean_link::<A>(text) {
            Some(_) => Some(true),
            None => None,
        }
    }
}

// Returns whether it begins with a digit other than 8. Then its code, the first part, is not that
// of links.
pub(crate) fn has_other_code(text: &[u8]) -> bool
    ensures { IsTrue result → BeginsOther text.now }
{
    let [first, _rest @ ..] = text else {
        return false;
    };
    first.is_ascii_digit() && *first != b'8'
}

// Returns whether the values of a control sequence are renditions; not known if the final byte is
// `m` and the parameters are no plain ones.
#[tactic(auto, using(crate::proofs::Renditions::SequencesFromParameters::colours))]
#[inline]
fn color_passes(params: &[CsiParam], control: u8) -> Option<bool>
    ensures passes { result ≡ Some true → list_all is_rendition
        (csi_of params.now false control) ≡ true }
    ensures stays { result ≡ Some false → list_any is_rendition
        (csi_of params.now false control) ≡ false }
{
    if control != b'm' {
        return Some(false);
    }
    if are_plain(params) { Some(true) } else { None }
}

// Does the same, also for functions that change the screen alone.
#[tactic(auto, using(crate::proofs::Renditions::SequencesFromParameters::screens))]
#[inline]
fn screen_passes(params: &[CsiParam], control: u8) -> Option<bool>
    ensures passes { result ≡ Some true → list_all (λ c. is_rendition c || is_screen_sequence c)
        (csi_of params.now false control) ≡ true }
    ensures stays { result ≡ Some false → list_any (λ c. is_rendition c || is_screen_sequence c)
        (csi_of params.now false control) ≡ false }
{
    if control != b'm' {
        return Some(is_screen_body(params, control));
    }
    if are_plain(params) { Some(true) } else { None }
}

// Returns whether it is characters, or a control that lays them out.
#[inline]
fn is_text<A: Allocator>(action: &Action<A>) -> bool
    ensures { result ≡ is_text (value_of action.now) }
{
    match action {
        Action::Print(c) => *c != '\x7f',
        Action::PrintString(text) => are_shown(text.as_bytes()),
        Action::Control(code) => is_layout(code.as_char()),
        _ => false,
    }
}

// Returns whether each character of this UTF-8 is shown: none of its bytes is DEL. Between words
// there is often one alone.
pub(crate) fn are_shown(text: &[u8]) -> bool
    ensures { result ≡ list_all is_shown text.now }
{
    match text {
        [only] => *only != 0x7f,
        _ => !text.contains(&0x7f),
    }
}

// Returns whether it is tab, line feed or carriage return.
pub(crate) fn is_layout(code: char) -> bool
    ensures { result ≡ is_layout code }
{
    code == '\t' || code == '\n' || code == '\r'
}

// Returns whether it is a rendition or a link.
fn is_color<A: Allocator>(action: &Action<A>) -> bool
    ensures { result ≡ is_color (value_of action.now) }
{
    match action {
        Action::CSI(csi) => is_rendition(csi),
        Action::OperatingSystemCommand(command) => is_link(command.as_ref()),
        _ => false,
    }
}

// Returns whether it is a graphic rendition.
fn is_rendition<A: Allocator>(csi: &CSI<A>) -> bool
    ensures { result ≡ is_rendition (csi_value csi.now) }
{
    match csi {
        CSI::Sgr(_) => true,
        CSI::Unspecified(sequence) => {
            let sequence = sequence.as_ref();
            sequence.control == b'm' && are_plain(sequence.params.as_slice())
        }
    }
}

// Returns whether all are numbers, `;` or `:`. A number, and a colour of the palette, are seen at
// once.
#[inline]
pub(crate) fn are_plain(params: &[CsiParam]) -> bool
    ensures { result ≡ list_all is_plain_param params.now }
{
    match params {
        [CsiParam::Integer(_)] => true,
        [
            CsiParam::Integer(_),
            CsiParam::P(b';'),
            CsiParam::Integer(_),
            CsiParam::P(b';'),
            CsiParam::Integer(_),
        ] => true,
        _ => params.iter().all(is_plain_param),
    }
}

// Returns whether it is a number, `;` or `:`.
fn is_plain_param(param: &CsiParam) -> bool
    ensures { result ≡ is_plain_param param.now }
{
    match param {
        CsiParam::Integer(_) => true,
        CsiParam::P(b) => *b == b';' || *b == b':',
    }
}
