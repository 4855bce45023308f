//! Functions that change the screen alone: control and escape sequences, by the tables of
//! `control_functions`.
ghost use Rattle.std.specs.Prelude.{◌≡◌};
ghost use Rattle.std.specs.List.{list_all};
ghost use Rattle.esc_sequences.specs.Csis.{csi_value};
ghost use Rattle.esc_values.specs.Params.{is_from};
ghost use Rattle.esc_actions.specs.Values.{value_of};
ghost use Rattle.esc_filter.specs.Rules.{changes_with, escape_changes_with, is_common_set, is_lone, is_mode, is_palette, is_private_mode, is_screen, is_screen_body, is_screen_control, is_screen_escape, is_screen_sequence, is_set, is_set_pair, is_shape, is_space};

use crate::policy::are_plain;
use control_functions::{C0, ControlFunction, EscapeFunction, Mode, PrivateMode};
use esc_actions::Action;
use esc_osc::{ChangeColorPair, ColorOrQuery, OperatingSystemCommand};
use esc_sequences::{CSI, Esc};
use esc_values::CsiParam;
use std::alloc::Allocator;

// Returns whether the action changes the screen alone.
pub(crate) fn is_screen<A: Allocator>(action: &Action<A>) -> bool
    ensures { result ≡ is_screen (value_of action.now) }
{
    match action {
        Action::Control(code) => is_screen_control(code.as_char() as u32),
        Action::Esc(esc) => is_screen_escape(*esc),
        Action::CSI(csi) => is_screen_sequence(csi),
        Action::OperatingSystemCommand(command) => is_palette(command.as_ref()),
        _ => false,
    }
}

// Returns whether it is the code of a C0 control that changes the screen alone, or of BEL, SO or
// SI.
#[inline]
fn is_screen_control(code: u32) -> bool
    ensures { result ≡ is_screen_control code }
{
    C0::is_screen_code(code) || code == 0x07 || code == 0x0e || code == 0x0f
}

fn is_screen_escape(esc: Esc) -> bool
    ensures { result ≡ is_screen_escape esc }
{
    match EscapeFunction::of(esc) {
        Some(function) => escape_changes_with(function, esc),
        None => false,
    }
}

// Returns whether an escape sequence of this function changes the screen alone.
pub(crate) fn escape_changes_with(function: EscapeFunction, esc: Esc) -> bool
    ensures { result ≡ escape_changes_with function esc }
{
    match function {
        EscapeFunction::GZD4 => is_common_set(esc),
        EscapeFunction::G1D4 => is_common_set(esc),
        EscapeFunction::G2D4 => is_common_set(esc),
        EscapeFunction::G3D4 => is_common_set(esc),
        _ => function.changes_screen(),
    }
}

// Returns whether its final byte names the graphics of DEC, the set of the United Kingdom or
// US-ASCII.
fn is_common_set(esc: Esc) -> bool
    ensures { result ≡ is_common_set esc }
{
    match esc {
        Esc::Code(_) => false,
        Esc::Unspecified { control, .. } => control == b'0' || control == b'A' || control == b'B',
    }
}

fn is_screen_sequence<A: Allocator>(csi: &CSI<A>) -> bool
    ensures { result ≡ is_screen_sequence (csi_value csi.now) }
{
    match csi {
        CSI::Sgr(_) => true,
        CSI::Unspecified(sequence) => {
            let sequence = sequence.as_ref();
            is_screen_body(sequence.params.as_slice(), sequence.control)
        }
    }
}

// Does the same for a sequence that has no name of its own. That the plain ones from ICH to DL
// change the screen alone is known before the table is asked.
#[tactic(auto, using(crate::proofs::GivingBack::ScreenFunctions::plain_moves))]
#[inline]
pub(crate) fn is_screen_body(params: &[CsiParam], control: u8) -> bool
    ensures { result ≡ is_screen_body params.now control }
{
    if is_move(control) && are_plain(params) {
        return true;
    }
    is_screen_function(params, control)
}

// Does the same, by the table of functions.
#[inline(never)]
fn is_screen_function(params: &[CsiParam], control: u8) -> bool
    ensures { result ≡ is_screen_body params.now control }
{
    match ControlFunction::of_csi_params(params, control) {
        Some(function) => changes_with(function, params),
        None => false,
    }
}

// Returns whether the final byte is that of ICH, of a movement of the cursor, of ED, EL, IL or DL.
fn is_move(control: u8) -> bool
    ensures { result ≡ is_from 0x40 0x4d control }
{
    b'@' <= control && control <= b'M'
}

// Returns whether a function with these parameters changes the screen alone.
#[inline]
pub(crate) fn changes_with(function: ControlFunction, params: &[CsiParam]) -> bool
    ensures { result ≡ changes_with function params.now }
{
    match function {
        ControlFunction::SM => is_lone_mode(params),
        ControlFunction::RM => is_lone_mode(params),
        ControlFunction::DECSET => are_private_modes(params),
        ControlFunction::DECRST => are_private_modes(params),
        ControlFunction::DECSCUSR => is_shape(params),
        _ => function.changes_screen(),
    }
}

// Returns whether the parameters are the number of a mode that changes the screen alone.
fn is_lone_mode(params: &[CsiParam]) -> bool
    ensures { result ≡ is_lone is_mode params.now }
{
    match params {
        [param] => is_mode(param),
        _ => false,
    }
}

// Returns whether it is the number of a mode that changes the screen alone.
fn is_mode(param: &CsiParam) -> bool
    ensures { result ≡ is_mode param.now }
{
    match param {
        CsiParam::Integer(number) => *number >= 0 && Mode::is_screen_number(*number as u64),
        CsiParam::P(_) => false,
    }
}

// Returns whether all are numbers of private modes that change the screen alone, or `;`, after the
// prefix.
fn are_private_modes(params: &[CsiParam]) -> bool
    ensures { result ≡ list_all is_private_mode params.now }
{
    params.iter().all(is_private_mode)
}

// Returns whether it is the number of a private mode that changes the screen alone, the prefix, or
// `;`.
fn is_private_mode(param: &CsiParam) -> bool
    ensures { result ≡ is_private_mode param.now }
{
    match param {
        CsiParam::Integer(number) => {
            *number >= 0 && PrivateMode::is_screen_number(*number as u64)
        }
        CsiParam::P(b) => *b == b'?' || *b == b';',
    }
}

// Returns whether the parameters are a space, before which there may be a number.
fn is_shape(params: &[CsiParam]) -> bool
    ensures { result ≡ is_shape params.now }
{
    match params {
        [CsiParam::Integer(_), last] => is_space(last),
        [only] => is_space(only),
        _ => false,
    }
}

// Returns whether it is a space.
fn is_space(param: &CsiParam) -> bool
    ensures { result ≡ is_space param.now }
{
    *param == CsiParam::P(b' ')
}

// Returns whether the command changes colours and asks for none.
pub(crate) fn is_palette<A: Allocator>(command: &OperatingSystemCommand<A>) -> bool
    ensures { result ≡ is_palette command.now }
{
    match command {
        OperatingSystemCommand::ChangeColorNumber(pairs) => are_set_pairs(pairs.as_slice()),
        OperatingSystemCommand::ChangeDynamicColors(_, colors) => are_set(colors.as_slice()),
        OperatingSystemCommand::ResetDynamicColor(_) | OperatingSystemCommand::ResetColors(_) => {
            true
        }
        _ => false,
    }
}

// Returns whether each is a place and a colour, and no question for one.
fn are_set_pairs(pairs: &[ChangeColorPair]) -> bool
    ensures { result ≡ list_all is_set_pair pairs.now }
{
    pairs.iter().all(is_set_pair)
}

fn is_set_pair(pair: &ChangeColorPair) -> bool
    ensures { result ≡ is_set_pair pair.now }
{
    is_set(&pair.color)
}

// Returns whether each is a colour, and no question for one.
fn are_set(colors: &[ColorOrQuery]) -> bool
    ensures { result ≡ list_all is_set colors.now }
{
    colors.iter().all(is_set)
}

// Returns whether it is a colour, and no question for one.
fn is_set(color: &ColorOrQuery) -> bool
    ensures { result ≡ is_set color.now }
{
    matches!(color, ColorOrQuery::Color(_))
}
