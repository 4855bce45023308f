//! Numbers for the variants of a machine.
#![tactic(auto)]

ghost use Rattle.std.specs.Prelude.{◌≡◌};
ghost use Rattle.esc_frame.specs.Machine.Prefixes.{prefix_of};
ghost use Rattle.heapless_parser.specs.Numbers.{state_numbered, form_numbered, begun_bytes};
ghost use Rattle.heapless_parser.specs.States.{begun_in};

use crate::parser::EscParser;
use esc_frame::machine::State;
use esc_frame::unfinished::body::Form;
use esc_frame::utf8::sequence::Pending;

/// The number of a parser between segments.
pub const GROUND: u32 = 0;

/// The number of a parser in an escape sequence.
pub const ESCAPED: u32 = 1;

/// The number of a parser in a control sequence.
pub const CSI_STATE: u32 = 2;

/// The number of a parser in an operating system command.
pub const OSC_STATE: u32 = 3;

/// The number of a parser in the header of a device control string.
pub const HEADER_STATE: u32 = 4;

/// The number of a parser in the data of a device control string.
pub const DATA_STATE: u32 = 5;

/// The number of a parser in an ignored string.
pub const IGNORED_STATE: u32 = 6;

/// The number of a parser in an application program command.
pub const APC_STATE: u32 = 7;

/// The number of the form of a header that is not hooked.
pub const MALFORMED: u32 = 3;

pub fn state_of(number: u32) -> State
    ensures { result ≡ state_numbered number }
{
    match number {
        1 => State::Escape,
        2 => State::Csi,
        3 => State::Osc,
        4 => State::Dcs,
        5 => State::Data,
        6 => State::Ignored,
        7 => State::Apc,
        _ => State::Ground,
    }
}

pub fn number_of_state(state: State) -> u32
    ensures { state_numbered result ≡ state }
{
    match state {
        State::Ground => 0,
        State::Escape => 1,
        State::Csi => 2,
        State::Osc => 3,
        State::Dcs => 4,
        State::Data => 5,
        State::Ignored => 6,
        State::Apc => 7,
    }
}

pub fn form_of(number: u32) -> Form
    ensures { result ≡ form_numbered number }
{
    match number {
        1 => Form::Parameters,
        2 => Form::Intermediates,
        3 => Form::Malformed,
        _ => Form::Empty,
    }
}

pub fn number_of_form(form: Form) -> u32
    ensures { form_numbered result ≡ form }
{
    match form {
        Form::Empty => 0,
        Form::Parameters => 1,
        Form::Intermediates => 2,
        Form::Malformed => 3,
    }
}

/// Returns the bytes of a character that have come.
pub fn pending_in(parser: &EscParser) -> Pending
    ensures { prefix_of result ≡ begun_in parser.now }
{
    match parser.pending {
        1 => Pending::One(parser.first),
        2 => Pending::Two(parser.first, parser.second),
        3 => Pending::Three(parser.first, parser.second, parser.third),
        _ => Pending::Nothing,
    }
}

/// Returns how many these bytes are, and each of them, or 0.
pub fn numbers_of_pending(pending: Pending) -> (u32, u8, u8, u8)
    ensures { begun_bytes result.0 result.1 result.2 result.3 ≡ prefix_of pending }
{
    match pending {
        Pending::Nothing => (0, 0, 0, 0),
        Pending::One(a) => (1, a, 0, 0),
        Pending::Two(a, b) => (2, a, b, 0),
        Pending::Three(a, b, c) => (3, a, b, c),
    }
}
