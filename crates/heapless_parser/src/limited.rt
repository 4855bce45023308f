//! Strings longer than the limit, which end without their event.
#![tactic(auto)]

ghost use Rattle.std.specs.Prelude.{◌≡◌, ◌<◌, length, IsTrue};
ghost use Rattle.esc_frame.specs.Machine.Taking.{OpensOsc};
ghost use Rattle.heapless_parser.specs.Strings.{HasLeft, EndsHeader, EndsString, IsQuiet, NotesLimit};

use crate::event::{CONTROL, EscEvent, LIMIT, NONE};
use crate::numbers::{APC_STATE, GROUND, HEADER_STATE, MALFORMED, OSC_STATE};
use crate::parser::EscParser;
use esc_frame::utf8::sequence::lies_from;

/// The state of a parser before a step, as far as it decides whether the step ends a string.
#[derive(Clone, Copy)]
pub struct Place {
    pub state: u32,
    pub pending: u32,
    pub form: u32,
    pub is_over: bool,
}

impl Place {
    /// Returns the place of this parser.
    #[inline(always)]
    pub fn of(parser: &EscParser) -> Self
        ensures state { result.state ≡ parser.now.state }
        ensures pending { result.pending ≡ parser.now.pending }
        ensures form { result.form ≡ parser.now.form }
        ensures over { result.is_over ≡ parser.now.is_over }
    {
        Place {
            state: parser.state,
            pending: parser.pending,
            form: parser.form,
            is_over: parser.is_over,
        }
    }
}

// Returns whether the parser left a string of this state, which this control opens.
fn has_left(state: u32, introducer: u8, parser: &EscParser, bytes: &[u8]) -> bool
    requires { 0 < length bytes.now }
    ensures { IsTrue result → HasLeft state introducer parser.now bytes.now }
{
    parser.state != state
        || (parser.text == 0
            && !parser.is_over
            && parser.pending == 0
            && bytes[bytes.len() - 1] == introducer)
}

// Returns whether the bytes begin with the opener of an operating system command, and go on after
// it.
fn opens_osc(bytes: &[u8]) -> bool
    ensures { IsTrue result → OpensOsc bytes.now }
{
    bytes.len() > 2 && bytes[0] == 0x1b && bytes[1] == b']'
}

// Returns whether the byte is the final byte of a header that is past the limit, and has its form.
fn ends_header(before: Place, bytes: &[u8]) -> bool
    ensures { IsTrue result → EndsHeader before bytes.now }
{
    before.state == HEADER_STATE
        && before.is_over
        && before.form != MALFORMED
        && bytes.len() == 1
        && lies_from(0x40, 0x7e, bytes[0])
}

// Returns whether these bytes, taken from this place on, ended a string, or a header past the
// limit.
fn ends_string(before: Place, parser: &EscParser, bytes: &[u8]) -> bool
    requires { 0 < length bytes.now }
    ensures { IsTrue result → EndsString before parser.now bytes.now }
{
    if before.state == OSC_STATE {
        has_left(OSC_STATE, 0x9d, parser, bytes)
    } else if before.state == GROUND && before.pending == 0 && opens_osc(bytes) {
        has_left(OSC_STATE, 0x9d, parser, bytes)
    } else if before.state == APC_STATE {
        has_left(APC_STATE, 0x9f, parser, bytes)
    } else {
        ends_header(before, bytes)
    }
}

// Returns whether nothing was noted, or a control alone.
fn is_quiet(event: &EscEvent, parser: &EscParser) -> bool
    ensures { IsTrue result → IsQuiet event.now parser.now }
{
    (event.kind == NONE || event.kind == CONTROL) && parser.queued_kind == NONE
}

/// Notes that a string was longer than the limit, if these bytes, taken from this place on, ended
/// one, and no event of it was noted. A control that was noted is queued.
pub fn note_limited(before: Place, parser: &mut EscParser, event: &mut EscEvent, bytes: &[u8])
    requires { 0 < length bytes.now }
    ensures { NotesLimit before parser.old parser.new event.old event.new bytes.now }
{
    if !is_quiet(event, parser) || !ends_string(before, parser, bytes) {
        return;
    }
    if event.kind == CONTROL {
        parser.queued_kind = CONTROL;
        parser.queued_value = event.byte;
    }
    event.kind = LIMIT;
}
