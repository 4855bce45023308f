//! Controls that end a string that came in chunks, and then act as between sequences.
#![tactic(auto)]

ghost use Rattle.std.specs.Prelude.{◌≡◌, ◌≢◌, ◌⊎◌, true, false, length};
ghost use Rattle.esc_frame.specs.Classes.{class_of, is_breaker};
ghost use Rattle.esc_frame.specs.Machine.Moves.{ground_move};
ghost use Rattle.heapless_parser.specs.Asked.{AskedToLeave};
ghost use Rattle.heapless_parser.specs.Emitted.{queued_of};
ghost use Rattle.heapless_parser.specs.Noted.{IsSound};
ghost use Rattle.heapless_parser.specs.Takes.{GivesByte, IsInRoom, KeepsAfter, Leaves, NotesSequence};

use crate::breaks::in_ground;
use crate::event::{APC, DCS_END, EscEvent, NONE, OSC};
use crate::numbers::{APC_STATE, DATA_STATE, OSC_STATE};
use crate::parser::EscParser;
use crate::strings::put_text;
use esc_frame::classes::{Class, classify};

/// Returns whether the byte breaks off a sequence or a string.
#[inline(always)]
pub fn is_breaker(byte: u8) -> bool
    ensures { result ≡ is_breaker (class_of byte) }
{
    matches!(classify(byte), Class::Breaks(_))
}

/// Takes a byte as between sequences, and queues its character or its control.
#[inline(always)]
pub fn queue_in_ground(parser: &mut EscParser, byte: u8)
    ensures kept { KeepsAfter parser.new (ground_move byte (class_of byte)) }
    ensures queued { queued_of parser.new.queued_kind parser.new.queued_value
        ≡ (ground_move byte (class_of byte)).1 }
    ensures failed { parser.new.has_failed ≡ parser.old.has_failed }
{
    let single = in_ground(parser, byte);
    parser.queued_kind = single.kind;
    parser.queued_value = single.value;
}

// Returns the kind of the event for the text of a command, in this state.
#[inline(always)]
fn text_kind(state: u32) -> u32
    ensures osc { state ≡ OSC_STATE → result ≡ OSC }
    ensures apc { state ≡ APC_STATE → result ≡ APC }
{
    if state == OSC_STATE { OSC } else { APC }
}

// Ends a command and hands out its text. If that is past the limit, returns false and changes
// nothing.
#[inline(always)]
fn leave_text(
    parser: &mut EscParser,
    memory: &[u8],
    out: &mut [u8],
    byte: u8,
    event: &mut EscEvent,
) -> bool
    requires state { ((parser.old.state ≡ OSC_STATE) × (parser.old.pending ≡ 0))
        ⊎ (parser.old.state ≡ APC_STATE) }
    requires asked { AskedToLeave byte event.old (IsInRoom event.old (length out.old)) }
    ensures takes { Leaves parser memory.now out event byte result }
    ensures noted { NotesSequence event.new (length out.old) (result ≡ true) }
{
    let count = parser.text;
    if parser.is_over || count > memory.len() || count > out.len() {
        return false;
    }
    put_text(out, event, text_kind(parser.state), &memory[..count]);
    queue_in_ground(parser, byte);
    true
}

// Ends the data of a device control string.
#[inline(always)]
fn leave_data(parser: &mut EscParser, byte: u8, event: &mut EscEvent)
    requires state { parser.old.state ≡ DATA_STATE }
    requires breaks { is_breaker (class_of byte) ≡ true }
    ensures event { event.new ≡ record event.old { kind = DCS_END } }
    ensures takes { GivesByte parser event.new byte }
{
    queue_in_ground(parser, byte);
    event.kind = DCS_END;
}

/// Takes a control that ends a string or data. If there is none, or its text is past the limit,
/// returns false and changes nothing.
#[inline(never)]
pub fn end_string(
    parser: &mut EscParser,
    memory: &[u8],
    out: &mut [u8],
    byte: u8,
    event: &mut EscEvent,
) -> bool
    requires { AskedToLeave byte event.old (IsInRoom event.old (length out.old)) }
    ensures takes { Leaves parser memory.now out event byte result }
    ensures some { result ≡ true → event.new.kind ≢ NONE }
    ensures sound { IsSound event.new (length out.old) }
{
    if parser.state == APC_STATE || parser.state == OSC_STATE && parser.pending == 0 {
        leave_text(parser, memory, out, byte, event)
    } else if parser.state == DATA_STATE {
        leave_data(parser, byte, event);
        true
    } else {
        false
    }
}
