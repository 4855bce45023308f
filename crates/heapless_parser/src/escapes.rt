//! Escape sequences that come in chunks, and controls in the middle of a sequence.
#![tactic(auto)]

ghost use Rattle.std.specs.Prelude.{◌≡◌, ◌≤◌, ◌⊎◌, ◌++◌, ◌∷◌, [], ℕ, List, true, false};
ghost use Rattle.heapless_parser.specs.Asked.{AskedIn, EndsEscape, OpensInEscape};
ghost use Rattle.heapless_parser.specs.Runs.{IsDueAs, Passes};
ghost use Rattle.heapless_parser.specs.States.{FirstIn};
ghost use Rattle.heapless_parser.specs.Takes.{NotesSingle, TakesByte};

use crate::breaks::cancel;
use crate::event::{CHARACTER, CONTROL, ESCAPE, EscEvent, NONE};
use crate::numbers::{CSI_STATE, ESCAPED, GROUND};
use crate::openers::open_kind;
use crate::parser::EscParser;
use esc_frame::classes::{Class, Kind, classify};

/// Takes, in the middle of a sequence, a control or another byte that is no part of it, or a byte
/// that breaks it off. If the byte is none of these, returns false and changes nothing.
#[inline(never)]
pub fn note_noise(parser: &mut EscParser, byte: u8, event: &mut EscEvent) -> bool
    requires state { (parser.old.state ≡ ESCAPED) ⊎ (parser.old.state ≡ CSI_STATE) }
    requires none { event.old.kind ≡ NONE }
    ensures takes { TakesByte parser event byte result }
    ensures noted { NotesSingle CHARACTER CONTROL event }
{
    match classify(byte) {
        Class::C0 | Class::Bell => {
            event.kind = CONTROL;
            event.byte = byte as u32;
            true
        }
        Class::Delete | Class::High | Class::Lead => true,
        Class::Breaks(_) => {
            cancel(parser, byte, event);
            true
        }
        Class::Intermediate | Class::Parameter | Class::Introducer(_) | Class::Final => false,
    }
}

// Takes the letter after an ESC alone that opens a sequence or a string.
#[inline(always)]
fn open_after(parser: &mut EscParser, byte: u8, kind: Kind)
    requires { OpensInEscape parser.old byte kind }
    ensures queued { IsDueAs parser.new parser.old }
    ensures passes { Passes parser.old parser.new (byte ∷ []) }
{
    open_kind(parser, kind);
}

/// Keeps an intermediate, if it is one of the first two.
#[inline(always)]
pub fn push_intermediate(parser: &mut EscParser, byte: u8)
    ensures first { (x : List ℕ) → FirstIn parser.old x → FirstIn parser.new (x ++ byte ∷ []) }
    ensures same { parser.new ≡ record parser.old {
      intermediates = parser.new.intermediates;
      kept = parser.new.kept;
      has_more = parser.new.has_more;
    } }
{
    if parser.kept < 2 {
        parser.intermediates[parser.kept] = byte;
        parser.kept += 1;
    } else {
        parser.has_more = true;
    }
}

// Takes the final byte of an escape sequence.
#[inline(always)]
fn dispatch(parser: &mut EscParser, byte: u8, event: &mut EscEvent)
    requires { EndsEscape parser.old byte }
    ensures event { event.new ≡ record event.old {
      kind = ESCAPE;
      byte = byte;
      intermediates = event.new.intermediates;
      kept = event.new.kept;
      has_more = event.new.has_more;
    } }
    ensures kept { event.new.kept ≤ 2 }
    ensures takes { TakesByte parser event byte true }
{
    event.kind = ESCAPE;
    event.byte = byte as u32;
    event.intermediates = parser.intermediates;
    event.kept = parser.kept.min(2);
    event.has_more = parser.has_more;
    parser.state = GROUND;
    parser.pending = 0;
}

/// Takes a byte of an escape sequence, or one that breaks it off.
#[inline(always)]
pub fn note_in_escape(parser: &mut EscParser, byte: u8, event: &mut EscEvent) -> bool
    requires { AskedIn ESCAPED parser.old event.old (event.old.kept ≤ 2) }
    ensures takes { TakesByte parser event byte result }
    ensures kind { (event.new.kind ≡ NONE) ⊎ (event.new.kind ≡ CHARACTER)
        ⊎ (event.new.kind ≡ CONTROL) ⊎ (event.new.kind ≡ ESCAPE) }
    ensures within { (event.new.count ≡ event.old.count) × (event.new.kept ≤ 2)
        × (event.new.length ≡ event.old.length) }
{
    match classify(byte) {
        Class::Introducer(kind) => {
            if parser.kept == 0 {
                open_after(parser, byte, kind);
            } else {
                dispatch(parser, byte, event);
            }
            true
        }
        Class::Intermediate => {
            push_intermediate(parser, byte);
            true
        }
        Class::Parameter | Class::Final => {
            dispatch(parser, byte, event);
            true
        }
        Class::C0 | Class::Bell | Class::Breaks(_) | Class::Delete | Class::High | Class::Lead =>
            note_noise(parser, byte, event),
    }
}
