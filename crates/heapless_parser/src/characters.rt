//! Characters whose bytes come in chunks.
#![tactic(auto)]

ghost use Rattle.std.specs.Prelude.{◌≡◌, true, false};
ghost use Rattle.esc_frame.specs.Machine.Prefixes.{prefix_of};
ghost use Rattle.esc_frame.specs.Segments.{is_empty};
ghost use Rattle.esc_frame.specs.Sequences.{outcome};
ghost use Rattle.heapless_parser.specs.Asked.{BreaksCharacter};
ghost use Rattle.heapless_parser.specs.States.{begun_in};
ghost use Rattle.heapless_parser.specs.Takes.{GivesByte, NotesSingle, TakesByte};

use crate::breaks::{REPLACEMENT, note_pair};
use crate::event::{CHARACTER, CONTROL, EscEvent, NONE};
use crate::leaving::queue_in_ground;
use crate::numbers::{GROUND, numbers_of_pending, pending_in};
use crate::parser::EscParser;
use esc_frame::utf8::sequence::{Outcome, Pending};

/// Keeps the bytes of a character that have come.
#[inline(always)]
pub fn put_pending(parser: &mut EscParser, pending: Pending)
    ensures begun { begun_in parser.new ≡ prefix_of pending }
    ensures same { parser.new ≡ record parser.old {
      pending = parser.new.pending;
      first = parser.new.first;
      second = parser.new.second;
      third = parser.new.third;
    } }
{
    let (count, first, second, third) = numbers_of_pending(pending);
    parser.pending = count;
    parser.first = first;
    parser.second = second;
    parser.third = third;
}

/// Takes a byte of a character or of a C1 control, the first or a later one. If the byte is none,
/// returns false and changes nothing.
#[inline(always)]
pub fn note_character(parser: &mut EscParser, byte: u8, event: &mut EscEvent) -> bool
    requires ground { parser.old.state ≡ GROUND }
    requires none { event.old.kind ≡ NONE }
    ensures takes { TakesByte parser event byte result }
    ensures noted { NotesSingle CHARACTER CONTROL event }
{
    let pending = pending_in(parser);
    match pending.outcome(byte) {
        Outcome::Whole => {
            if pending.pairs_with(byte) {
                note_pair(parser, byte, event);
                return true;
            }
            event.kind = CHARACTER;
            event.byte = pending.character(byte) as u32;
            parser.pending = 0;
            true
        }
        Outcome::More => {
            put_pending(parser, pending.with(byte));
            true
        }
        Outcome::Broken => false,
    }
}

/// Returns whether the byte breaks off a character that has begun.
pub fn is_broken(parser: &EscParser, byte: u8) -> bool
    ensures outcome { result ≡ true → outcome (begun_in parser.now) byte ≡ Outcome.Broken }
    ensures some { result ≡ true → is_empty (begun_in parser.now) ≡ false }
{
    let pending = pending_in(parser);
    match pending {
        Pending::Nothing => false,
        Pending::One(_) | Pending::Two(_, _) | Pending::Three(_, _, _) => matches!(
            pending.outcome(byte),
            Outcome::Broken
        ),
    }
}

/// Notes a character that was broken off, as U+FFFD. The event of the byte that broke it off is
/// queued.
pub fn note_broken(parser: &mut EscParser, byte: u8, event: &mut EscEvent)
    requires { BreaksCharacter parser.old byte }
    ensures event { event.new ≡ record event.old { kind = CHARACTER; byte = REPLACEMENT } }
    ensures takes { GivesByte parser event.new byte }
{
    queue_in_ground(parser, byte);
    event.kind = CHARACTER;
    event.byte = REPLACEMENT;
}
