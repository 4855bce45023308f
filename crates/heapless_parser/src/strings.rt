//! Commands that lie whole in the bytes, and the final byte of an escape sequence, noted without a
//! machine.
#![tactic(auto)]

ghost use Rattle.std.specs.Prelude.{◌≡◌, ◌≤◌, ◌<◌, [], ℕ, List, false, length};
ghost use Rattle.esc_frame.specs.Machine.Taking.{OpensOsc};
ghost use Rattle.heapless_parser.specs.Asked.{FedIn};
ghost use Rattle.heapless_parser.specs.Puts.{PutsEscape, PutsText};
ghost use Rattle.heapless_parser.specs.Runs.{Notes, closes_escape};
ghost use Rattle.heapless_parser.specs.Takes.{IsInRoom, NotesFinal, NotesSequence, NotesText, TakesWhole};

use crate::event::{ESCAPE, EscEvent, OSC};
use crate::numbers::{ESCAPED, GROUND};
use crate::openers::escape;
use crate::parser::EscParser;
use esc_frame::classes::{Class, classify};
use esc_frame::runs::scans::units_run;

/// Copies a text to the place that it is handed out in.
#[inline(always)]
pub fn put_text(out: &mut [u8], event: &mut EscEvent, kind: u32, text: &[u8])
    requires { length text.now ≤ length out.old }
    ensures { PutsText kind text.now out.new event }
{
    out[..text.len()].copy_from_slice(text);
    event.length = text.len();
    event.kind = kind;
}

// Notes an operating system command that BEL ends, or an ESC, which begins the next sequence. A
// text that has no room is left to the machine.
#[inline(never)]
fn note_osc(
    parser: &mut EscParser,
    limit: usize,
    out: &mut [u8],
    bytes: &[u8],
    event: &mut EscEvent,
) -> usize
    requires opens { OpensOsc bytes.now }
    requires ground { (parser.old.state ≡ GROUND) × (parser.old.pending ≡ 0) }
    ensures takes { TakesWhole parser event bytes.now result
        (Notes parser.old parser.new event.new out.new limit) }
    ensures noted { NotesText OSC (length out.old) event (0 < result) }
{
    let run = units_run(&bytes[2..]);
    if run == bytes.len() - 2 || run > limit || run > out.len() {
        return 0;
    }
    if bytes[run + 2] == 0x1b {
        escape(parser);
        put_text(out, event, OSC, &bytes[2..run + 2]);
        run + 3
    } else if bytes[run + 2] == 0x07 {
        put_text(out, event, OSC, &bytes[2..run + 2]);
        run + 3
    } else {
        0
    }
}

// Takes the final byte of an escape sequence without intermediates, if it opens nothing.
#[inline(always)]
fn note_final(parser: &mut EscParser, bytes: &[u8], event: &mut EscEvent) -> usize
    requires { FedIn ESCAPED parser.old bytes.now }
    ensures few { result ≤ 1 }
    ensures takes { TakesWhole parser event bytes.now result (λ x. (out : List ℕ) (limit : ℕ)
        → Notes parser.old parser.new event.new out limit x) }
    ensures noted { NotesFinal event (0 < result) }
{
    if parser.kept > 0 {
        return 0;
    }
    if closes_escape(classify(bytes[0])) {
        put_final(event, bytes[0]);
        parser.state = GROUND;
        parser.pending = 0;
        1
    } else {
        0
    }
}

// Returns whether a byte of this class ends an escape sequence of an ESC alone.
#[inline(always)]
fn closes_escape(class: Class) -> bool
    ensures { result ≡ closes_escape class }
{
    match class {
        Class::Parameter | Class::Final => true,
        Class::C0
        | Class::Bell
        | Class::Breaks(_)
        | Class::Intermediate
        | Class::Introducer(_)
        | Class::Delete
        | Class::High
        | Class::Lead => false,
    }
}

// Notes an escape sequence of an ESC and this byte.
#[inline(always)]
fn put_final(event: &mut EscEvent, byte: u8)
    ensures { PutsEscape [] false byte event }
{
    event.kind = ESCAPE;
    event.kept = 0;
    event.has_more = false;
    event.byte = byte as u32;
}

/// Notes the command that lies whole in the bytes, or the final byte of an escape sequence, that
/// comes first. If something else comes, it takes nothing.
#[inline(always)]
pub fn note_string(
    parser: &mut EscParser,
    limit: usize,
    out: &mut [u8],
    bytes: &[u8],
    event: &mut EscEvent,
) -> usize
    requires some { 0 < length bytes.now }
    requires within { IsInRoom event.old (length out.old) }
    ensures takes { TakesWhole parser event bytes.now result
        (Notes parser.old parser.new event.new out.new limit) }
    ensures noted { NotesSequence event.new (length out.old) (0 < result) }
{
    if parser.state == ESCAPED {
        return note_final(parser, bytes, event);
    }
    if parser.state != GROUND || parser.pending != 0 || bytes.len() <= 2 {
        return 0;
    }
    if bytes[0] == 0x1b && bytes[1] == b']' {
        note_osc(parser, limit, out, bytes, event)
    } else {
        0
    }
}
