//! Sequences, strings and characters that lie in two chunks of the stream, taken without a machine.
#![tactic(auto)]

ghost use Rattle.std.specs.Prelude.{◌≡◌, ◌≤◌, ◌<◌, true, false, length};
ghost use Rattle.heapless_parser.specs.Asked.{AskedWithin, GoesOn, IsFresh};
ghost use Rattle.heapless_parser.specs.Emitted.{is_run};
ghost use Rattle.heapless_parser.specs.Takes.{GivesPart, IsInRoom, NotesSingle, TakesByte, TakesPart};
ghost use Rattle.heapless_parser.specs.Noted.{IsSound};
ghost use Rattle.heapless_parser.specs.Next.{IsReady};

use crate::bodies::note_in_csi;
use crate::breaks::cancel;
use crate::characters::{is_broken, note_broken, note_character};
use crate::commands::{note_in_apc, note_in_osc};
use crate::data::{note_ignored, note_in_data};
use crate::escapes::note_in_escape;
use crate::event::{CHARACTER, CONTROL, EscEvent, FAILED, NONE};
use crate::headers::note_in_header;
use crate::leaving::{end_string, is_breaker};
use crate::numbers::{
    APC_STATE, CSI_STATE, DATA_STATE, ESCAPED, GROUND, HEADER_STATE, IGNORED_STATE, OSC_STATE,
};
use crate::parser::EscParser;

// Takes a byte between sequences, or one of a character. If the byte breaks the character off,
// returns false and changes nothing.
#[inline(always)]
fn note_in_ground(parser: &mut EscParser, byte: u8, event: &mut EscEvent) -> bool
    requires ground { parser.old.state ≡ GROUND }
    requires none { event.old.kind ≡ NONE }
    ensures takes { TakesByte parser event byte result }
    ensures noted { NotesSingle CHARACTER CONTROL event }
{
    if parser.pending == 0 {
        cancel(parser, byte, event);
        true
    } else {
        note_character(parser, byte, event)
    }
}

// Takes the first byte, if it is one of a sequence, of a character or of data.
#[inline(always)]
fn note_byte(parser: &mut EscParser, byte: u8, event: &mut EscEvent) -> bool
    requires { IsFresh event.old ((event.old.count ≤ 256) × (event.old.kept ≤ 2)) }
    ensures takes { TakesByte parser event byte result }
    ensures kind { (event.new.kind < FAILED) × (is_run event.new.kind ≡ false) }
    ensures within { (event.new.count ≤ 256) × (event.new.kept ≤ 2)
        × (event.new.length ≡ event.old.length) }
{
    if parser.state == CSI_STATE {
        note_in_csi(parser, byte, event)
    } else if parser.state == GROUND {
        note_in_ground(parser, byte, event)
    } else if parser.state == ESCAPED {
        note_in_escape(parser, byte, event)
    } else if parser.state == DATA_STATE {
        note_in_data(parser, byte, event)
    } else {
        false
    }
}

// Takes the first byte, if it is one of a header.
#[inline(always)]
fn note_header(
    parser: &mut EscParser,
    memory: &mut [u8],
    out: &mut [u8],
    bytes: &[u8],
    event: &mut EscEvent,
) -> usize
    requires { GoesOn HEADER_STATE parser.old event.old bytes.now
        (IsInRoom event.old (length out.old)) }
    ensures few { result ≤ 1 }
    ensures takes { TakesPart parser memory out event bytes.now result }
    ensures sound { IsSound event.new (length out.old) }
{
    if note_in_header(parser, memory, out, bytes[0], event) {
        1
    } else {
        0
    }
}

// Takes the bytes that come first, at least one, if they continue or begin a sequence, a string or
// a character. If something else comes, it takes nothing.
#[inline(always)]
fn note_step(
    parser: &mut EscParser,
    memory: &mut [u8],
    out: &mut [u8],
    bytes: &[u8],
    event: &mut EscEvent,
) -> usize
    requires { AskedWithin event.old bytes.now (IsInRoom event.old (length out.old)) }
    ensures takes { TakesPart parser memory out event bytes.now result }
    ensures sound { IsSound event.new (length out.old) }
{
    if parser.state == OSC_STATE {
        note_in_osc(parser, memory, out, bytes, event)
    } else if parser.state == IGNORED_STATE {
        note_ignored(parser, bytes)
    } else if parser.state == APC_STATE {
        note_in_apc(parser, memory, out, bytes, event)
    } else if parser.state == HEADER_STATE {
        note_header(parser, memory, out, bytes, event)
    } else if note_byte(parser, bytes[0], event) {
        1
    } else {
        0
    }
}

/// Takes the bytes that come first, at least one, if they continue, begin or break off a sequence,
/// a string or a character. If something else comes, it takes nothing and leaves it to the machine.
#[inline(always)]
pub fn note_part(
    parser: &mut EscParser,
    memory: &mut [u8],
    out: &mut [u8],
    bytes: &[u8],
    event: &mut EscEvent,
) -> usize
    requires some { 0 < length bytes.now }
    requires ready { IsReady parser.old event.old (length out.old) }
    ensures takes { GivesPart parser memory out event bytes.now result }
    ensures sound { IsSound event.new (length out.old) }
{
    let step = note_step(parser, memory, out, bytes, event);
    if step > 0 {
        return step;
    }
    let byte = bytes[0];
    if parser.state == GROUND && is_broken(parser, byte) {
        note_broken(parser, byte, event);
        1
    } else if is_breaker(byte) && end_string(parser, memory, out, byte, event) {
        1
    } else {
        0
    }
}
