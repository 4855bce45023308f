//! A parser that takes a stream in chunks, in its caller's memory.
#![tactic(auto)]

ghost use Rattle.std.specs.Prelude.{◌≡◌, ◌≤◌, ◌<◌, length, IsTrue, slice_index};
ghost use Rattle.heapless_parser.specs.Next.{Next, NeverFails, IsReady, ToEvent, IsPlain, both, halves};
ghost use Rattle.heapless_parser.specs.States.{lower};
ghost use Rattle.heapless_parser.specs.Ahead.{GivesQueued};

use crate::advance::{advance, ahead};
use crate::event::{CHARACTER, CONTROL, EscEvent, FAILED, NONE};
use crate::numbers::GROUND;
use crate::parser::EscParser;
use crate::quick::{note_csi, note_plain};

// From this many bytes on, the first look needs no check for their end.
const MANY: usize = 16;

/// Takes bytes of a stream up to the next event, notes the event, and returns how many bytes were
/// taken: all of them, where there is no event.
///
/// Its promises are the fields of the record `Next` of `specs/Next.antt`. A parser that was only
/// called with this buffer, whose lower half nobody else wrote, never fails.
pub fn next(parser: &mut EscParser, buffer: &mut [u8], bytes: &[u8], event: &mut EscEvent) -> usize
    ensures holds { Next parser (halves buffer.old) (halves buffer.new) bytes.now event.new result }
    ensures sound { NeverFails parser.old (lower buffer.old) event.new }
{
    if is_idle(parser) {
        if bytes.is_empty() {
            event.clear();
            return 0;
        }
        if bytes[0] != 0x1b {
            let taken = note_plain(bytes, event, bytes.len() < MANY);
            if taken > 0 {
                return taken;
            }
        } else if bytes.len() >= MANY {
            return next_at_escape(parser, buffer, bytes, event);
        }
    }
    resume(parser, buffer, bytes, event)
}

// Returns whether no segment is unfinished and no event is queued.
#[inline(always)]
fn is_idle(parser: &EscParser) -> bool
    ensures { IsTrue result → IsPlain parser.now }
{
    !parser.has_failed
        & (parser.queued_kind == NONE)
        & (parser.state == GROUND)
        & (parser.pending == 0)
}

// Does the work of `next` at an ESC that begins a segment: notes a short control sequence at once.
#[inline(never)]
fn next_at_escape(
    parser: &mut EscParser,
    buffer: &mut [u8],
    bytes: &[u8],
    event: &mut EscEvent,
) -> usize
    requires plain { IsPlain parser.old }
    requires escape { (0 < length bytes.now) × (slice_index bytes.now 0 ≡ 0x1b) }
    ensures holds { Next parser (halves buffer.old) (halves buffer.new) bytes.now event.new result }
    ensures sound { NeverFails parser.old (lower buffer.old) event.new }
{
    event.start = 0;
    event.length = 0;
    event.kept = 0;
    let taken = note_csi(bytes, event, false);
    if taken > 0 {
        taken
    } else {
        resume(parser, buffer, bytes, event)
    }
}

// Does the work of `next` in any state, without the first look.
#[inline(never)]
fn resume(parser: &mut EscParser, buffer: &mut [u8], bytes: &[u8], event: &mut EscEvent) -> usize
    ensures holds { Next parser (halves buffer.old) (halves buffer.new) bytes.now event.new result }
    ensures sound { NeverFails parser.old (lower buffer.old) event.new }
{
    let half = buffer.len() / 2;
    let (memory, out) = buffer.split_at_mut(half);
    resume_in(parser, memory, out, bytes, event)
}

// Hands out the queued event, or takes bytes up to the first event.
#[inline(always)]
fn resume_in(
    parser: &mut EscParser,
    memory: &mut [u8],
    out: &mut [u8],
    bytes: &[u8],
    event: &mut EscEvent,
) -> usize
    ensures holds { Next parser (both memory.old out.old) (both memory.new out.new) bytes.now
        event.new result }
    ensures sound { length memory.old ≤ length out.old
        → NeverFails parser.old memory.old event.new }
{
    event.clear();
    if parser.has_failed {
        event.kind = FAILED;
        return 0;
    }
    if give_queued(parser, event) {
        return 0;
    }
    advance_to_event(parser, memory, out, bytes, event)
}

// Hands out the queued character or control, if there is one.
#[inline(always)]
fn give_queued(parser: &mut EscParser, event: &mut EscEvent) -> bool
    requires { event.old.kind ≡ NONE }
    ensures { GivesQueued parser event result }
{
    if parser.queued_kind == NONE {
        return false;
    }
    let kind = parser.queued_kind;
    parser.queued_kind = NONE;
    if kind == CHARACTER || kind == CONTROL {
        event.kind = kind;
        event.byte = parser.queued_value;
        true
    } else {
        false
    }
}

// Takes bytes up to the first event, or all of them. After a failure the number of bytes taken has
// no meaning.
#[inline(always)]
fn advance_to_event(
    parser: &mut EscParser,
    memory: &mut [u8],
    out: &mut [u8],
    bytes: &[u8],
    event: &mut EscEvent,
) -> usize
    requires { IsReady parser.old event.old (length out.old) }
    ensures { ToEvent parser (both memory.old out.old) (both memory.new out.new) bytes.now
        event.new result }
{
    if bytes.len() >= MANY {
        let first = ahead(parser, memory.len(), out, bytes, event);
        if first > 0 {
            event.start = 0;
            return first;
        }
    }
    let mut at = 0;
    while at < bytes.len() {
        let taken = advance(parser, memory, out, &bytes[at..], event);
        if event.kind != NONE {
            event.start = at;
            return at + taken;
        }
        at += taken;
    }
    at
}
