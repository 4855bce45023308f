//! Takes the next events of some bytes.
#![tactic(auto)]

ghost use Rattle.std.specs.Prelude.{◌≡◌, ◌≤◌, ◌<◌, [], ℕ, List, true, false, length, take, IsTrue};
ghost use Rattle.heapless_parser.specs.Runs.{Emits, IsDueAs};
ghost use Rattle.heapless_parser.specs.Noted.{IsSound};
ghost use Rattle.heapless_parser.specs.Emitted.{queued_of, is_run};
ghost use Rattle.heapless_parser.specs.Ahead.{NotesFirst, NotesRun};
ghost use Rattle.heapless_parser.specs.Asked.{Asked, AskedWithin};
ghost use Rattle.heapless_parser.specs.Next.{Advances, IsReady, both};
ghost use Rattle.heapless_parser.specs.Takes.{IsInRoom};

use crate::chunks::note_part;
use crate::event::{CHARACTER, CONTROL, DATA, EscEvent, FAILED, NONE, TEXT};
use crate::limited::{Place, note_limited};
use crate::numbers::{DATA_STATE, GROUND};
use crate::parser::EscParser;
use crate::quick::note_quick;
use crate::runs::text_run;
use crate::step::step;
use crate::strings::note_string;
use esc_frame::runs::scans::data_run;

// Notes the run of characters or of data that comes first, in a state in which one may come. The
// state stays.
#[inline(always)]
fn run_ahead(parser: &EscParser, bytes: &[u8], event: &mut EscEvent) -> usize
    requires { Asked event.old bytes.now }
    ensures { NotesRun parser.now event bytes.now result }
{
    if parser.state == GROUND && parser.pending == 0 {
        note_run(event, TEXT, text_run(bytes))
    } else if parser.state == DATA_STATE {
        note_run(event, DATA, data_run(bytes))
    } else {
        0
    }
}

// Notes a run of this length, if there is one.
#[inline(always)]
fn note_run(event: &mut EscEvent, kind: u32, run: usize) -> usize
    ensures length { result ≡ run }
    ensures some { 0 < run → (event.new.kind ≡ kind) × (event.new.length ≡ run) }
    ensures none { run ≡ 0 → event.new ≡ event.old }
    ensures within { (event.new.count ≡ event.old.count) × (event.new.kept ≡ event.old.kept)
        × (event.new.start ≡ event.old.start) }
{
    if run > 0 {
        event.kind = kind;
        event.length = run;
    }
    run
}

// Notes the run, the control or the short control sequence that comes first, in a state in which
// one may come. If something else comes, it takes nothing.
#[inline(always)]
fn note_first(parser: &EscParser, bytes: &[u8], event: &mut EscEvent) -> usize
    requires { AskedWithin event.old bytes.now ((event.old.count ≤ 256) × (event.old.kept ≤ 2)) }
    ensures notes { NotesFirst event event.old.length bytes.now result }
    ensures same { (event.new.start ≡ event.old.start)
        × (is_run event.new.kind ≡ false → event.new.length ≡ event.old.length) }
    ensures emits { 0 < result → (out : List ℕ) (limit : ℕ)
        → Emits parser.now parser.now event.new out limit bytes.now (take result bytes.now) }
{
    let run = run_ahead(parser, bytes, event);
    if run > 0 {
        return run;
    }
    note_quick(parser, bytes, event)
}

/// Notes the run, the control, the sequence or the command that comes first, if it lies whole in
/// the bytes and needs no machine. If something else comes, it takes nothing.
#[inline(always)]
pub fn ahead(
    parser: &mut EscParser,
    limit: usize,
    out: &mut [u8],
    bytes: &[u8],
    event: &mut EscEvent,
) -> usize
    requires { AskedWithin event.old bytes.now (IsInRoom event.old (length out.old)) }
    ensures notes { NotesFirst event (length out.old) bytes.now result }
    ensures parser { (result ≡ 0 → parser.new ≡ parser.old) × IsDueAs parser.new parser.old }
    ensures emits { 0 < result
        → Emits parser.old parser.new event.new out.new limit bytes.now (take result bytes.now) }
{
    let first = note_first(parser, bytes, event);
    if first > 0 {
        return first;
    }
    note_string(parser, limit, out, bytes, event)
}

/// Takes a prefix of the bytes, at least one, and notes their event; a run begins at the first of
/// them. After a failure nothing counts as taken. No sound state fails.
pub fn advance(
    parser: &mut EscParser,
    memory: &mut [u8],
    out: &mut [u8],
    bytes: &[u8],
    event: &mut EscEvent,
) -> usize
    requires some { 0 < length bytes.now }
    requires ready { IsReady parser.old event.old (length out.old) }
    ensures { Advances parser (both memory.old out.old) (both memory.new out.new) bytes.now
        event.new result }
{
    let first = ahead(parser, memory.len(), out, bytes, event);
    if first > 0 {
        return first;
    }
    let part = note_part(parser, memory, out, bytes, event);
    if part > 0 {
        return part;
    }
    by_machine(parser, memory, out, bytes, event)
}

// Does the same by a machine, which it sets up. It is a function of its own, so that the other
// bytes need not pay for it.
#[inline(never)]
fn by_machine(
    parser: &mut EscParser,
    memory: &mut [u8],
    out: &mut [u8],
    bytes: &[u8],
    event: &mut EscEvent,
) -> usize
    requires some { 0 < length bytes.now }
    requires ready { IsReady parser.old event.old (length out.old) }
    ensures { Advances parser (both memory.old out.old) (both memory.new out.new) bytes.now
        event.new result }
{
    let before = Place::of(parser);
    let (taken, has_failed) = step(parser, memory, out, event, bytes);
    if has_failed || !is_sound(event, out.len()) || (event.kind == NONE && gives_queued(parser)) {
        event.clear();
        event.kind = FAILED;
        parser.has_failed = true;
        return 0;
    }
    note_limited(before, parser, event, &bytes[..taken]);
    taken
}

// Returns whether a character or a control is queued.
fn gives_queued(parser: &EscParser) -> bool
    ensures none { result ≡ false → queued_of parser.now.queued_kind parser.now.queued_value ≡ [] }
    ensures some { parser.now.queued_kind ≡ NONE → result ≡ false }
{
    parser.queued_kind == CHARACTER || parser.queued_kind == CONTROL
}

// Returns whether the event is no run and no failure, and its counts and its text are within
// bounds.
fn is_sound(event: &EscEvent, room: usize) -> bool
    ensures sound { IsTrue result → IsSound event.now room }
    ensures all { IsSound event.now room → IsTrue result }
{
    event.kind != TEXT
        && event.kind != DATA
        && event.kind < FAILED
        && event.count <= 256
        && event.kept <= 2
        && event.length <= room
}
