//! Controls and short control sequences in ground, noted without a machine.
#![tactic(auto)]

ghost use Rattle.std.specs.Prelude.{◌≡◌, ◌≢◌, ◌≤◌, ◌<◌, ◌∷◌, [], ℕ, List, false, length, map, take, slice_index};
ghost use Rattle.esc_frame.specs.Events.Event.{CsiDispatch};
ghost use Rattle.heapless_parser.specs.Emitted.{param_of, sent_events};
ghost use Rattle.heapless_parser.specs.Ahead.{NotesInGround, NotesPlain, NotesQuick};
ghost use Rattle.heapless_parser.specs.Asked.{AskedWithin};

use crate::event::{CONTROL, CSI, EscEvent, TEXT};
use crate::numbers::GROUND;
use crate::parser::EscParser;
use crate::runs::plain_text;
use esc_frame::unfinished::fields::read_body;
use esc_frame::utf8::sequence::lies_from;

/// Notes the control, or the short control sequence whole in the bytes, that comes first in ground.
/// If something else comes, it takes nothing.
#[inline(always)]
pub fn note_quick(parser: &EscParser, bytes: &[u8], event: &mut EscEvent) -> usize
    requires { AskedWithin event.old bytes.now (event.old.count ≤ 256) }
    ensures { NotesInGround parser.now event bytes.now result }
{
    if parser.state != GROUND || parser.pending != 0 {
        return 0;
    }
    if bytes[0] >= 0x20 {
        0
    } else if bytes[0] == 0x1b {
        note_csi(bytes, event, true)
    } else {
        event.kind = CONTROL;
        event.byte = bytes[0] as u32;
        1
    }
}

/// Notes the run of bytes 20 to 7F, or the control, that comes first in ground. If something else
/// comes, it takes nothing. `few` says that the bytes are looked at one by one.
#[inline(always)]
pub fn note_plain(bytes: &[u8], event: &mut EscEvent, few: bool) -> usize
    requires some { 0 < length bytes.now }
    requires other { slice_index bytes.now 0 ≢ 0x1b }
    ensures { NotesPlain event bytes.now result }
{
    if bytes[0] < 0x20 {
        put_plain(event, CONTROL, 0, bytes[0]);
        return 1;
    }
    let run = plain_text(bytes, few);
    if run > 0 {
        put_plain(event, TEXT, run, 0);
    }
    run
}

// Notes an event without parameters and intermediates.
#[inline(always)]
fn put_plain(event: &mut EscEvent, kind: u32, run: usize, byte: u8)
    ensures kind { (event.new.kind ≡ kind) × (event.new.byte ≡ byte) }
    ensures length { event.new.length ≡ run }
    ensures none { (event.new.count ≡ 0) × (event.new.kept ≡ 0) × (event.new.start ≡ 0) }
{
    event.kind = kind;
    event.byte = byte as u32;
    event.start = 0;
    event.length = run;
    event.kept = 0;
    event.count = 0;
}

/// Notes a control sequence of at most 32 parameters: if `any`, one of any form, else one of a
/// common form. It writes the parameters to the event, even if it then takes nothing.
#[inline(always)]
pub fn note_csi(bytes: &[u8], event: &mut EscEvent, any: bool) -> usize
    requires escape { slice_index bytes.now 0 ≡ 0x1b }
    ensures notes { NotesQuick event bytes.now result }
    ensures some { 0 < result → (event.new.kind ≡ CSI) × (event.new.count ≤ 256) }
{
    if bytes.len() <= 2 {
        return 0;
    }
    if bytes[1] != b'[' {
        return 0;
    }
    let body = read_body(&mut event.csi_params, &bytes[2..], any);
    if lies_from(0x40, 0x7e, body.after) {
        end_csi(event, body.count, body.after);
        body.length + 3
    } else {
        0
    }
}

// Notes the final byte of a control sequence whose `count` parameters were written.
#[inline(always)]
fn end_csi(event: &mut EscEvent, count: usize, byte: u8)
    ensures said { (out : List ℕ) → sent_events event.new out
        ≡ CsiDispatch (map param_of (take count event.old.csi_params)) false byte ∷ [] }
    ensures kind { event.new.kind ≡ CSI }
    ensures count { event.new.count ≡ count }
    ensures within { (event.new.kept ≡ event.old.kept) × (event.new.length ≡ event.old.length)
        × (event.new.start ≡ event.old.start) }
{
    event.count = count;
    event.has_more = false;
    event.byte = byte as u32;
    event.kind = CSI;
}
