//! Control sequences that come in chunks: each byte of a body changes what the parser keeps of it,
//! in its place.
#![tactic(auto)]

ghost use Rattle.std.specs.Prelude.{◌≡◌, ◌≤◌, ◌<◌, ◌⊎◌, ◌++◌, ◌∷◌, [], ℕ, List, Option, true, false, length, take};
ghost use Rattle.esc_values.specs.declared.csi_param.CsiParam.{CsiParam as Param};
ghost use Rattle.esc_frame.specs.Bodies.{is_digit, capped_at_i64};
ghost use Rattle.esc_frame.specs.Machine.Keeps.{params_with, number_at};
ghost use Rattle.heapless_parser.specs.Asked.{AskedIn, EndsIn};
ghost use Rattle.heapless_parser.specs.States.{NumberIn, ParamsIn};
ghost use Rattle.heapless_parser.specs.Emitted.{param_of};
ghost use Rattle.heapless_parser.specs.Takes.{AddsToBody, KeepsForm, NotesCsi, TakesByte};

use crate::escapes::note_noise;
use crate::event::{CHARACTER, CONTROL, CSI, EscEntry, EscEvent, NONE};
use crate::numbers::{CSI_STATE, GROUND, MALFORMED, form_of, number_of_form};
use crate::parser::EscParser;
use esc_frame::unfinished::csi_params::next_number;
use esc_frame::unfinished::fields::put;
use esc_frame::utf8::sequence::lies_from;

const MAX_NUMBER: u64 = 0x7fff_ffff_ffff_ffff;

// Adds a parameter, if there is room for it.
#[inline(always)]
fn add(parser: &mut EscParser, entry: EscEntry)
    ensures first { (all : List Param) → ParamsIn parser.old all
        → ParamsIn parser.new (all ++ param_of entry ∷ []) }
    ensures number { parser.new.is_open ≡ parser.old.is_open }
    ensures same { KeepsForm parser.new parser.old }
{
    if parser.is_truncated {
        return;
    }
    if parser.count < 256 {
        put(&mut parser.csi_params, parser.count, entry);
        parser.count += 1;
    } else {
        parser.is_truncated = true;
    }
}

// Ends the run of digits at the end, if there is one: then the parameters are all.
#[inline(always)]
fn close(parser: &mut EscParser)
    ensures first { (o : Option ℕ) (all : List Param) → NumberIn parser.old o
        → ParamsIn parser.old all → ParamsIn parser.new (all ++ params_with o) }
    ensures number { parser.new.is_open ≡ false }
    ensures same { KeepsForm parser.new parser.old }
{
    if parser.is_open {
        parser.is_open = false;
        let entry = EscEntry {
            number: parser.number.min(MAX_NUMBER) as i64,
            byte: 0,
            is_byte: false,
        };
        add(parser, entry);
    }
}

// Returns the number of the run of digits at the end, or 0.
#[inline(always)]
fn number_so_far(parser: &EscParser) -> u64
    ensures value { (o : Option ℕ) → NumberIn parser.now o → result ≡ capped_at_i64 (number_at o) }
    ensures small { result ≤ 0x7fff_ffff_ffff_ffff }
{
    if parser.is_open {
        parser.number.min(MAX_NUMBER)
    } else {
        0
    }
}

// Adds a digit to the body.
#[inline(always)]
fn push_digit(parser: &mut EscParser, byte: u8)
    requires low { 0x30 ≤ byte }
    requires high { byte ≤ 0x39 }
    ensures { AddsToBody parser byte }
{
    parser.number = next_number(number_so_far(parser), byte - b'0');
    parser.is_open = true;
    parser.form = number_of_form(form_of(parser.form).next(byte));
}

// Adds a byte that is no digit to the body.
#[inline(always)]
fn push_other(parser: &mut EscParser, byte: u8)
    requires { is_digit byte ≡ false }
    ensures { AddsToBody parser byte }
{
    close(parser);
    let entry = EscEntry {
        number: 0,
        byte,
        is_byte: true,
    };
    add(parser, entry);
    parser.form = number_of_form(form_of(parser.form).next(byte));
}

// Adds a byte to the body.
#[inline(always)]
fn push(parser: &mut EscParser, byte: u8)
    ensures { AddsToBody parser byte }
{
    if lies_from(0x30, 0x39, byte) {
        push_digit(parser, byte)
    } else {
        push_other(parser, byte)
    }
}

// Copies the first `count` parameters.
#[inline(always)]
fn copy_params(csi_params: &mut [EscEntry], params: &[EscEntry], count: usize)
    requires room { count ≤ length csi_params.old }
    requires some { count ≤ length params.now }
    ensures { take count csi_params.new ≡ take count params.now }
{
    csi_params[..count].copy_from_slice(&params[..count]);
}

// Notes a control sequence whose parameters are all, if its body has its form.
#[inline(always)]
fn end(parser: &mut EscParser, byte: u8, event: &mut EscEvent)
    requires { EndsIn CSI_STATE parser.old event.old byte (event.old.count ≤ 256) }
    ensures kind { (event.new.kind ≡ NONE) ⊎ (event.new.kind ≡ CSI) }
    ensures noted { NotesCsi event }
    ensures takes { TakesByte parser event byte true }
{
    close(parser);
    parser.state = GROUND;
    parser.pending = 0;
    if parser.form == MALFORMED {
        return;
    }
    let count = parser.count.min(256);
    copy_params(&mut event.csi_params, &parser.csi_params, count);
    event.count = count;
    event.has_more = parser.is_truncated;
    event.byte = byte as u32;
    event.kind = CSI;
}

/// Takes a byte of a control sequence, or one that breaks it off.
#[inline(always)]
pub fn note_in_csi(parser: &mut EscParser, byte: u8, event: &mut EscEvent) -> bool
    requires { AskedIn CSI_STATE parser.old event.old (event.old.count ≤ 256) }
    ensures takes { TakesByte parser event byte result }
    ensures kind { (event.new.kind ≡ NONE) ⊎ (event.new.kind ≡ CHARACTER)
        ⊎ (event.new.kind ≡ CONTROL) ⊎ (event.new.kind ≡ CSI) }
    ensures noted { NotesCsi event }
{
    if lies_from(0x20, 0x3f, byte) {
        push(parser, byte);
        true
    } else if lies_from(0x40, 0x7e, byte) {
        end(parser, byte, event);
        true
    } else {
        note_noise(parser, byte, event)
    }
}
