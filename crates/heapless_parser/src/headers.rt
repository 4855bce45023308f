//! Headers of device control strings that come in chunks.
#![tactic(auto)]

ghost use Rattle.std.specs.Prelude.{◌≡◌, ◌⊎◌, ◌++◌, ◌∷◌, [], ℕ, List, true, false, length, min};
ghost use Rattle.esc_frame.specs.Bodies.{is_dcs_parameter};
ghost use Rattle.esc_frame.specs.Machine.Keeps.{next_form_by, parameters_of};
ghost use Rattle.esc_frame.specs.Scans.{is_body_byte};
ghost use Rattle.heapless_parser.specs.Asked.{AskedIn, EndsIn};
ghost use Rattle.heapless_parser.specs.Numbers.{form_numbered};
ghost use Rattle.heapless_parser.specs.States.{HeaderIn, TextIn};
ghost use Rattle.heapless_parser.specs.Takes.{AddsToHeader, IsInRoom, StaysIn, TakesEnd, TakesHeaderByte, TakesText};

use crate::breaks::cancel;
use crate::commands::append;
use crate::escapes::push_intermediate;
use crate::event::{CHARACTER, CONTROL, DCS, EscEvent, NONE};
use crate::numbers::{DATA_STATE, HEADER_STATE, IGNORED_STATE, MALFORMED, form_of, number_of_form};
use crate::parser::EscParser;
use crate::strings::put_text;
use esc_frame::classes::{Class, classify};
use esc_frame::unfinished::header::is_parameter;
use esc_frame::utf8::sequence::lies_from;

// Returns the form of a header after one more byte. It is that of a control sequence's body, but
// without 3A.
#[inline(always)]
fn next_form(form: u32, byte: u8) -> u32
    ensures { form_numbered result
        ≡ next_form_by is_dcs_parameter (form_numbered form) byte }
{
    if byte == b':' {
        MALFORMED
    } else {
        number_of_form(form_of(form).next(byte))
    }
}

// Adds a parameter byte. If the numbers are no parser's, returns false and changes nothing.
#[inline(always)]
fn push_parameter(parser: &mut EscParser, memory: &mut [u8], byte: u8) -> bool
    requires { is_dcs_parameter byte ≡ true }
    ensures { AddsToHeader parser memory byte result }
{
    if !append(parser, memory, &[byte]) {
        return false;
    }
    parser.form = next_form(parser.form, byte);
    true
}

// Adds a byte that is no parameter byte.
#[inline(always)]
fn push_other(parser: &mut EscParser, byte: u8)
    requires { is_dcs_parameter byte ≡ false }
    ensures same { StaysIn parser.new parser.old }
    ensures text { (x memory : List ℕ) → TextIn parser.old memory (parameters_of x)
        → TextIn parser.new memory (parameters_of (x ++ byte ∷ [])) }
    ensures header { (x : List ℕ) → HeaderIn parser.old x
        → HeaderIn parser.new (x ++ byte ∷ []) }
{
    push_intermediate(parser, byte);
    parser.form = next_form(parser.form, byte);
}

// Adds a byte of 20 to 3F.
#[inline(always)]
fn push(parser: &mut EscParser, memory: &mut [u8], byte: u8) -> bool
    requires state { parser.old.state ≡ HEADER_STATE }
    requires body { is_body_byte byte ≡ true }
    ensures { TakesText parser memory (byte ∷ []) result }
{
    if is_parameter(byte) {
        push_parameter(parser, memory, byte)
    } else {
        push_other(parser, byte);
        true
    }
}

// Copies the kept part of a header to an event.
#[inline(always)]
fn put_header(parser: &EscParser, byte: u8, event: &mut EscEvent)
    ensures event { event.new ≡ record event.old {
      byte = byte;
      intermediates = parser.now.intermediates;
      kept = event.new.kept;
      has_more = parser.now.has_more;
    } }
    ensures kept { event.new.kept ≡ min parser.now.kept 2 }
{
    event.byte = byte as u32;
    event.intermediates = parser.intermediates;
    event.kept = parser.kept.min(2);
    event.has_more = parser.has_more;
}

// Takes the final byte of a header. If the header is past the limit, returns false and changes
// nothing.
#[inline(never)]
fn end(
    parser: &mut EscParser,
    memory: &[u8],
    out: &mut [u8],
    byte: u8,
    event: &mut EscEvent,
) -> bool
    requires { EndsIn HEADER_STATE parser.old event.old byte (IsInRoom event.old (length out.old)) }
    ensures takes { TakesEnd parser memory.now out event byte result }
    ensures kind { (event.new.kind ≡ NONE) ⊎ (event.new.kind ≡ DCS) }
    ensures within { IsInRoom event.new (length out.old) }
{
    let count = parser.text;
    if parser.is_over || count > memory.len() || count > out.len() {
        return false;
    }
    if parser.form == MALFORMED {
        parser.state = IGNORED_STATE;
        return true;
    }
    put_text(out, event, DCS, &memory[..count]);
    put_header(parser, byte, event);
    parser.state = DATA_STATE;
    true
}

/// Takes a byte of a header, or one that breaks the string off. If it ends a header that is past
/// the limit, returns false and changes nothing.
#[inline(never)]
pub fn note_in_header(
    parser: &mut EscParser,
    memory: &mut [u8],
    out: &mut [u8],
    byte: u8,
    event: &mut EscEvent,
) -> bool
    requires { AskedIn HEADER_STATE parser.old event.old (IsInRoom event.old (length out.old)) }
    ensures takes { TakesHeaderByte parser memory out event byte result }
    ensures kind { (event.new.kind ≡ NONE) ⊎ (event.new.kind ≡ CHARACTER)
        ⊎ (event.new.kind ≡ CONTROL) ⊎ (event.new.kind ≡ DCS) }
    ensures within { IsInRoom event.new (length out.old) }
{
    if lies_from(0x20, 0x3f, byte) {
        return push(parser, memory, byte);
    }
    if lies_from(0x40, 0x7e, byte) {
        return end(parser, memory, out, byte, event);
    }
    match classify(byte) {
        Class::C0 | Class::Bell | Class::Delete | Class::High | Class::Lead => true,
        Class::Breaks(_) => {
            cancel(parser, byte, event);
            true
        }
        Class::Intermediate | Class::Parameter | Class::Introducer(_) | Class::Final => false,
    }
}
