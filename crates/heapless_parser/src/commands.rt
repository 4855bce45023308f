//! Operating system and application program commands whose text comes in chunks: it is appended
//! where the parser keeps it.
#![tactic(auto)]

ghost use Rattle.std.specs.Prelude.{◌≡◌, ◌≤◌, ◌++◌, ◌∷◌, [], true, false, length};
ghost use Rattle.std.specs.List.{list_all};
ghost use Rattle.esc_frame.specs.Scans.{is_text_byte};
ghost use Rattle.esc_frame.specs.Machine.TextRuns.{IsTextRun};
ghost use Rattle.esc_frame.specs.Machine.Prefixes.{prefix_of};
ghost use Rattle.heapless_parser.specs.Runs.{Passes};
ghost use Rattle.heapless_parser.specs.Asked.{GoesOn};
ghost use Rattle.heapless_parser.specs.Takes.{Appends, NotesText, TakesEnd, TakesPartOf, TakesText};

use crate::characters::put_pending;
use crate::event::{APC, EscEvent, OSC};
use crate::numbers::{APC_STATE, GROUND, OSC_STATE, pending_in};
use crate::openers::escape;
use crate::parser::EscParser;
use crate::strings::put_text;
use esc_frame::classes::{Class, classify};
use esc_frame::runs::scans::{ascii_run, units_run};
use esc_frame::utf8::sequence::{Outcome, Pending};

/// Appends to the kept text, or notes that it is past the limit. If the numbers are no parser's,
/// returns false and changes nothing.
#[inline(always)]
pub fn append(parser: &mut EscParser, memory: &mut [u8], text: &[u8]) -> bool
    ensures { Appends parser memory text.now result }
{
    let count = parser.text;
    if parser.is_over {
        return true;
    }
    if count > memory.len() {
        return false;
    }
    if text.len() > memory.len() - count {
        parser.is_over = true;
        return true;
    }
    let end = count + text.len();
    memory[count..end].copy_from_slice(text);
    parser.text = end;
    true
}

// Appends a character: the bytes that came before, and its last byte.
fn append_character(parser: &mut EscParser, memory: &mut [u8], pending: Pending, byte: u8) -> bool
    ensures { Appends parser memory (prefix_of pending ++ byte ∷ []) result }
{
    match pending {
        Pending::Nothing => append(parser, memory, &[byte]),
        Pending::One(a) => append(parser, memory, &[a, byte]),
        Pending::Two(a, second) => append(parser, memory, &[a, second, byte]),
        Pending::Three(a, second, third) => append(parser, memory, &[a, second, third, byte]),
    }
}

// Takes a byte of a character, the first or a later one. If the byte is none, or ends a control,
// returns false and changes nothing.
#[inline(never)]
fn note_wide(parser: &mut EscParser, memory: &mut [u8], byte: u8) -> bool
    requires { parser.old.state ≡ OSC_STATE }
    ensures { TakesText parser memory (byte ∷ []) result }
{
    let pending = pending_in(parser);
    match pending.outcome(byte) {
        Outcome::Whole => {
            if pending.pairs_with(byte) || !append_character(parser, memory, pending, byte) {
                return false;
            }
            parser.pending = 0;
            true
        }
        Outcome::More => {
            put_pending(parser, pending.with(byte));
            true
        }
        Outcome::Broken => false,
    }
}

// Appends the units of the text that come first.
#[inline(always)]
fn note_units(parser: &mut EscParser, memory: &mut [u8], text: &[u8]) -> bool
    requires state { (parser.old.state ≡ OSC_STATE) × (parser.old.pending ≡ 0) }
    requires units { IsTextRun text.now }
    ensures { TakesText parser memory text.now result }
{
    append(parser, memory, text)
}

// Hands out the text at the BEL that ends it, or at an ESC, which begins the next sequence. If the
// byte is another one, or the text is past the limit, returns false and changes nothing.
#[inline(always)]
fn end(
    parser: &mut EscParser,
    memory: &[u8],
    out: &mut [u8],
    byte: u8,
    event: &mut EscEvent,
) -> bool
    requires state { (parser.old.state ≡ OSC_STATE) × (parser.old.pending ≡ 0) }
    ensures takes { TakesEnd parser memory.now out event byte result }
    ensures noted { NotesText OSC (length out.old) event (result ≡ true) }
{
    let count = parser.text;
    if parser.is_over || count > memory.len() || count > out.len() {
        return false;
    }
    if byte == 0x07 {
        parser.state = GROUND;
    } else if byte == 0x1b {
        escape(parser);
    } else {
        return false;
    }
    put_text(out, event, OSC, &memory[..count]);
    true
}

/// Takes the text of an operating system command that comes first, a byte of a character in it, or
/// the byte that ends it. If something else comes, or the text is past the limit, it takes nothing.
#[inline(always)]
pub fn note_in_osc(
    parser: &mut EscParser,
    memory: &mut [u8],
    out: &mut [u8],
    bytes: &[u8],
    event: &mut EscEvent,
) -> usize
    requires { GoesOn OSC_STATE parser.old event.old bytes.now (event.old.length ≤ length out.old) }
    ensures { TakesPartOf OSC parser memory out event bytes.now result }
{
    if parser.pending == 0 {
        let run = units_run(bytes);
        if run > 0 {
            return if note_units(parser, memory, &bytes[..run]) {
                run
            } else {
                0
            };
        }
        if end(parser, memory, out, bytes[0], event) {
            return 1;
        }
    }
    if note_wide(parser, memory, bytes[0]) || skips_in_osc(parser, bytes[0]) {
        1
    } else {
        0
    }
}

// Returns whether the byte is ignored in an operating system command.
#[inline(always)]
fn skips_in_osc(parser: &EscParser, byte: u8) -> bool
    requires { parser.now.state ≡ OSC_STATE }
    ensures { result ≡ true → Passes parser.now parser.now (byte ∷ []) }
{
    if parser.pending != 0 {
        return false;
    }
    match classify(byte) {
        Class::C0 | Class::High => true,
        Class::Bell
        | Class::Breaks(_)
        | Class::Intermediate
        | Class::Parameter
        | Class::Introducer(_)
        | Class::Final
        | Class::Delete
        | Class::Lead => false,
    }
}

// Appends the bytes 20 to 7F that come first.
#[inline(always)]
fn note_text(parser: &mut EscParser, memory: &mut [u8], text: &[u8]) -> bool
    requires state { parser.old.state ≡ APC_STATE }
    requires text { list_all is_text_byte text.now ≡ true }
    ensures { TakesText parser memory text.now result }
{
    append(parser, memory, text)
}

// Hands out the text at the ESC that ends it. If the text is past the limit, returns false and
// changes nothing.
#[inline(always)]
fn end_apc(
    parser: &mut EscParser,
    memory: &[u8],
    out: &mut [u8],
    byte: u8,
    event: &mut EscEvent,
) -> bool
    requires state { parser.old.state ≡ APC_STATE }
    requires escape { byte ≡ 0x1b }
    ensures takes { TakesEnd parser memory.now out event byte result }
    ensures noted { NotesText APC (length out.old) event (result ≡ true) }
{
    let count = parser.text;
    if parser.is_over || count > memory.len() || count > out.len() {
        return false;
    }
    escape(parser);
    put_text(out, event, APC, &memory[..count]);
    true
}

// Returns whether the byte is ignored in an application program command.
#[inline(always)]
fn skips_in_apc(parser: &EscParser, byte: u8) -> bool
    requires { parser.now.state ≡ APC_STATE }
    ensures { result ≡ true → Passes parser.now parser.now (byte ∷ []) }
{
    match classify(byte) {
        Class::C0 | Class::Bell | Class::High | Class::Lead => true,
        Class::Breaks(_)
        | Class::Intermediate
        | Class::Parameter
        | Class::Introducer(_)
        | Class::Final
        | Class::Delete => false,
    }
}

/// Takes the text of an application program command that comes first, a byte that is ignored in it,
/// or the ESC that ends it. If another control ends it, or the text is past the limit, it takes
/// nothing.
#[inline(never)]
pub fn note_in_apc(
    parser: &mut EscParser,
    memory: &mut [u8],
    out: &mut [u8],
    bytes: &[u8],
    event: &mut EscEvent,
) -> usize
    requires { GoesOn APC_STATE parser.old event.old bytes.now (event.old.length ≤ length out.old) }
    ensures { TakesPartOf APC parser memory out event bytes.now result }
{
    let run = ascii_run(bytes);
    if run > 0 {
        return if note_text(parser, memory, &bytes[..run]) {
            run
        } else {
            0
        };
    }
    if bytes[0] == 0x1b {
        return if end_apc(parser, memory, out, bytes[0], event) {
            1
        } else {
            0
        };
    }
    if skips_in_apc(parser, bytes[0]) { 1 } else { 0 }
}
