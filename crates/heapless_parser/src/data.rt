//! The data of a device control string, and ignored strings, that come in chunks.
#![tactic(auto)]

ghost use Rattle.std.specs.Prelude.{◌≡◌, ◌∷◌, [], true, false};
ghost use Rattle.heapless_parser.specs.Runs.{IsDueAs, Passes};
ghost use Rattle.heapless_parser.specs.Asked.{FedIn};
ghost use Rattle.heapless_parser.specs.Takes.{NotesSingle, Skips, TakesByte};

use crate::event::{DATA_BYTE, DCS_END, EscEvent, NONE};
use crate::numbers::{DATA_STATE, IGNORED_STATE};
use crate::openers::escape;
use crate::parser::EscParser;
use esc_frame::classes::{Breaker, Class, classify};
use esc_frame::runs::scans::ascii_run;

/// Takes a byte of data that is in no run, or the ESC that ends them. If the byte is another
/// control that ends them, returns false and changes nothing.
#[inline(never)]
pub fn note_in_data(parser: &mut EscParser, byte: u8, event: &mut EscEvent) -> bool
    requires state { parser.old.state ≡ DATA_STATE }
    requires none { event.old.kind ≡ NONE }
    ensures takes { TakesByte parser event byte result }
    ensures noted { NotesSingle DATA_BYTE DCS_END event }
{
    match classify(byte) {
        Class::Breaks(Breaker::Escape) => {
            escape(parser);
            event.kind = DCS_END;
            true
        }
        Class::Breaks(
            Breaker::Cancel | Breaker::C1 | Breaker::C1Introducer(_) | Breaker::C1Terminator,
        ) => false,
        Class::Delete => true,
        Class::C0
        | Class::Bell
        | Class::Intermediate
        | Class::Parameter
        | Class::Introducer(_)
        | Class::Final
        | Class::High
        | Class::Lead => {
            event.kind = DATA_BYTE;
            event.byte = byte as u32;
            true
        }
    }
}

// Takes one byte of an ignored string, or the ESC that ends it.
#[inline(always)]
fn skip_one(parser: &mut EscParser, byte: u8) -> bool
    requires { parser.old.state ≡ IGNORED_STATE }
    ensures other { result ≡ false → parser.new ≡ parser.old }
    ensures queued { IsDueAs parser.new parser.old }
    ensures passes { result ≡ true → Passes parser.old parser.new (byte ∷ []) }
{
    match classify(byte) {
        Class::Breaks(Breaker::Escape) => {
            escape(parser);
            true
        }
        Class::Breaks(
            Breaker::Cancel | Breaker::C1 | Breaker::C1Introducer(_) | Breaker::C1Terminator,
        ) => false,
        Class::C0
        | Class::Bell
        | Class::Intermediate
        | Class::Parameter
        | Class::Introducer(_)
        | Class::Final
        | Class::Delete
        | Class::High
        | Class::Lead => true,
    }
}

/// Takes the bytes of an ignored string that come first, or the ESC that ends it. If another
/// control ends it, it takes nothing.
#[inline(never)]
pub fn note_ignored(parser: &mut EscParser, bytes: &[u8]) -> usize
    requires { FedIn IGNORED_STATE parser.old bytes.now }
    ensures { Skips parser bytes.now result }
{
    let run = ascii_run(bytes);
    if run > 0 {
        return run;
    }
    if skip_one(parser, bytes[0]) { 1 } else { 0 }
}
