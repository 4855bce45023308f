//! Bytes between sequences, and bytes that break a sequence off, which do the same.
#![tactic(auto)]

ghost use Rattle.std.specs.Prelude.{◌≡◌, ◌⊎◌};
ghost use Rattle.esc_frame.specs.Classes.{class_of};
ghost use Rattle.esc_frame.specs.Machine.Moves.{ground_move, pair_move};
ghost use Rattle.heapless_parser.specs.Runs.{IsDueAs};
ghost use Rattle.heapless_parser.specs.Emitted.{queued_of};
ghost use Rattle.heapless_parser.specs.Takes.{IsSingleChange, KeepsAfter, Makes, NotesSingle};

use crate::event::{CHARACTER, CONTROL, EscEvent, NONE};
use crate::numbers::GROUND;
use crate::openers::{escape, open_kind};
use crate::parser::EscParser;
use esc_frame::classes::{Breaker, Class, classify};

/// A character or a control, with the kind of its event; or nothing, with the kind `NONE`.
#[derive(Clone, Copy)]
pub struct Single {
    pub kind: u32,
    pub value: u32,
}

/// The character that stands for bytes that are no UTF-8.
pub const REPLACEMENT: u32 = 0xfffd;

/// Takes a byte as between sequences, and returns its character or its control.
#[inline(always)]
pub fn in_ground(parser: &mut EscParser, byte: u8) -> Single
    ensures kept { KeepsAfter parser.new (ground_move byte (class_of byte)) }
    ensures given { queued_of result.kind result.value ≡ (ground_move byte (class_of byte)).1 }
    ensures kind { (result.kind ≡ NONE) ⊎ (result.kind ≡ CHARACTER) ⊎ (result.kind ≡ CONTROL) }
    ensures queued { IsDueAs parser.new parser.old }
{
    parser.state = GROUND;
    parser.pending = 0;
    let (kind, value) = match classify(byte) {
        Class::Breaks(Breaker::Escape) => {
            escape(parser);
            (NONE, 0)
        }
        Class::Lead => {
            parser.pending = 1;
            parser.first = byte;
            (NONE, 0)
        }
        Class::High => (CHARACTER, REPLACEMENT),
        Class::C0 | Class::Bell | Class::Breaks(Breaker::Cancel | Breaker::C1) => (
            CONTROL,
            byte as u32,
        ),
        Class::Breaks(Breaker::C1Introducer(kind)) => {
            open_kind(parser, kind);
            (NONE, 0)
        }
        Class::Breaks(Breaker::C1Terminator) => (NONE, 0),
        Class::Intermediate
        | Class::Parameter
        | Class::Introducer(_)
        | Class::Final
        | Class::Delete => (CHARACTER, byte as u32),
    };
    Single { kind, value }
}

/// Takes a byte as between sequences, and notes its event.
#[inline(always)]
pub fn cancel(parser: &mut EscParser, byte: u8, event: &mut EscEvent)
    ensures moves { Makes parser event.new (ground_move byte (class_of byte)) }
    ensures noted { NotesSingle CHARACTER CONTROL event }
{
    let single = in_ground(parser, byte);
    event.kind = single.kind;
    event.byte = single.value;
}

/// Takes the last byte of a C1 control in UTF-8, and notes its event.
#[inline(never)]
pub fn note_pair(parser: &mut EscParser, byte: u8, event: &mut EscEvent)
    requires { event.old.kind ≡ NONE }
    ensures moves { Makes parser event.new (pair_move byte (class_of byte)) }
    ensures kind { (event.new.kind ≡ NONE) ⊎ (event.new.kind ≡ CONTROL) }
    ensures same { IsSingleChange event.new event.old }
{
    parser.state = GROUND;
    parser.pending = 0;
    match classify(byte) {
        Class::Breaks(Breaker::C1) => {
            event.kind = CONTROL;
            event.byte = byte as u32;
        }
        Class::Breaks(Breaker::C1Introducer(kind)) => open_kind(parser, kind),
        Class::Breaks(Breaker::C1Terminator | Breaker::Cancel | Breaker::Escape)
        | Class::C0
        | Class::Bell
        | Class::Lead
        | Class::High
        | Class::Intermediate
        | Class::Parameter
        | Class::Introducer(_)
        | Class::Final
        | Class::Delete => {}
    }
}
