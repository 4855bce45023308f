//! The visible text of a byte, and of the begun bytes before it.
ghost use Rattle.std.specs.Prelude.{◌≡◌, ◌<◌, ◌++◌, ◌∷◌, [], IfOk, OnErr, OnOk, true};
ghost use Rattle.esc_frame.specs.Machine.Prefixes.{prefix_of};
ghost use Rattle.esc_frame.specs.Sequences.{is_prefix, is_sequence, outcome};
ghost use Rattle.caret_notation.specs.Visible.{ascii_text, character_text, first_begun, first_text, hex_byte, is_mark, next_begun, next_text, printed_text, single_text, stray_text};
ghost use Rattle.fallible_alloc.specs.Refusals.{Refused};

use esc_frame::utf8::sequence::{Outcome, Pending, lies_from};
use std::alloc::{AllocError, Allocator};
use unicode_visibility::{hex_digit, is_shown, number_text};

// Appends the text that a byte after `begun` shows whatever follows, and returns the bytes that are
// begun then.
pub(crate) fn push_next<A: Allocator>(
    text: &mut Vec<u8, A>,
    begun: Pending,
    byte: u8,
) -> Result<Pending, AllocError>
    ensures ok { IfOk result (λ p. (text.new.items
        ≡ text.old.items ++ next_text (prefix_of begun) byte (outcome (prefix_of begun) byte))
        × (prefix_of p ≡ next_begun (prefix_of begun) byte (outcome (prefix_of begun) byte))) }
    ensures refused { OnErr result (Refused A) }
{
    match begun.outcome(byte) {
        Outcome::Whole => {
            push_character(text, begun, byte)?;
            Ok(Pending::Nothing)
        }
        Outcome::More => Ok(begun.with(byte)),
        Outcome::Broken => {
            push_stray(text, begun)?;
            push_first(text, byte)
        }
    }
}

// Takes a byte after no begun character.
#[tactic(auto, unfolding(esc_frame::specs::Sequences::is_prefix))]
fn push_first<A: Allocator>(text: &mut Vec<u8, A>, byte: u8) -> Result<Pending, AllocError>
    ensures ok { IfOk result (λ p. (text.new.items ≡ text.old.items ++ first_text byte)
        × (prefix_of p ≡ first_begun byte)) }
    ensures refused { OnErr result (Refused A) }
{
    if lies_from(0xc2, 0xf4, byte) {
        return Ok(Pending::One(byte));
    }
    push_single(text, byte)?;
    Ok(Pending::Nothing)
}

// Appends a byte that is a character by itself, or no part of one.
fn push_single<A: Allocator>(text: &mut Vec<u8, A>, byte: u8) -> Result<(), AllocError>
    ensures ok { OnOk result (text.new.items ≡ text.old.items ++ single_text byte) }
    ensures refused { OnErr result (Refused A) }
{
    if byte < 0x80 {
        push_ascii(text, byte)
    } else {
        push_hex(text, byte)
    }
}

// Appends a byte below 80.
fn push_ascii<A: Allocator>(text: &mut Vec<u8, A>, byte: u8) -> Result<(), AllocError>
    ensures ok { OnOk result (text.new.items ≡ text.old.items ++ ascii_text byte) }
    ensures refused { OnErr result (Refused A) }
{
    if byte < 0x20 {
        let letter = 0x40 + byte;
        fallible_alloc::extend(text, &[b'^', letter])
    } else {
        push_printed(text, byte)
    }
}

// Appends a byte from 20 on.
fn push_printed<A: Allocator>(text: &mut Vec<u8, A>, byte: u8) -> Result<(), AllocError>
    ensures ok { OnOk result (text.new.items ≡ text.old.items ++ printed_text byte) }
    ensures refused { OnErr result (Refused A) }
{
    if byte == 0x7f {
        fallible_alloc::extend(text, &[b'^', b'?'])
    } else if is_mark(byte) {
        push_hex(text, byte)
    } else {
        fallible_alloc::extend(text, &[byte])
    }
}

/// Returns whether the notation begins with the byte.
pub(crate) fn is_mark(byte: u8) -> bool
    ensures { result ≡ is_mark byte }
{
    byte == b'<' || byte == b'^'
}

// Appends a byte by its number.
fn push_hex<A: Allocator>(text: &mut Vec<u8, A>, byte: u8) -> Result<(), AllocError>
    ensures ok { OnOk result (text.new.items ≡ text.old.items ++ hex_byte byte) }
    ensures refused { OnErr result (Refused A) }
{
    fallible_alloc::extend(
        text,
        &[b'<', hex_digit(byte / 16), hex_digit(byte % 16), b'>'],
    )
}

/// Appends bytes that are no part of a character.
pub(crate) fn push_stray<A: Allocator>(
    text: &mut Vec<u8, A>,
    begun: Pending,
) -> Result<(), AllocError>
    ensures ok { OnOk result (text.new.items ≡ text.old.items ++ stray_text (prefix_of begun)) }
    ensures refused { OnErr result (Refused A) }
{
    match begun {
        Pending::Nothing => Ok(()),
        Pending::One(a) => push_hex(text, a),
        Pending::Two(a, b) => {
            push_hex(text, a)?;
            push_hex(text, b)
        }
        Pending::Three(a, b, c) => {
            push_hex(text, a)?;
            push_hex(text, b)?;
            push_hex(text, c)
        }
    }
}

// Appends a character: these bytes of it had begun, and this is the last.
fn push_character<A: Allocator>(
    text: &mut Vec<u8, A>,
    begun: Pending,
    byte: u8,
) -> Result<(), AllocError>
    requires { is_sequence (prefix_of begun ++ byte ∷ []) ≡ true }
    ensures ok { OnOk result
        (text.new.items ≡ text.old.items ++ character_text (prefix_of begun ++ byte ∷ [])) }
    ensures refused { OnErr result (Refused A) }
{
    let c = begun.character(byte);
    if !is_shown(c) {
        return fallible_alloc::extend(text, number_text(c).as_str().as_bytes());
    }
    match begun {
        Pending::Nothing => fallible_alloc::extend(text, &[byte]),
        Pending::One(a) => fallible_alloc::extend(text, &[a, byte]),
        Pending::Two(a, b) => fallible_alloc::extend(text, &[a, b, byte]),
        Pending::Three(a, b, c) => fallible_alloc::extend(text, &[a, b, c, byte]),
    }
}
