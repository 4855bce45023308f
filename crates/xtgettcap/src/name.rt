//! This module says how the name of a capability is read and written.
ghost use Rattle.std.specs.Prelude.{◌≡◌, Some, IfOk, OnErr};
ghost use Rattle.std.specs.Fmt.{DisplaysOnOk};
ghost use Rattle.std.specs.Str.Lossy.{utf8_lossy};
ghost use Rattle.fallible_alloc.specs.Refusals.{Refused};
ghost use Rattle.xtgettcap.specs.Names.{name_of, hex_text, two_digits};

use esc_values::Text;
use hex::FromHexError;
use std::alloc::{AllocError, Allocator};
use std::fmt;
use std::fmt::Display;

// Returns the name that a slice of the data means.
pub(crate) fn read_name<A: Allocator + Copy>(alloc: A, slice: &[u8]) -> Result<Text<A>, AllocError>
    ensures ok { IfOk result (λ t. t ≡ name_of slice.now) }
    ensures refused { OnErr result (Refused A) }
{
    match fallible_alloc::decode_hex(alloc, slice) {
        Ok(bytes) => into_lossy(alloc, bytes),
        Err(FromHexError::OutOfMemory) => Err(AllocError),
        Err(FromHexError::InvalidHexCharacter { c: _, index: _ }) => lossy(alloc, slice),
        Err(FromHexError::OddLength) => lossy(alloc, slice),
        Err(FromHexError::InvalidStringLength) => lossy(alloc, slice),
    }
}

// Returns the text of these bytes, with U+FFFD for those that are not UTF-8. They are copied only
// then.
fn into_lossy<A: Allocator>(alloc: A, bytes: Vec<u8, A>) -> Result<Text<A>, AllocError>
    ensures ok { IfOk result (λ t. t ≡ utf8_lossy bytes.items) }
    ensures refused { OnErr result (Refused A) }
{
    match String::from_utf8(bytes) {
        Ok(string) => Ok(Text::from_string(string)),
        Err(error) => lossy(alloc, error.into_bytes().as_slice()),
    }
}

// Returns the text of these bytes, with U+FFFD for those that are not UTF-8.
fn lossy<A: Allocator>(alloc: A, bytes: &[u8]) -> Result<Text<A>, AllocError>
    ensures ok { IfOk result (λ t. t ≡ utf8_lossy bytes.now) }
    ensures refused { OnErr result (Refused A) }
{
    Ok(Text::from_string(fallible_alloc::lossy(alloc, bytes)?))
}

// A name, written as the hexadecimal digits of its bytes.
#[derive_where(Clone, Copy)]
pub(crate) struct Hex<'a, A: Allocator>(pub(crate) &'a Text<A>);

impl<A: Allocator> Display for Hex<'_, A> {
    ghost output = { λ t. Some (hex_text t.0.now) };

    fn fmt<W: fmt::Write>(&self, f: &mut fmt::Formatter<W>) -> fmt::Result {
        write_hex(self.0.as_bytes(), f)
    }
}

fn write_hex<W: fmt::Write>(bytes: &[u8], f: &mut fmt::Formatter<W>) -> fmt::Result
    ensures { DisplaysOnOk W.write_str_gives f.old result (Some (hex_text bytes.now)) f.new }
{
    for byte in bytes {
        write_byte(*byte, f)?;
    }
    Ok(())
}

// Writes two digits, also for a byte below 16.
#[tactic(auto, using(std::proofs::lemmas::Fmt::hex_byte))]
fn write_byte<W: fmt::Write>(byte: u8, f: &mut fmt::Formatter<W>) -> fmt::Result
    ensures { DisplaysOnOk W.write_str_gives f.old result (Some (two_digits byte)) f.new }
{
    write!(f, "{byte:02x}")
}
