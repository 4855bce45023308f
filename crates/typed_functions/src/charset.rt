//! Designations of character sets.
ghost use Rattle.std.specs.Prelude.{◌≡◌, Some};
ghost use Rattle.std.specs.Fmt.{DisplaysOnOk};
ghost use Rattle.typed_functions.specs.Charsets.{charset_bytes, charset_sequence, charset_text, is_short, multibyte_byte, one_or_two, text_after};

use crate::charset94::Charset94;
use crate::charset96::Charset96;
use crate::multibyte_charset::MultibyteCharset;
use crate::pair_charset::PairCharset;
use esc_sequences::Esc;
use std::fmt;

/// The set that an escape sequence designates, and as which of G0 to G3 (ECMA-35, 14.3.2; DEC's
/// VT510, SCS; xterm's list).
#[derive(Clone, Copy, Debug)]
pub enum Charset {
    /// `ESC ( ..`, GZD4: as G0.
    G0(Charset94),
    /// `ESC ) ..`, G1D4: as G1.
    G1(Charset94),
    /// `ESC * ..`, G2D4: as G2.
    G2(Charset94),
    /// `ESC + ..`, G3D4: as G3.
    G3(Charset94),
    /// `ESC - ..`, G1D6: one of 96 characters as G1.
    G1Of96(Charset96),
    /// `ESC . ..`, G2D6: one of 96 characters as G2.
    G2Of96(Charset96),
    /// `ESC / ..`, G3D6: one of 96 characters as G3.
    G3Of96(Charset96),
    /// `ESC ( .. ..`, GZD4: one that two bytes name, as G0.
    G0Pair(PairCharset),
    /// `ESC ) .. ..`, G1D4: one that two bytes name, as G1.
    G1Pair(PairCharset),
    /// `ESC * .. ..`, G2D4: one that two bytes name, as G2.
    G2Pair(PairCharset),
    /// `ESC + .. ..`, G3D4: one that two bytes name, as G3.
    G3Pair(PairCharset),
    /// `ESC $ ..` or `ESC $ ( ..`, GZDM4: one of several bytes as G0.
    G0Multibyte(MultibyteCharset),
    /// `ESC $ ) ..`, G1DM4: one of several bytes as G1.
    G1Multibyte(MultibyteCharset),
    /// `ESC $ * ..`, G2DM4: one of several bytes as G2.
    G2Multibyte(MultibyteCharset),
    /// `ESC $ + ..`, G3DM4: one of several bytes as G3.
    G3Multibyte(MultibyteCharset),
}

impl Charset {
    /// Returns the escape sequence that designates it. `None` if that has two intermediates; an
    /// [`Esc`] has one.
    pub fn sequence(self) -> Option<Esc>
        ensures { result ≡ charset_sequence self }
    {
        match self.bytes() {
            (first, None, last) => Some(Esc::parse(Some(first), last)),
            (_, Some(_), _) => None,
        }
    }

    /// Returns the bytes of that escape sequence after ESC: the first intermediate, the second, if
    /// there is one, and the final byte.
    pub fn bytes(self) -> (u8, Option<u8>, u8)
        ensures { charset_bytes self ≡ (one_or_two result.0 result.1, result.2) }
    {
        match self {
            Charset::G0(set) => (b'(', None, set.final_byte()),
            Charset::G1(set) => (b')', None, set.final_byte()),
            Charset::G2(set) => (b'*', None, set.final_byte()),
            Charset::G3(set) => (b'+', None, set.final_byte()),
            Charset::G1Of96(set) => (b'-', None, set.final_byte()),
            Charset::G2Of96(set) => (b'.', None, set.final_byte()),
            Charset::G3Of96(set) => (b'/', None, set.final_byte()),
            Charset::G0Pair(set) => (b'(', Some(set.intermediate()), set.final_byte()),
            Charset::G1Pair(set) => (b')', Some(set.intermediate()), set.final_byte()),
            Charset::G2Pair(set) => (b'*', Some(set.intermediate()), set.final_byte()),
            Charset::G3Pair(set) => (b'+', Some(set.intermediate()), set.final_byte()),
            Charset::G0Multibyte(set) => multibyte_as_g0(set),
            Charset::G1Multibyte(set) => (b'$', Some(b')'), set.final_byte()),
            Charset::G2Multibyte(set) => (b'$', Some(b'*'), set.final_byte()),
            Charset::G3Multibyte(set) => (b'$', Some(b'+'), set.final_byte()),
        }
    }
}

// Returns the bytes that designate a set of several bytes as G0: without `(` if that was so first.
fn multibyte_as_g0(set: MultibyteCharset) -> (u8, Option<u8>, u8)
    ensures { charset_bytes (Charset.G0Multibyte set) ≡ (one_or_two result.0 result.1, result.2) }
{
    if set.is_short() {
        (b'$', None, set.final_byte())
    } else {
        (b'$', Some(b'('), set.final_byte())
    }
}

/// Writes the escape sequence. If it returns `Ok`, all of it was written.
impl fmt::Display for Charset {
    ghost output = { λ c. Some (charset_text c) };

    fn fmt<W: fmt::Write>(&self, f: &mut fmt::Formatter<W>) -> fmt::Result {
        f.write_str("\x1b")?;
        let (first, second, last) = self.bytes();
        write_bytes(first, second, last, f)
    }
}

// Writes the bytes after ESC.
fn write_bytes<W: fmt::Write>(
    first: u8,
    second: Option<u8>,
    last: u8,
    f: &mut fmt::Formatter<W>,
) -> fmt::Result
    ensures { DisplaysOnOk W.write_str_gives f.old result
        (Some (text_after (one_or_two first second) last)) f.new }
{
    f.write_char(char::from(first))?;
    match second {
        None => f.write_char(char::from(last)),
        Some(second) => {
            f.write_char(char::from(second))?;
            f.write_char(char::from(last))
        }
    }
}
