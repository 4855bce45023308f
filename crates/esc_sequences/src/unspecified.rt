//! Control sequences that have no name.
ghost use Rattle.std.specs.Prelude.{Some};
ghost use Rattle.std.specs.Fmt.{DisplaysOnOk};
ghost use Rattle.esc_sequences.specs.Csis.{csi_text, unspecified};
ghost use Rattle.esc_values.specs.Params.{param_text, csi_params_text};

use esc_values::number::write_number;
use esc_values::{CsiParam, Items};
use std::alloc::{Allocator, Global};
use std::fmt;
use std::fmt::Display;

/// A control sequence that has no name, as it is (ECMA-48, 5.4).
#[derive(Drop)]
#[derive_where(Debug, PartialEq)]
pub struct Unspecified<A: Allocator = Global> {
    /// The parameters of its body.
    pub params: Items<CsiParam, A>,
    /// Says whether the body has more parameters, which are not kept.
    pub parameters_truncated: bool,
    /// The final byte, 40 to 7E (hexadecimal).
    pub control: u8,
}

/// Writes `ESC [`, each parameter as its decimal number or its character, and the final byte. A
/// byte is written as the character of the same number. If it returns `Ok`, all of it was written.
impl<A: Allocator> fmt::Display for Unspecified<A> {
    ghost output = { λ u. Some (csi_text (unspecified u.params u.parameters_truncated u.control)) };

    fn fmt<W: fmt::Write>(&self, f: &mut fmt::Formatter<W>) -> fmt::Result {
        let borrowed = BorrowedSequence {
            params: self.params.as_slice(),
            parameters_truncated: self.parameters_truncated,
            control: self.control,
        };
        borrowed.fmt(f)
    }
}

/// A control sequence that has no name, of parameters that are kept elsewhere: it is written
/// without a copy of them.
#[derive(Clone, Copy)]
pub struct BorrowedSequence<'a> {
    /// The parameters of its body.
    pub params: &'a [CsiParam],
    /// Says whether the body has more parameters, which are not kept.
    pub parameters_truncated: bool,
    /// The final byte, 40 to 7E (hexadecimal).
    pub control: u8,
}

/// Writes the text that [`Unspecified`] of the same parameters writes.
impl<'a> fmt::Display for BorrowedSequence<'a> {
    ghost output = { λ u.
        Some (csi_text (unspecified u.params.now u.parameters_truncated u.control)) };

    fn fmt<W: fmt::Write>(&self, f: &mut fmt::Formatter<W>) -> fmt::Result {
        f.write_str("\x1b[")?;
        write_csi_params(self.params, f)?;
        f.write_char(char::from(self.control))
    }
}

// Writes the parameters, one after another.
fn write_csi_params<W: fmt::Write>(params: &[CsiParam], f: &mut fmt::Formatter<W>) -> fmt::Result
    ensures { DisplaysOnOk W.write_str_gives f.old result
        (Some (csi_params_text params.now)) f.new }
{
    for param in params {
        write_param(*param, f)?;
    }
    Ok(())
}

// Writes a parameter, as its decimal number or its character.
fn write_param<W: fmt::Write>(param: CsiParam, f: &mut fmt::Formatter<W>) -> fmt::Result
    ensures { DisplaysOnOk W.write_str_gives f.old result (Some (param_text param)) f.new }
{
    match param {
        CsiParam::Integer(number) => write_number(number, f),
        CsiParam::P(b';') => f.write_str(";"),
        CsiParam::P(b':') => f.write_str(":"),
        CsiParam::P(b'?') => f.write_str("?"),
        CsiParam::P(byte) => f.write_char(char::from(byte)),
    }
}
