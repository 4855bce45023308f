//! The request of an escape sequence, by its function and its final byte.
ghost use Rattle.std.specs.Prelude.{◌≡◌, Some};
ghost use Rattle.typed_functions.specs.Charsets.{short_at};
ghost use Rattle.typed_functions.specs.Escapes.{charset_by_final, designated_by_two, multibyte_designated, of_function, of_two};
ghost use Rattle.typed_functions.specs.Functions.{value_of};

use crate::charset::Charset;
use crate::charset94::Charset94;
use crate::charset96::Charset96;
use crate::escape::Escape;
use crate::function::Function;
use crate::multibyte_charset::MultibyteCharset;
use crate::pair_charset::PairCharset;
use crate::unfit::Unfit;
use control_functions::EscapeFunction;

// Returns the request of a function with this final byte.
pub(crate) fn of_function<'a>(function: EscapeFunction, last: u8) -> Function<'a>
    ensures { value_of result ≡ of_function (Some function) last }
{
    match Escape::of_function(function) {
        Some(escape) => Function::Escape(escape),
        None => match designated(function, last) {
            Ok(charset) => Function::Charset(charset),
            Err(unfit) => Function::Other(unfit),
        },
    }
}

// Returns the set that it designates.
fn designated(function: EscapeFunction, last: u8) -> Result<Charset, Unfit>
    ensures { result ≡ charset_by_final function last }
{
    match function {
        EscapeFunction::GZD4 => match Charset94::of_final_byte(last) {
            Some(set) => Ok(Charset::G0(set)),
            None => Err(Unfit::OutOfRange),
        },
        EscapeFunction::G1D4 => match Charset94::of_final_byte(last) {
            Some(set) => Ok(Charset::G1(set)),
            None => Err(Unfit::OutOfRange),
        },
        EscapeFunction::G2D4 => match Charset94::of_final_byte(last) {
            Some(set) => Ok(Charset::G2(set)),
            None => Err(Unfit::OutOfRange),
        },
        EscapeFunction::G3D4 => match Charset94::of_final_byte(last) {
            Some(set) => Ok(Charset::G3(set)),
            None => Err(Unfit::OutOfRange),
        },
        EscapeFunction::G1D6 => match Charset96::of_final_byte(last) {
            Some(set) => Ok(Charset::G1Of96(set)),
            None => Err(Unfit::OutOfRange),
        },
        EscapeFunction::G2D6 => match Charset96::of_final_byte(last) {
            Some(set) => Ok(Charset::G2Of96(set)),
            None => Err(Unfit::OutOfRange),
        },
        EscapeFunction::G3D6 => match Charset96::of_final_byte(last) {
            Some(set) => Ok(Charset::G3Of96(set)),
            None => Err(Unfit::OutOfRange),
        },
        EscapeFunction::GZDM4 => match short_at(last) {
            Some(set) => Ok(Charset::G0Multibyte(set)),
            None => Err(Unfit::OutOfRange),
        },
        _ => Err(Unfit::Untyped),
    }
}

// Returns the set of several bytes that this final byte designates after `ESC $` alone.
fn short_at(last: u8) -> Option<MultibyteCharset>
    ensures { result ≡ short_at last }
{
    if last <= b'B' {
        MultibyteCharset::of_final_byte(last)
    } else {
        None
    }
}

// Returns the request of a function with this second intermediate and this final byte.
pub(crate) fn of_two<'a>(function: EscapeFunction, second: u8, last: u8) -> Function<'a>
    ensures { value_of result ≡ of_two (Some function) second last }
{
    match designated_by_two(function, second, last) {
        Ok(charset) => Function::Charset(charset),
        Err(unfit) => Function::Other(unfit),
    }
}

// Returns the set that it designates.
fn designated_by_two(function: EscapeFunction, second: u8, last: u8) -> Result<Charset, Unfit>
    ensures { result ≡ designated_by_two function second last }
{
    match function {
        EscapeFunction::GZD4 => match PairCharset::of_bytes(second, last) {
            Some(set) => Ok(Charset::G0Pair(set)),
            None => Err(Unfit::OutOfRange),
        },
        EscapeFunction::G1D4 => match PairCharset::of_bytes(second, last) {
            Some(set) => Ok(Charset::G1Pair(set)),
            None => Err(Unfit::OutOfRange),
        },
        EscapeFunction::G2D4 => match PairCharset::of_bytes(second, last) {
            Some(set) => Ok(Charset::G2Pair(set)),
            None => Err(Unfit::OutOfRange),
        },
        EscapeFunction::G3D4 => match PairCharset::of_bytes(second, last) {
            Some(set) => Ok(Charset::G3Pair(set)),
            None => Err(Unfit::OutOfRange),
        },
        _ => multibyte(function, last),
    }
}

// Returns the set of several bytes that it designates.
fn multibyte(function: EscapeFunction, last: u8) -> Result<Charset, Unfit>
    ensures { result ≡ multibyte_designated function last }
{
    match function {
        EscapeFunction::GZDM4_LONG => match MultibyteCharset::of_final_byte(last) {
            Some(set) => Ok(Charset::G0Multibyte(set)),
            None => Err(Unfit::OutOfRange),
        },
        EscapeFunction::G1DM4 => match MultibyteCharset::of_final_byte(last) {
            Some(set) => Ok(Charset::G1Multibyte(set)),
            None => Err(Unfit::OutOfRange),
        },
        EscapeFunction::G2DM4 => match MultibyteCharset::of_final_byte(last) {
            Some(set) => Ok(Charset::G2Multibyte(set)),
            None => Err(Unfit::OutOfRange),
        },
        EscapeFunction::G3DM4 => match MultibyteCharset::of_final_byte(last) {
            Some(set) => Ok(Charset::G3Multibyte(set)),
            None => Err(Unfit::OutOfRange),
        },
        _ => Err(Unfit::Untyped),
    }
}
