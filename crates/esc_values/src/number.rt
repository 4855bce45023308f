//! This module says how numbers are written. Those under 256, which nearly all of them are, take no
//! call of a general formatter. An error is that of the writer below the formatter.
ghost use Rattle.std.specs.Prelude.{◌≡◌, ◌+◌, ◌<◌, ◌≤◌, ◌∷◌, [], Some};
ghost use Rattle.std.specs.Fmt.{DisplaysOnOk, decimal, signed_decimal};

use std::fmt;

/// Writes a number in decimal.
pub fn write_number<W: fmt::Write>(number: i64, f: &mut fmt::Formatter<W>) -> fmt::Result
    ensures { DisplaysOnOk W.write_str_gives f.old result (Some (signed_decimal number)) f.new }
{
    match u8::try_from(number) {
        Ok(small) => write_small(small, f),
        Err(_) => write!(f, "{number}"),
    }
}

/// Writes a number that is not negative in decimal.
pub fn write_natural<W: fmt::Write>(number: u64, f: &mut fmt::Formatter<W>) -> fmt::Result
    ensures { DisplaysOnOk W.write_str_gives f.old result (Some (decimal number)) f.new }
{
    match u8::try_from(number) {
        Ok(small) => write_small(small, f),
        Err(_) => write!(f, "{number}"),
    }
}

// Writes a number of at most three digits, one after another.
#[tactic(auto, using(crate::proofs::Numbers::AtMostThreeDigits::decimal_one))]
fn write_small<W: fmt::Write>(number: u8, f: &mut fmt::Formatter<W>) -> fmt::Result
    ensures { DisplaysOnOk W.write_str_gives f.old result (Some (decimal number)) f.new }
{
    if number < 10 {
        write_digit(number, f)
    } else if number < 100 {
        write_two(number, f)
    } else {
        write_digit(number / 100, f)?;
        write_digit(number / 10 % 10, f)?;
        write_digit(number % 10, f)
    }
}

// Writes a number of two digits.
fn write_two<W: fmt::Write>(number: u8, f: &mut fmt::Formatter<W>) -> fmt::Result
    requires low { 10 ≤ number }
    requires high { number < 100 }
    ensures { DisplaysOnOk W.write_str_gives f.old result (Some (decimal number)) f.new }
{
    write_digit(number / 10, f)?;
    write_digit(number % 10, f)
}

// Writes a digit.
fn write_digit<W: fmt::Write>(value: u8, f: &mut fmt::Formatter<W>) -> fmt::Result
    requires { value < 10 }
    ensures { DisplaysOnOk W.write_str_gives f.old result (Some ((48 + value) ∷ [])) f.new }
{
    f.write_str(digit(value))
}

// Returns the text of a digit.
fn digit(value: u8) -> &'static str
    requires { value < 10 }
    ensures { result.now ≡ (48 + value) ∷ [] }
{
    match value {
        0 => "0",
        1 => "1",
        2 => "2",
        3 => "3",
        4 => "4",
        5 => "5",
        6 => "6",
        7 => "7",
        8 => "8",
        _ => "9",
    }
}
