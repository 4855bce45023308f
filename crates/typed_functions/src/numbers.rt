//! This module says how the parameters of a control function are read.
ghost use Rattle.std.specs.Prelude.{◌≡◌, Some, Ok, Err, IfOk, IfErr};
ghost use Rattle.std.specs.Option.{option_map};
ghost use Rattle.std.specs.List.{list_all};
ghost use Rattle.typed_functions.specs.Arguments.{after_prefix, arguments, byte_or, count, first_word, flags, report, three, is_intermediate, last_of, margins, more, more_words, next, no_number, number_first, only_parameter, place, selector, two, word, word_of, zero};

use crate::arguments::{Arguments, Kind};
use crate::one_based::Ordinal;
use crate::unfit::Unfit;
use esc_values::CsiParam;

// Returns the parameters of a kind.
pub(crate) fn arguments(kind: Kind, entries: &[CsiParam]) -> Result<Arguments, Unfit>
    ensures { result ≡ arguments kind entries.now }
{
    match kind {
        Kind::Nothing => no_number(one(entries)?),
        Kind::Zero => zero(one(entries)?),
        Kind::Count => count(one(entries)?),
        Kind::Selector => selector(one(entries)?),
        Kind::Place => {
            let (line, col) = two(entries)?;
            place(line, col)
        }
        Kind::Margins => {
            let (first, last) = two(entries)?;
            margins(first, last)
        }
        Kind::Flags => {
            let (bits, change) = two(entries)?;
            flags(bits, change)
        }
        Kind::Report => {
            let (button, col, line) = three(entries)?;
            report(button, col, line)
        }
        Kind::Numbers => {
            let (first, second, third) = three(entries)?;
            more_words(first_word(first), second, third)
        }
        Kind::Selectors | Kind::Renditions | Kind::Modes => Err(Unfit::Untyped),
    }
}

// Returns no parameter.
fn no_number(number: Option<u64>) -> Result<Arguments, Unfit>
    ensures { result ≡ no_number number }
{
    match number {
        None => Ok(Arguments::Nothing),
        Some(_) => Err(Unfit::TooMany),
    }
}

// Returns no parameter, or 0.
fn zero(number: Option<u64>) -> Result<Arguments, Unfit>
    ensures { result ≡ zero number }
{
    match number {
        None | Some(0) => Ok(Arguments::Nothing),
        Some(_) => Err(Unfit::OutOfRange),
    }
}

// Returns a count, a line or a column.
fn count(number: Option<u64>) -> Result<Arguments, Unfit>
    ensures { result ≡ count number }
{
    match Ordinal::of_number(number) {
        Some(n) => Ok(Arguments::Count(n)),
        None => Err(Unfit::OutOfRange),
    }
}

// Returns a line and a column.
fn place(line: Option<u64>, col: Option<u64>) -> Result<Arguments, Unfit>
    ensures { result ≡ place line col }
{
    let Some(line) = Ordinal::of_number(line) else {
        return Err(Unfit::OutOfRange);
    };
    match Ordinal::of_number(col) {
        Some(col) => Ok(Arguments::Place(line, col)),
        None => Err(Unfit::OutOfRange),
    }
}

// Returns the first and the last line or column.
fn margins(first: Option<u64>, last: Option<u64>) -> Result<Arguments, Unfit>
    ensures { result ≡ margins first last }
{
    let Some(first) = Ordinal::of_number(first) else {
        return Err(Unfit::OutOfRange);
    };
    Ok(Arguments::Margins(first, last_of(last)?))
}

// Returns the last line or column, if there is one.
fn last_of(number: Option<u64>) -> Result<Option<Ordinal>, Unfit>
    ensures { result ≡ last_of number }
{
    match number {
        None | Some(0) => Ok(None),
        Some(_) => match Ordinal::of_number(number) {
            Some(n) => Ok(Some(n)),
            None => Err(Unfit::OutOfRange),
        },
    }
}

// Returns a choice.
fn selector(number: Option<u64>) -> Result<Arguments, Unfit>
    ensures { result ≡ selector number }
{
    match number {
        None => Ok(Arguments::Selector(0)),
        Some(number) => match u8::try_from(number) {
            Ok(number) => Ok(Arguments::Selector(number)),
            Err(_) => Err(Unfit::OutOfRange),
        },
    }
}

// Returns a number of at most 255, or its default.
fn byte_or(default: u8, number: Option<u64>) -> Result<u8, Unfit>
    ensures { result ≡ byte_or default number }
{
    match number {
        None => Ok(default),
        Some(number) => match u8::try_from(number) {
            Ok(number) => Ok(number),
            Err(_) => Err(Unfit::OutOfRange),
        },
    }
}

// Flags, and the operation on them.
fn flags(bits: Option<u64>, change: Option<u64>) -> Result<Arguments, Unfit>
    ensures { result ≡ flags bits change }
{
    let Ok(bits) = byte_or(0, bits) else {
        return Err(Unfit::OutOfRange);
    };
    Ok(Arguments::Flags(bits, byte_or(1, change)?))
}

// Returns a button, a column and a line.
fn report(button: Option<u64>, col: Option<u64>, line: Option<u64>) -> Result<Arguments, Unfit>
    ensures { result ≡ report button col line }
{
    let Ok(button) = byte_or(0, button) else {
        return Err(Unfit::OutOfRange);
    };
    let Some(col) = Ordinal::of_number(col) else {
        return Err(Unfit::OutOfRange);
    };
    match Ordinal::of_number(line) {
        Some(line) => Ok(Arguments::Report(button, col, line)),
        None => Err(Unfit::OutOfRange),
    }
}

// Returns a number of at most 2 to the power of 32, less 1.
fn word(number: u64) -> Result<u32, Unfit>
    ensures { result ≡ word number }
{
    match u32::try_from(number) {
        Ok(number) => Ok(number),
        Err(_) => Err(Unfit::OutOfRange),
    }
}

// Such a number, which has no default.
fn first_word(number: Option<u64>) -> Result<u32, Unfit>
    ensures { result ≡ first_word number }
{
    match number {
        None => Err(Unfit::TooFew),
        Some(number) => word(number),
    }
}

// Such a number, if there is one.
fn word_of(number: Option<u64>) -> Result<Option<u32>, Unfit>
    ensures { result ≡ word_of number }
{
    match number {
        None => Ok(None),
        Some(number) => Ok(Some(word(number)?)),
    }
}

// Such a number, and up to two more.
fn more_words(
    first: Result<u32, Unfit>,
    second: Option<u64>,
    third: Option<u64>,
) -> Result<Arguments, Unfit>
    ensures { result ≡ more_words first second third }
{
    match (first, word_of(second), word_of(third)) {
        (Ok(first), Ok(second), Ok(third)) => Ok(Arguments::Numbers(first, second, third)),
        (Err(unfit), _, _) | (Ok(_), Err(unfit), _) | (Ok(_), Ok(_), Err(unfit)) => Err(unfit),
    }
}

// Returns the only three parameters.
fn three(entries: &[CsiParam]) -> Result<(Option<u64>, Option<u64>, Option<u64>), Unfit>
    ensures { result ≡ three entries.now }
{
    let (first, rest) = next(entries)?;
    match rest {
        None => Ok((first, None, None)),
        Some(rest) => {
            let (second, third) = two(rest)?;
            Ok((first, second, third))
        }
    }
}

// Returns the only parameter.
fn one(entries: &[CsiParam]) -> Result<Option<u64>, Unfit>
    ensures { result ≡ only_parameter entries.now }
{
    let (number, rest) = next(entries)?;
    match rest {
        None => Ok(number),
        Some(_) => Err(Unfit::TooMany),
    }
}

// Returns the only two parameters.
fn two(entries: &[CsiParam]) -> Result<(Option<u64>, Option<u64>), Unfit>
    ensures { result ≡ two entries.now }
{
    let (first, rest) = next(entries)?;
    match rest {
        None => Ok((first, None)),
        Some(rest) => Ok((first, one(rest)?)),
    }
}

// Returns the next parameter, a number or nothing, and the rest after its `;`.
fn next(entries: &[CsiParam]) -> Result<(Option<u64>, Option<&[CsiParam]>), Unfit>
    ensures ok { IfOk result (λ p.
        next entries.now ≡ Ok (p.0, option_map (λ es. es.now) p.1)) }
    ensures err { IfErr result (λ u. next entries.now ≡ Err u) }
{
    let (number, rest) = number_first(entries);
    Ok((number, more(rest)?))
}

// Returns the first number, if one comes first, and the rest.
fn number_first(entries: &[CsiParam]) -> (Option<u64>, &[CsiParam])
    ensures { number_first entries.now ≡ (result.0, result.1.now) }
{
    let Some((first, rest)) = entries.split_first() else {
        return (None, entries);
    };
    match *first {
        CsiParam::Integer(number) => match u64::try_from(number) {
            Ok(number) => (Some(number), rest),
            Err(_) => (None, entries),
        },
        CsiParam::P(_) => (None, entries),
    }
}

// Returns the rest after a number: intermediates alone, or `;` and more.
fn more(entries: &[CsiParam]) -> Result<Option<&[CsiParam]>, Unfit>
    ensures ok { IfOk result (λ o. more entries.now ≡ Ok (option_map (λ es. es.now) o)) }
    ensures err { IfErr result (λ u. more entries.now ≡ Err u) }
{
    if are_intermediates(entries) {
        return Ok(None);
    }
    match entries.split_first() {
        Some((CsiParam::P(b';'), rest)) => Ok(Some(rest)),
        Some(_) => Err(Unfit::NoNumbers),
        None => Err(Unfit::NoNumbers),
    }
}

// Returns whether all are intermediates.
fn are_intermediates(entries: &[CsiParam]) -> bool
    ensures { result ≡ list_all is_intermediate entries.now }
{
    for entry in entries {
        if !is_intermediate(*entry) {
            return false;
        }
    }
    true
}

// Returns whether it is an intermediate.
fn is_intermediate(entry: CsiParam) -> bool
    ensures { result ≡ is_intermediate entry }
{
    match entry {
        CsiParam::Integer(_) => false,
        CsiParam::P(byte) => byte >= 0x20 && byte <= 0x2f,
    }
}

// Returns the entries after a private prefix.
pub(crate) fn after_prefix(entries: &[CsiParam]) -> &[CsiParam]
    ensures { result.now ≡ after_prefix entries.now }
{
    let Some((first, rest)) = entries.split_first() else {
        return entries;
    };
    match *first {
        CsiParam::P(byte) => {
            if byte >= 0x3c && byte <= 0x3f {
                rest
            } else {
                entries
            }
        }
        CsiParam::Integer(_) => entries,
    }
}
