//! This module says how a typed value is spelled.
ghost use Rattle.std.specs.Prelude.{◌≡◌, ◌∷◌, ◌++◌, Some, false};
ghost use Rattle.std.specs.Fmt.{DisplaysOnOk};
ghost use Rattle.esc_values.specs.Params.{csi_params_text};
ghost use Rattle.esc_sequences.specs.Csis.{csi_text, unspecified};
ghost use Rattle.typed_functions.specs.Arguments.{count_entries, entries_of, last_entries, more_entries};
ghost use Rattle.typed_functions.specs.Counts.{one_based};
ghost use Rattle.typed_functions.specs.Renditions.{number};
ghost use Rattle.typed_functions.specs.Spellings.{intermediate_spelling, entries, mark_entries, plain, private, private_between};

use crate::arguments::Arguments;
use crate::entries::write_entries;
use crate::one_based::Ordinal;
use esc_values::CsiParam;
use std::fmt;

// A control sequence: a private prefix, parameters, an intermediate and a final byte.
#[derive(Clone, Copy)]
pub(crate) struct Spelling {
    prefix: Option<u8>,
    arguments: Arguments,
    intermediate: Option<u8>,
    last: u8,
}

impl Spelling {
    // Returns a spelling without private prefix and intermediate.
    pub(crate) fn plain(arguments: Arguments, last: u8) -> Spelling
        ensures { result ≡ plain arguments last }
    {
        Spelling {
            prefix: None,
            arguments,
            intermediate: None,
            last,
        }
    }

    // Returns a spelling with a private prefix.
    pub(crate) fn private(prefix: u8, arguments: Arguments, last: u8) -> Spelling
        ensures { result ≡ private prefix arguments last }
    {
        Spelling {
            prefix: Some(prefix),
            arguments,
            intermediate: None,
            last,
        }
    }

    // Returns a spelling with an intermediate.
    pub(crate) fn between(arguments: Arguments, intermediate: u8, last: u8) -> Spelling
        ensures { result ≡ intermediate_spelling arguments intermediate last }
    {
        Spelling {
            prefix: None,
            arguments,
            intermediate: Some(intermediate),
            last,
        }
    }

    // Returns a spelling with both.
    pub(crate) fn private_between(
        prefix: u8,
        arguments: Arguments,
        intermediate: u8,
        last: u8,
    ) -> Spelling
        ensures { result ≡ private_between prefix arguments intermediate last }
    {
        Spelling {
            prefix: Some(prefix),
            arguments,
            intermediate: Some(intermediate),
            last,
        }
    }
}

// Writes the control sequence.
#[tactic(auto, using(crate::proofs::Texts::joined_text))]
pub(crate) fn write_spelling<W: fmt::Write>(
    spelling: Spelling,
    f: &mut fmt::Formatter<W>,
) -> fmt::Result
    ensures { DisplaysOnOk W.write_str_gives f.old result
        (Some (csi_text (unspecified (entries spelling) false spelling.last))) f.new }
{
    f.write_str("\x1b[")?;
    write_mark(spelling.prefix, f)?;
    write_arguments(spelling.arguments, f)?;
    write_mark(spelling.intermediate, f)?;
    f.write_char(char::from(spelling.last))
}

// Writes a private prefix or an intermediate, if there is one.
fn write_mark<W: fmt::Write>(mark: Option<u8>, f: &mut fmt::Formatter<W>) -> fmt::Result
    ensures { DisplaysOnOk W.write_str_gives f.old result
        (Some (csi_params_text (mark_entries mark))) f.new }
{
    match mark {
        None => Ok(()),
        Some(byte) => write_entries(&[CsiParam::P(byte)], f),
    }
}

// Writes parameters.
fn write_arguments<W: fmt::Write>(arguments: Arguments, f: &mut fmt::Formatter<W>) -> fmt::Result
    ensures { DisplaysOnOk W.write_str_gives f.old result
        (Some (csi_params_text (entries_of arguments))) f.new }
{
    match arguments {
        Arguments::Nothing => Ok(()),
        Arguments::Count(n) => write_count(n, f),
        Arguments::Place(line, col) => write_place(line, col, f),
        Arguments::Margins(first, last) => write_margins(first, last, f),
        Arguments::Flags(flags, change) => write_entries(
            &[
                CsiParam::Integer(flags as i64),
                CsiParam::P(b';'),
                CsiParam::Integer(change as i64),
            ],
            f,
        ),
        Arguments::Report(button, col, line) => write_report(button, col, line, f),
        Arguments::Numbers(first, second, third) => write_numbers(first, second, third, f),
        Arguments::Selector(0) => Ok(()),
        Arguments::Selector(n) => write_entries(&[CsiParam::Integer(n as i64)], f),
    }
}

// Returns the number of a count.
fn number(n: Ordinal) -> CsiParam
    ensures { result ≡ number (one_based n) }
{
    CsiParam::Integer(n.as_one_based() as i64)
}

// Writes a count, a line or a column.
fn write_count<W: fmt::Write>(n: Ordinal, f: &mut fmt::Formatter<W>) -> fmt::Result
    ensures { DisplaysOnOk W.write_str_gives f.old result
        (Some (csi_params_text (count_entries n))) f.new }
{
    if n.as_zero_based() == 0 {
        Ok(())
    } else {
        write_entries(&[number(n)], f)
    }
}

// Writes a line and a column.
#[tactic(auto, using(crate::proofs::Texts::joined_text))]
fn write_place<W: fmt::Write>(line: Ordinal, col: Ordinal, f: &mut fmt::Formatter<W>) -> fmt::Result
    ensures { DisplaysOnOk W.write_str_gives f.old result
        (Some (csi_params_text (count_entries line ++ more_entries col))) f.new }
{
    write_count(line, f)?;
    if col.as_zero_based() == 0 {
        Ok(())
    } else {
        write_entries(&[CsiParam::P(b';'), number(col)], f)
    }
}

// Writes the first and the last line or column.
fn write_margins<W: fmt::Write>(
    first: Ordinal,
    last: Option<Ordinal>,
    f: &mut fmt::Formatter<W>,
) -> fmt::Result
    ensures { DisplaysOnOk W.write_str_gives f.old result
        (Some (csi_params_text (number (one_based first) ∷ last_entries last))) f.new }
{
    match last {
        None => write_entries(&[number(first)], f),
        Some(last) => write_entries(&[number(first), CsiParam::P(b';'), number(last)], f),
    }
}

// Writes a button, a column and a line.
fn write_report<W: fmt::Write>(
    button: u8,
    col: Ordinal,
    line: Ordinal,
    f: &mut fmt::Formatter<W>,
) -> fmt::Result
    ensures { DisplaysOnOk W.write_str_gives f.old result
        (Some (csi_params_text (entries_of (Arguments.Report button col line)))) f.new }
{
    let button = CsiParam::Integer(button as i64);
    let mark = CsiParam::P(b';');
    write_entries(&[button, mark, number(col), mark, number(line)], f)
}

// Writes a number, and up to two more.
fn write_numbers<W: fmt::Write>(
    first: u32,
    second: Option<u32>,
    third: Option<u32>,
    f: &mut fmt::Formatter<W>,
) -> fmt::Result
    ensures { DisplaysOnOk W.write_str_gives f.old result
        (Some (csi_params_text (entries_of (Arguments.Numbers first second third)))) f.new }
{
    let mark = CsiParam::P(b';');
    match (second, third) {
        (None, None) => write_entries(&[word(first)], f),
        (Some(second), None) => write_entries(&[word(first), mark, word(second)], f),
        (None, Some(third)) => write_entries(&[word(first), mark, mark, word(third)], f),
        (Some(second), Some(third)) => write_entries(
            &[word(first), mark, word(second), mark, word(third)],
            f,
        ),
    }
}

// Returns a number as an entry.
fn word(it: u32) -> CsiParam
    ensures { result ≡ number it }
{
    CsiParam::Integer(it as i64)
}
