//! This module writes lists and other values after their code. An error is that of the writer below
//! the formatter.
ghost use Rattle.std.specs.Prelude.{Some, ◌∷◌, ◌++◌, codes};
ghost use Rattle.std.specs.Fmt.{DisplaysOnOk, decimal};
ghost use Rattle.std.specs.List.{flat_map};
ghost use Rattle.std.specs.Str.Lossy.{utf8_lossy};
ghost use Rattle.esc_values.specs.Base64.{base64_text};
ghost use Rattle.esc_osc_values.specs.Codes.{change_code, code_text, reset_code};
ghost use Rattle.esc_osc_values.specs.Colors.{pair_text, spec_text};
ghost use Rattle.esc_osc_values.specs.Lists.{joined_by};
ghost use Rattle.esc_osc_values.specs.Progresses.{progress_text};
ghost use Rattle.esc_osc_values.specs.Selections.{selection_text};

use crate::change_color_pair::ChangeColorPair;
use crate::color_or_query::ColorOrQuery;
use crate::dynamic_codes::{change_code, reset_code};
use crate::dynamic_color_number::DynamicColorNumber;
use crate::lossy::Lossy;
use crate::progress::Progress;
use crate::selection::Selection;
use esc_values::base64_text::Encoded;
use esc_values::{Items, Text};
use std::alloc::Allocator;
use std::fmt;

/// Writes `before`, and then the text.
pub fn write_text<W: fmt::Write, A: Allocator>(
    before: &str,
    text: &Text<A>,
    f: &mut fmt::Formatter<W>,
) -> fmt::Result
    ensures { DisplaysOnOk W.write_str_gives f.old result (Some (before.now ++ text.now)) f.new }
{
    f.write_str(before)?;
    f.write_str(text.as_str())
}

/// Writes the code, and the selection.
pub fn write_selection<W: fmt::Write>(
    selection: &Selection,
    f: &mut fmt::Formatter<W>,
) -> fmt::Result
    ensures { DisplaysOnOk W.write_str_gives f.old result
        (Some (codes "52;" ++ selection_text selection.now.0)) f.new }
{
    write!(f, "52;{selection}")
}

/// Writes the code, the selection, and the question for its text.
pub fn write_question<W: fmt::Write>(
    selection: &Selection,
    f: &mut fmt::Formatter<W>,
) -> fmt::Result
    ensures { DisplaysOnOk W.write_str_gives f.old result
        (Some (codes "52;" ++ selection_text selection.now.0 ++ codes ";?")) f.new }
{
    write!(f, "52;{selection};?")
}

/// Writes the code, the selection, and the text in base64.
pub fn write_content<W: fmt::Write, A: Allocator>(
    selection: &Selection,
    content: &Text<A>,
    f: &mut fmt::Formatter<W>,
) -> fmt::Result
    ensures { DisplaysOnOk W.write_str_gives f.old result
        (Some (codes "52;" ++ selection_text selection.now.0 ++ 0x3b ∷ base64_text content.now))
        f.new }
{
    let text = Encoded(content.as_bytes());
    write!(f, "52;{selection};{text}")
}

/// Writes the code, and the progress.
pub fn write_progress<W: fmt::Write>(progress: &Progress, f: &mut fmt::Formatter<W>) -> fmt::Result
    ensures { DisplaysOnOk W.write_str_gives f.old result
        (Some (codes "9;" ++ progress_text progress.now)) f.new }
{
    match progress {
        Progress::None => f.write_str("9;4;0"),
        Progress::SetPercentage(percent) => write!(f, "9;4;1;{percent}"),
        Progress::SetError(percent) => write!(f, "9;4;2;{percent}"),
        Progress::SetIndeterminate => f.write_str("9;4;3"),
        Progress::Paused => f.write_str("9;4;4"),
    }
}

/// Writes the code, and the pairs with `;` between them.
pub fn write_pairs<W: fmt::Write>(
    pairs: &[ChangeColorPair],
    f: &mut fmt::Formatter<W>,
) -> fmt::Result
    ensures { DisplaysOnOk W.write_str_gives f.old result
        (Some (codes "4;" ++ joined_by pair_text pairs.now)) f.new }
{
    let Some((first, rest)) = pairs.split_first() else {
        return f.write_str("4;");
    };
    let index = first.palette_index;
    let color = &first.color;
    write!(f, "4;{index};{color}")?;
    write_more_pairs(rest, f)
}

// Writes the pairs, each after a `;`.
fn write_more_pairs<W: fmt::Write>(
    rest: &[ChangeColorPair],
    f: &mut fmt::Formatter<W>,
) -> fmt::Result
    ensures { DisplaysOnOk W.write_str_gives f.old result
        (Some (flat_map (λ p. 0x3b ∷ pair_text p) rest.now)) f.new }
{
    for pair in rest {
        let index = pair.palette_index;
        let color = &pair.color;
        write!(f, ";{index};{color}")?;
    }
    Ok(())
}

/// Writes the code that changes the dynamic colour, and the colours, each after a `;`.
pub fn write_dynamic<W: fmt::Write>(
    number: DynamicColorNumber,
    colors: &[ColorOrQuery],
    f: &mut fmt::Formatter<W>,
) -> fmt::Result
    ensures { DisplaysOnOk W.write_str_gives f.old result
        (Some (code_text (change_code number) ++ flat_map (λ c. 0x3b ∷ spec_text c) colors.now))
        f.new }
{
    write_colors(change_code(number).as_code(), colors, f)
}

/// Writes the code that resets the dynamic colour.
pub fn write_reset<W: fmt::Write>(
    number: DynamicColorNumber,
    f: &mut fmt::Formatter<W>,
) -> fmt::Result
    ensures { DisplaysOnOk W.write_str_gives f.old result (Some (code_text (reset_code number)))
        f.new }
{
    f.write_str(reset_code(number).as_code())
}

// Writes the code, and the colours, each after a `;`.
fn write_colors<W: fmt::Write>(
    code: &str,
    colors: &[ColorOrQuery],
    f: &mut fmt::Formatter<W>,
) -> fmt::Result
    ensures { DisplaysOnOk W.write_str_gives f.old result
        (Some (code.now ++ flat_map (λ c. 0x3b ∷ spec_text c) colors.now)) f.new }
{
    f.write_str(code)?;
    for color in colors {
        write!(f, ";{color}")?;
    }
    Ok(())
}

/// Writes the code, and the numbers, each after a `;`.
pub fn write_numbers<W: fmt::Write>(numbers: &[u8], f: &mut fmt::Formatter<W>) -> fmt::Result
    ensures { DisplaysOnOk W.write_str_gives f.old result
        (Some (codes "104" ++ flat_map (λ n. 0x3b ∷ decimal n) numbers.now)) f.new }
{
    f.write_str("104")?;
    for number in numbers {
        write!(f, ";{number}")?;
    }
    Ok(())
}

/// Writes the code, and the texts, each after a `;`.
pub fn write_texts<W: fmt::Write, A: Allocator>(
    texts: &[Text<A>],
    f: &mut fmt::Formatter<W>,
) -> fmt::Result
    ensures { DisplaysOnOk W.write_str_gives f.old result
        (Some (codes "777" ++ flat_map (λ t. 0x3b ∷ t) texts.now)) f.new }
{
    f.write_str("777")?;
    for text in texts {
        write_text(";", text, f)?;
    }
    Ok(())
}

/// Writes the lossy texts of the parts, with `;` between them.
pub fn write_parts<W: fmt::Write, A: Allocator>(
    parts: &[Items<u8, A>],
    f: &mut fmt::Formatter<W>,
) -> fmt::Result
    ensures { DisplaysOnOk W.write_str_gives f.old result
        (Some (joined_by utf8_lossy parts.now)) f.new }
{
    let Some((first, rest)) = parts.split_first() else {
        return Ok(());
    };
    let first = Lossy(first.as_slice());
    write!(f, "{first}")?;
    write_more_parts(rest, f)
}

// Writes the lossy texts of the parts, each after a `;`.
fn write_more_parts<W: fmt::Write, A: Allocator>(
    rest: &[Items<u8, A>],
    f: &mut fmt::Formatter<W>,
) -> fmt::Result
    ensures { DisplaysOnOk W.write_str_gives f.old result
        (Some (flat_map (λ y. 0x3b ∷ utf8_lossy y) rest.now)) f.new }
{
    for part in rest {
        let part = Lossy(part.as_slice());
        write!(f, ";{part}")?;
    }
    Ok(())
}
