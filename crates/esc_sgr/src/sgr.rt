//! The control sequence that makes a look.
ghost use Rattle.std.specs.Prelude.{◌≡◌, ◌≤◌, ◌<◌, ◌++◌, [], false, OnErr, OnOk, string_bytes};
ghost use Rattle.esc_sgr.specs.Sgr.{change_text, color_text, colors_text, flag_text, flags_text, look_text, named_number, number_text, rgb_text, underline_color_text, underline_text, weight_text};
ghost use Rattle.fallible_alloc.specs.Refusals.{Refused};

use crate::ascii::push_ascii;
use crate::same::is_same;
use esc_sequences::Underline;
use esc_style::{Color, Look};
use esc_values::RgbColor;
use std::alloc::{AllocError, Allocator};

/// Appends the text that makes a look when another holds: nothing, if they are the same. The error
/// is that memory was refused.
#[inline]
pub fn push_change<A: Allocator>(
    text: &mut String<A>,
    from: &Look,
    to: &Look,
) -> Result<(), AllocError>
    ensures ok { OnOk result (string_bytes text.new
        ≡ string_bytes text.old ++ change_text from.now to.now) }
    ensures refused { OnErr result (Refused A) }
{
    if is_same(from, to) {
        return Ok(());
    }
    push_look(text, to)
}

// Appends the text that makes a look, whatever held before.
fn push_look<A: Allocator>(text: &mut String<A>, look: &Look) -> Result<(), AllocError>
    ensures ok { OnOk result (string_bytes text.new
        ≡ string_bytes text.old ++ look_text look.now) }
    ensures refused { OnErr result (Refused A) }
{
    fallible_alloc::push_str(text, "\x1b[0")?;
    fallible_alloc::push_str(text, weight_text(look.bold, look.faint))?;
    fallible_alloc::push_str(text, underline_text(look.underline))?;
    push_flags(text, look)?;
    push_colors(text, look)?;
    fallible_alloc::push_str(text, "m")
}

fn push_flags<A: Allocator>(text: &mut String<A>, look: &Look) -> Result<(), AllocError>
    ensures ok { OnOk result (string_bytes text.new
        ≡ string_bytes text.old ++ flags_text look.now) }
    ensures refused { OnErr result (Refused A) }
{
    if has_flags(look) {
        push_each_flag(text, look)
    } else {
        Ok(())
    }
}

// Returns whether one of its flags is on.
fn has_flags(look: &Look) -> bool
    ensures { result ≡ false → flags_text look.now ≡ [] }
{
    look.italic
        || look.blink
        || look.inverse
        || look.concealed
        || look.strikethrough
        || look.overline
}

fn push_each_flag<A: Allocator>(text: &mut String<A>, look: &Look) -> Result<(), AllocError>
    ensures ok { OnOk result (string_bytes text.new
        ≡ string_bytes text.old ++ flags_text look.now) }
    ensures refused { OnErr result (Refused A) }
{
    push_flag(text, look.italic, ";3")?;
    push_flag(text, look.blink, ";5")?;
    push_flag(text, look.inverse, ";7")?;
    push_flag(text, look.concealed, ";8")?;
    push_flag(text, look.strikethrough, ";9")?;
    push_flag(text, look.overline, ";53")
}

fn push_flag<A: Allocator>(
    text: &mut String<A>,
    is_on: bool,
    parameter: &str,
) -> Result<(), AllocError>
    ensures ok { OnOk result (string_bytes text.new
        ≡ string_bytes text.old ++ flag_text is_on parameter.now) }
    ensures refused { OnErr result (Refused A) }
{
    if is_on {
        fallible_alloc::push_str(text, parameter)
    } else {
        Ok(())
    }
}

fn push_colors<A: Allocator>(text: &mut String<A>, look: &Look) -> Result<(), AllocError>
    ensures ok { OnOk result (string_bytes text.new
        ≡ string_bytes text.old ++ colors_text look.now) }
    ensures refused { OnErr result (Refused A) }
{
    push_color(text, 30, ";38;5", ";38;2", look.foreground)?;
    push_color(text, 40, ";48;5", ";48;2", look.background)?;
    push_underline_color(text, look.underline_color)
}

fn push_color<A: Allocator>(
    text: &mut String<A>,
    base: u8,
    entry: &str,
    direct: &str,
    color: Color,
) -> Result<(), AllocError>
    requires { base ≤ 40 }
    ensures ok { OnOk result (string_bytes text.new
        ≡ string_bytes text.old ++ color_text base entry.now direct.now color) }
    ensures refused { OnErr result (Refused A) }
{
    match color {
        Color::Default => Ok(()),
        Color::Named(color) => push_number(text, named_number(base, color.index())),
        Color::Palette(index) => {
            fallible_alloc::push_str(text, entry)?;
            push_number(text, index)
        }
        Color::Direct(color) => {
            fallible_alloc::push_str(text, direct)?;
            push_rgb(text, color)
        }
    }
}

fn push_underline_color<A: Allocator>(text: &mut String<A>, color: Color) -> Result<(), AllocError>
    ensures ok { OnOk result (string_bytes text.new
        ≡ string_bytes text.old ++ underline_color_text color) }
    ensures refused { OnErr result (Refused A) }
{
    match color {
        Color::Default => Ok(()),
        Color::Named(color) => {
            fallible_alloc::push_str(text, ";58;5")?;
            push_number(text, color.index())
        }
        Color::Palette(index) => {
            fallible_alloc::push_str(text, ";58;5")?;
            push_number(text, index)
        }
        Color::Direct(color) => {
            fallible_alloc::push_str(text, ";58;2")?;
            push_rgb(text, color)
        }
    }
}

fn push_rgb<A: Allocator>(text: &mut String<A>, color: RgbColor) -> Result<(), AllocError>
    ensures ok { OnOk result (string_bytes text.new
        ≡ string_bytes text.old ++ rgb_text color) }
    ensures refused { OnErr result (Refused A) }
{
    let (red, green, blue) = color.to_tuple_rgb8();
    push_number(text, red)?;
    push_number(text, green)?;
    push_number(text, blue)
}

#[inline]
fn push_number<A: Allocator>(text: &mut String<A>, number: u8) -> Result<(), AllocError>
    ensures ok { OnOk result (string_bytes text.new
        ≡ string_bytes text.old ++ number_text number) }
    ensures refused { OnErr result (Refused A) }
{
    if number < 10 {
        push_ascii(text, &[b';', 48 + number])
    } else if number < 100 {
        push_ascii(text, &[b';', 48 + number / 10, 48 + number % 10])
    } else {
        push_ascii(
            text,
            &[
                b';',
                48 + number / 100,
                48 + number / 10 % 10,
                48 + number % 10,
            ],
        )
    }
}

// Returns the number of a colour that has a name.
fn named_number(base: u8, index: u8) -> u8
    requires base { base ≤ 40 }
    requires index { index < 16 }
    ensures { result ≡ named_number base index }
{
    if index < 8 {
        base + index
    } else {
        base + 52 + index
    }
}

fn weight_text(bold: bool, faint: bool) -> &'static str
    ensures { result.now ≡ weight_text bold faint }
{
    match (bold, faint) {
        (false, false) => "",
        (true, false) => ";1",
        (false, true) => ";2",
        (true, true) => ";1;2",
    }
}

fn underline_text(underline: Underline) -> &'static str
    ensures { result.now ≡ underline_text underline }
{
    match underline {
        Underline::None => "",
        Underline::Single => ";4",
        Underline::Double => ";21",
        Underline::Curly => ";4:3",
        Underline::Dotted => ";4:4",
        Underline::Dashed => ";4:5",
    }
}
