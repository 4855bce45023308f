//! The control sequences that make a pen.
ghost use Rattle.std.specs.Prelude.{◌≡◌, ◌≤◌, ◌<◌, ◌++◌, OnErr, OnOk, string_bytes};
ghost use Rattle.std.specs.Str.{IsAscii};
ghost use Rattle.esc_pen.specs.Texts.{blink_text, color_text, colors_text, flag_text, flags_text, ink_text, intensity_text, named_number, number_text, pen_text, rgb_text, sequence, underline_text};
ghost use Rattle.fallible_alloc.specs.Refusals.{Refused};

use crate::ink::Ink;
use crate::pen::Pen;
use esc_sequences::Underline;
use esc_values::RgbColor;
use esc_values::ascii::as_str;
use std::alloc::{AllocError, Allocator};
use typed_functions::{Blink, ColorSpec};

impl Pen {
    /// Appends a control sequence for each of its renditions: these make it of a plain one, for
    /// which nothing is appended. The error is that memory was refused.
    pub fn push_text<A: Allocator>(&self, text: &mut String<A>) -> Result<(), AllocError>
        ensures ok { OnOk result (string_bytes text.new
            ≡ string_bytes text.old ++ pen_text self.now) }
        ensures refused { OnErr result (Refused A) }
    {
        fallible_alloc::push_str(text, intensity_text(self.bold, self.faint))?;
        fallible_alloc::push_str(text, underline_text(self.underline))?;
        fallible_alloc::push_str(text, blink_text(self.blink))?;
        self.push_flags(text)?;
        self.push_colors(text)
    }

    fn push_flags<A: Allocator>(&self, text: &mut String<A>) -> Result<(), AllocError>
        ensures ok { OnOk result (string_bytes text.new
            ≡ string_bytes text.old ++ flags_text self.now) }
        ensures refused { OnErr result (Refused A) }
    {
        push_flag(text, self.italic, "3")?;
        push_flag(text, self.inverse, "7")?;
        push_flag(text, self.concealed, "8")?;
        push_flag(text, self.strikethrough, "9")?;
        push_flag(text, self.overline, "53")
    }

    fn push_colors<A: Allocator>(&self, text: &mut String<A>) -> Result<(), AllocError>
        ensures ok { OnOk result (string_bytes text.new
            ≡ string_bytes text.old ++ colors_text self.now) }
        ensures refused { OnErr result (Refused A) }
    {
        push_ink(text, 30, "38", self.foreground)?;
        push_ink(text, 40, "48", self.background)?;
        push_color(text, "58", b':', self.underline_color)
    }
}

fn push_flag<A: Allocator>(text: &mut String<A>, is_on: bool, body: &str) -> Result<(), AllocError>
    ensures ok { OnOk result (string_bytes text.new
        ≡ string_bytes text.old ++ flag_text is_on body.now) }
    ensures refused { OnErr result (Refused A) }
{
    if is_on {
        push_sequence(text, body)
    } else {
        Ok(())
    }
}

fn push_sequence<A: Allocator>(text: &mut String<A>, body: &str) -> Result<(), AllocError>
    ensures ok { OnOk result (string_bytes text.new
        ≡ string_bytes text.old ++ sequence body.now) }
    ensures refused { OnErr result (Refused A) }
{
    fallible_alloc::push_str(text, "\x1b[")?;
    fallible_alloc::push_str(text, body)?;
    fallible_alloc::push_str(text, "m")
}

// Appends that of a colour: by its name its number, from this one on, or after this one.
fn push_ink<A: Allocator>(
    text: &mut String<A>,
    base: u8,
    target: &str,
    ink: Ink,
) -> Result<(), AllocError>
    requires { base ≤ 40 }
    ensures ok { OnOk result (string_bytes text.new
        ≡ string_bytes text.old ++ ink_text base target.now ink) }
    ensures refused { OnErr result (Refused A) }
{
    match ink {
        Ink::Named(color) => push_named(text, named_number(base, color.index())),
        Ink::Other(color) => push_color(text, target, b';', color),
    }
}

fn push_named<A: Allocator>(text: &mut String<A>, number: u8) -> Result<(), AllocError>
    ensures ok { OnOk result (string_bytes text.new
        ≡ string_bytes text.old ++ sequence (number_text number)) }
    ensures refused { OnErr result (Refused A) }
{
    fallible_alloc::push_str(text, "\x1b[")?;
    push_number(text, number)?;
    fallible_alloc::push_str(text, "m")
}

fn push_color<A: Allocator>(
    text: &mut String<A>,
    target: &str,
    separator: u8,
    color: ColorSpec,
) -> Result<(), AllocError>
    requires { separator < 128 }
    ensures ok { OnOk result (string_bytes text.new
        ≡ string_bytes text.old ++ color_text target.now separator color) }
    ensures refused { OnErr result (Refused A) }
{
    match color {
        ColorSpec::Default => Ok(()),
        ColorSpec::PaletteIndex(number) => {
            fallible_alloc::push_str(text, "\x1b[")?;
            fallible_alloc::push_str(text, target)?;
            push_ascii(text, &[separator, b'5', separator])?;
            push_number(text, number)?;
            fallible_alloc::push_str(text, "m")
        }
        ColorSpec::TrueColor(color) => {
            fallible_alloc::push_str(text, "\x1b[")?;
            fallible_alloc::push_str(text, target)?;
            push_ascii(text, &[separator, b'2'])?;
            push_rgb(text, separator, color)?;
            fallible_alloc::push_str(text, "m")
        }
    }
}

fn push_rgb<A: Allocator>(
    text: &mut String<A>,
    separator: u8,
    color: RgbColor,
) -> Result<(), AllocError>
    requires { separator < 128 }
    ensures ok { OnOk result (string_bytes text.new
        ≡ string_bytes text.old ++ rgb_text separator color) }
    ensures refused { OnErr result (Refused A) }
{
    let (red, green, blue) = color.to_tuple_rgb8();
    push_ascii(text, &[separator])?;
    push_number(text, red)?;
    push_ascii(text, &[separator])?;
    push_number(text, green)?;
    push_ascii(text, &[separator])?;
    push_number(text, blue)
}

fn push_number<A: Allocator>(text: &mut String<A>, number: u8) -> Result<(), AllocError>
    ensures ok { OnOk result (string_bytes text.new
        ≡ string_bytes text.old ++ number_text number) }
    ensures refused { OnErr result (Refused A) }
{
    if number < 10 {
        push_ascii(text, &[48 + number])
    } else if number < 100 {
        push_ascii(text, &[48 + number / 10, 48 + number % 10])
    } else {
        push_ascii(
            text,
            &[48 + number / 100, 48 + number / 10 % 10, 48 + number % 10],
        )
    }
}

fn push_ascii<A: Allocator>(text: &mut String<A>, bytes: &[u8]) -> Result<(), AllocError>
    requires { IsAscii bytes.now }
    ensures ok { OnOk result (string_bytes text.new ≡ string_bytes text.old ++ bytes.now) }
    ensures refused { OnErr result (Refused A) }
{
    fallible_alloc::push_str(text, as_str(bytes))
}

// Returns the number of a colour that has a name.
fn named_number(base: u8, index: u8) -> u8
    requires base { base ≤ 40 }
    requires index { index < 16 }
    ensures { result ≡ named_number base index }
{
    if index < 8 {
        base + index
    } else {
        base + 52 + index
    }
}

fn intensity_text(bold: bool, faint: bool) -> &'static str
    ensures { result.now ≡ intensity_text bold faint }
{
    match (bold, faint) {
        (false, false) => "",
        (true, false) => "\x1b[1m",
        (false, true) => "\x1b[2m",
        (true, true) => "\x1b[1m\x1b[2m",
    }
}

fn underline_text(underline: Underline) -> &'static str
    ensures { result.now ≡ underline_text underline }
{
    match underline {
        Underline::None => "",
        Underline::Single => "\x1b[4m",
        Underline::Double => "\x1b[21m",
        Underline::Curly => "\x1b[4:3m",
        Underline::Dotted => "\x1b[4:4m",
        Underline::Dashed => "\x1b[4:5m",
    }
}

fn blink_text(blink: Blink) -> &'static str
    ensures { result.now ≡ blink_text blink }
{
    match blink {
        Blink::None => "",
        Blink::Slow => "\x1b[5m",
        Blink::Rapid => "\x1b[6m",
    }
}
