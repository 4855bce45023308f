//! The start tag of a span whose look is declarations alone.
ghost use Rattle.std.specs.Prelude.{◌≡◌, ◌++◌, OnErr, OnOk, string_bytes, true};
ghost use Rattle.esc_html.specs.Inline.{background_text, colors_text, declared_text, decoration_text, foreground_text, is_underlined, keywords_text, kind_text, lines_text, rgb_of, slant_text, weight_text};
ghost use Rattle.esc_html.specs.PageParts.{page_part_text, span};
ghost use Rattle.esc_style.specs.Looks.{seen_foreground, shown_background};
ghost use Rattle.fallible_alloc.specs.Refusals.{Refused};

use crate::pair::push_pair;
use crate::shades::{ansi_rgb, around_rgb, text_rgb};
use crate::tag::push_style;
use esc_sequences::Underline;
use esc_style::{Color, Look, Style, palette};
use esc_values::RgbColor;
use std::alloc::{AllocError, Allocator};

// The declaration of a colour.
#[derive(Clone, Copy)]
pub(crate) enum Declared {
    // This declaration, or none if it is empty.
    Keyword(&'static str),
    // A colour by numbers.
    Numbers(Style),
}

// Begins a span; if memory is refused, a part of the tag may be written.
pub(crate) fn push_inline_span<A: Allocator>(
    html: &mut String<A>,
    look: &Look,
) -> Result<(), AllocError>
    ensures ok { OnOk result (string_bytes html.new
        ≡ string_bytes html.old ++ page_part_text (span true look.now)) }
    ensures refused { OnErr result (Refused A) }
{
    fallible_alloc::push_str(html, "<span style=\"")?;
    push_keywords(html, look)?;
    push_colors(html, look)?;
    fallible_alloc::push_str(html, "\">")
}

// The declarations with keywords.
fn push_keywords<A: Allocator>(html: &mut String<A>, look: &Look) -> Result<(), AllocError>
    ensures ok { OnOk result (string_bytes html.new
        ≡ string_bytes html.old ++ keywords_text look.now) }
    ensures refused { OnErr result (Refused A) }
{
    let underlined = is_underlined(look.underline);
    push_pair(html, weight(look.bold, look.faint), slant(look.italic))?;
    push_pair(
        html,
        lines(underlined, look.strikethrough, look.overline, look.blink),
        kind(look.underline),
    )
}

// The declarations of colours.
fn push_colors<A: Allocator>(html: &mut String<A>, look: &Look) -> Result<(), AllocError>
    ensures ok { OnOk result (string_bytes html.new
        ≡ string_bytes html.old ++ colors_text look.now) }
    ensures refused { OnErr result (Refused A) }
{
    push_declared(html, foreground(look))?;
    push_declared(html, background(look))?;
    push_declared(html, decoration(look.underline_color))
}

// Appends the declaration of a colour.
fn push_declared<A: Allocator>(html: &mut String<A>, declared: Declared) -> Result<(), AllocError>
    ensures ok { OnOk result (string_bytes html.new
        ≡ string_bytes html.old ++ declared_text declared) }
    ensures refused { OnErr result (Refused A) }
{
    match declared {
        Declared::Keyword(text) => fallible_alloc::push_str(html, text),
        Declared::Numbers(style) => push_style(html, false, &style),
    }
}

// How bright characters are.
fn weight(bold: bool, faint: bool) -> &'static str
    ensures { result.now ≡ weight_text bold faint }
{
    match (bold, faint) {
        (false, false) => "",
        (true, false) => "font-weight:bold;",
        (false, true) => "opacity:0.8;",
        (true, true) => "font-weight:bold;opacity:0.8;",
    }
}

// Whether they are slanted.
fn slant(italic: bool) -> &'static str
    ensures { result.now ≡ slant_text italic }
{
    if italic { "font-style:italic;" } else { "" }
}

// Whether there is a line under them.
fn is_underlined(underline: Underline) -> bool
    ensures { result ≡ is_underlined underline }
{
    match underline {
        Underline::None => false,
        Underline::Single
        | Underline::Double
        | Underline::Curly
        | Underline::Dotted
        | Underline::Dashed => true,
    }
}

// The lines under, through and over them, and that they blink.
fn lines(under: bool, through: bool, over: bool, blink: bool) -> &'static str
    ensures { result.now ≡ lines_text under through over blink }
{
    match (under, through, over, blink) {
        (false, false, false, false) => "",
        (true, false, false, false) => "text-decoration-line: underline;",
        (false, true, false, false) => "text-decoration-line: line-through;",
        (true, true, false, false) => "text-decoration-line: underline line-through;",
        (false, false, true, false) => "text-decoration-line: overline;",
        (true, false, true, false) => "text-decoration-line: underline overline;",
        (false, true, true, false) => "text-decoration-line: line-through overline;",
        (true, true, true, false) => "text-decoration-line: underline line-through overline;",
        (false, false, false, true) => "text-decoration-line: blink;",
        (true, false, false, true) => "text-decoration-line: underline blink;",
        (false, true, false, true) => "text-decoration-line: line-through blink;",
        (true, true, false, true) => "text-decoration-line: underline line-through blink;",
        (false, false, true, true) => "text-decoration-line: overline blink;",
        (true, false, true, true) => "text-decoration-line: underline overline blink;",
        (false, true, true, true) => "text-decoration-line: line-through overline blink;",
        (true, true, true, true) => "text-decoration-line: underline line-through overline blink;",
    }
}

// The kind of the line under them.
fn kind(underline: Underline) -> &'static str
    ensures { result.now ≡ kind_text underline }
{
    match underline {
        Underline::None | Underline::Single => "",
        Underline::Double => "text-decoration-style:double;",
        Underline::Curly => "text-decoration-style:wavy;",
        Underline::Dotted => "text-decoration-style:dotted;",
        Underline::Dashed => "text-decoration-style:dashed;",
    }
}

// Their colour.
fn foreground(look: &Look) -> Declared
    ensures { declared_text result ≡ foreground_text look.now.concealed look.now.inverse
        (seen_foreground look.now) (shown_background look.now) }
{
    if look.concealed {
        return Declared::Keyword("color:transparent;");
    }
    match text_rgb(
        look.inverse,
        look.seen_foreground(),
        look.shown_background(),
    ) {
        Some(rgb) => {
            let (red, green, blue) = rgb.to_tuple_rgb8();
            Declared::Numbers(Style::Color(red, green, blue))
        }
        None if look.inverse => Declared::Keyword("color:Canvas;"),
        None => Declared::Keyword(""),
    }
}

// The colour around them.
fn background(look: &Look) -> Declared
    ensures { declared_text result ≡ background_text look.now.inverse
        (seen_foreground look.now) (shown_background look.now) }
{
    match around_rgb(look.seen_foreground(), look.shown_background()) {
        Some(rgb) => {
            let (red, green, blue) = rgb.to_tuple_rgb8();
            Declared::Numbers(Style::BackgroundColor(red, green, blue))
        }
        None if look.inverse => Declared::Keyword("background-color:CanvasText;"),
        None => Declared::Keyword(""),
    }
}

// The colour of the line under them.
fn decoration(color: Color) -> Declared
    ensures { declared_text result ≡ decoration_text color }
{
    match rgb_of(color) {
        Some(rgb) => {
            let (red, green, blue) = rgb.to_tuple_rgb8();
            Declared::Numbers(Style::TextDecorationColor(red, green, blue))
        }
        None => Declared::Keyword(""),
    }
}

// A colour by numbers; the page's own has none.
fn rgb_of(color: Color) -> Option<RgbColor>
    ensures { result ≡ rgb_of color }
{
    match color {
        Color::Default => None,
        Color::Named(color) => Some(ansi_rgb(color)),
        Color::Palette(index) => Some(palette(index)),
        Color::Direct(rgb) => Some(rgb),
    }
}
