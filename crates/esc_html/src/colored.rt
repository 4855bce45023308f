//! The start tags of the looks that logs have most: a colour by its name, and nothing else.
ghost use Rattle.std.specs.Prelude.{◌≡◌, ◌++◌, IfSome, OnErr, OnOk, false, string_bytes, true};
ghost use Rattle.esc_html.specs.PageParts.{page_part_text, span};
ghost use Rattle.esc_html.specs.Plain.{color_look, is_colored_alone};
ghost use Rattle.fallible_alloc.specs.Refusals.{Refused};

use crate::plain::{is_markless, is_own};
use crate::tag::push_span;
use esc_style::{Color, Look};
use std::alloc::{AllocError, Allocator};
use typed_functions::AnsiColor;

/// Begins a span; if memory is refused, a part of the tag may be written.
#[inline]
pub(crate) fn push_any_span<A: Allocator>(
    html: &mut String<A>,
    look: &Look,
) -> Result<(), AllocError>
    ensures ok { OnOk result (string_bytes html.new
        ≡ string_bytes html.old ++ page_part_text (span false look.now)) }
    ensures refused { OnErr result (Refused A) }
{
    match colored_tag(look) {
        Some(tag) => fallible_alloc::push_str(html, tag),
        None => push_span(html, look),
    }
}

// The start tag of a span of this look, if it is one of them.
fn colored_tag(look: &Look) -> Option<&'static str>
    ensures { IfSome result (λ t. t.now ≡ page_part_text (span false look.now)) }
{
    match look.foreground {
        Color::Named(color) => tag_if(is_colored_alone(look), color),
        Color::Default | Color::Palette(_) | Color::Direct(_) => None,
    }
}

fn tag_if(is_alone: bool, color: AnsiColor) -> Option<&'static str>
    ensures { IfSome result (λ t. (is_alone ≡ true)
        × (t.now ≡ page_part_text (span false (color_look color)))) }
{
    if is_alone { Some(tag_of(color)) } else { None }
}

// Whether it has no rendition but a colour of the characters.
pub(crate) fn is_colored_alone(look: &Look) -> bool
    ensures { result ≡ is_colored_alone look.now }
{
    is_markless(look) && is_own(look.background) && is_own(look.underline_color)
}

// The start tag of a span in this colour.
pub(crate) fn tag_of(color: AnsiColor) -> &'static str
    ensures { result.now ≡ page_part_text (span false (color_look color)) }
{
    match color {
        AnsiColor::Black => "<span class=\"es-fg-black\">",
        AnsiColor::Red => "<span class=\"es-fg-red\">",
        AnsiColor::Green => "<span class=\"es-fg-green\">",
        AnsiColor::Yellow => "<span class=\"es-fg-yellow\">",
        AnsiColor::Blue => "<span class=\"es-fg-blue\">",
        AnsiColor::Magenta => "<span class=\"es-fg-magenta\">",
        AnsiColor::Cyan => "<span class=\"es-fg-cyan\">",
        AnsiColor::White => "<span class=\"es-fg-white\">",
        AnsiColor::BrightBlack => "<span class=\"es-fg-bright-black\">",
        AnsiColor::BrightRed => "<span class=\"es-fg-bright-red\">",
        AnsiColor::BrightGreen => "<span class=\"es-fg-bright-green\">",
        AnsiColor::BrightYellow => "<span class=\"es-fg-bright-yellow\">",
        AnsiColor::BrightBlue => "<span class=\"es-fg-bright-blue\">",
        AnsiColor::BrightMagenta => "<span class=\"es-fg-bright-magenta\">",
        AnsiColor::BrightCyan => "<span class=\"es-fg-bright-cyan\">",
        AnsiColor::BrightWhite => "<span class=\"es-fg-bright-white\">",
    }
}
