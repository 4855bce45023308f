//! Characters that would begin or end markup, as character references.
ghost use Rattle.std.specs.Prelude.{◌≡◌, ◌<◌, ◌++◌, OnOk, OnErr, string_bytes};
ghost use Rattle.std.specs.Char.{encode_utf8};
ghost use Rattle.std.specs.List.{flat_map};
ghost use Rattle.esc_html.specs.Growing.{Grows};
ghost use Rattle.esc_html.specs.PageParts.{escape, escape_text, needs_reference, reference_text};
ghost use Rattle.fallible_alloc.specs.Refusals.{Refused};

use memchr::memchr3;
use std::alloc::{AllocError, Allocator};

// Appends `more`, with `&`, `<` and `mark` as references, run by run.
pub(crate) fn push_escaped<A: Allocator>(
    html: &mut String<A>,
    more: &str,
    mark: u8,
) -> Result<(), AllocError>
    requires { mark < 128 }
    ensures ok { OnOk result (string_bytes html.new
        ≡ string_bytes html.old ++ flat_map (escape mark) more.now) }
    ensures grown { Grows (string_bytes html.old) (string_bytes html.new) }
    ensures refused { OnErr result (Refused A) }
{
    let mut rest = more;
    while let Some(at) = memchr3(b'&', b'<', mark, rest.as_bytes()) {
        fallible_alloc::push_str(html, &rest[..at])?;
        fallible_alloc::push_str(html, reference(rest.as_bytes()[at]))?;
        rest = &rest[at + 1..];
    }
    fallible_alloc::push_str(html, rest)
}

// Appends a character, as text.
pub(crate) fn push_char<A: Allocator>(html: &mut String<A>, c: char) -> Result<(), AllocError>
    ensures ok { OnOk result (string_bytes html.new
        ≡ string_bytes html.old ++ flat_map escape_text (encode_utf8 c)) }
    ensures refused { OnErr result (Refused A) }
{
    if needs_reference(c) {
        fallible_alloc::push_str(html, char_reference(c))
    } else {
        fallible_alloc::push_char(html, c)
    }
}

// Whether it is one of `&`, `<` and `>`.
fn needs_reference(c: char) -> bool
    ensures { result ≡ needs_reference c }
{
    c == '&' || c == '<' || c == '>'
}

// Its character reference.
fn char_reference(c: char) -> &'static str
    ensures { result.now ≡ reference_text c }
{
    match c {
        '&' => "&amp;",
        '<' => "&lt;",
        '>' => "&gt;",
        _ => "&quot;",
    }
}

// The character reference of one of `&`, `<`, `>` and `"`.
fn reference(byte: u8) -> &'static str
    ensures { result.now ≡ reference_text byte }
{
    match byte {
        b'&' => "&amp;",
        b'<' => "&lt;",
        b'>' => "&gt;",
        _ => "&quot;",
    }
}
