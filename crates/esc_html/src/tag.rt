//! The start tag of a span.
ghost use Rattle.std.specs.Prelude.{◌≡◌, ◌&&◌, ◌++◌, IfOk, OnOk, OnErr, false, is_none, string_bytes, true, Some};
ghost use Rattle.std.specs.List.{list_all};
ghost use Rattle.esc_html.specs.Attributes.{class_opener, ending_quote, next_class, next_style, style_opener};
ghost use Rattle.esc_style.specs.Classes.{index_digits, index_text};
ghost use Rattle.esc_style.specs.Colors.{is_small};
ghost use Rattle.esc_html.specs.Growing.{Grows};
ghost use Rattle.esc_style.specs.Looks.{values_of};
ghost use Rattle.esc_html.specs.PageParts.{attributes_text, class_attribute, page_part_text, span, style_attribute};
ghost use Rattle.fallible_alloc.specs.Refusals.{Refused};

use crate::pair::push_pair;
use esc_style::{Class, Look, Style};
use std::alloc::{AllocError, Allocator};
use std::str;

// Begins a span; if memory is refused, a part of the tag may be written.
pub(crate) fn push_span<A: Allocator>(html: &mut String<A>, look: &Look) -> Result<(), AllocError>
    ensures ok { OnOk result (string_bytes html.new
        ≡ string_bytes html.old ++ page_part_text (span false look.now)) }
    ensures grown { Grows (string_bytes html.old) (string_bytes html.new) }
    ensures refused { OnErr result (Refused A) }
{
    fallible_alloc::push_str(html, "<span")?;
    push_class_attribute(html, &look.classes())?;
    push_style_attribute(html, &look.styles())?;
    fallible_alloc::push_str(html, ">")
}

// The attribute `class`, if there are classes.
fn push_class_attribute<A: Allocator>(
    html: &mut String<A>,
    classes: &[Option<Class>],
) -> Result<(), AllocError>
    ensures ok { OnOk result (string_bytes html.new
        ≡ string_bytes html.old ++ attributes_text (class_attribute (values_of classes.now))) }
    ensures grown { Grows (string_bytes html.old) (string_bytes html.new) }
    ensures refused { OnErr result (Refused A) }
{
    let mut is_first = true;
    for class in classes {
        is_first = push_next_class(html, is_first, *class)?;
    }
    end_attribute(html, is_first)
}

// A class, if it is there, with a prefix: before the first comes the attribute's name, and before
// any other a space. Returns whether the next is still the first.
fn push_next_class<A: Allocator>(
    html: &mut String<A>,
    is_first: bool,
    class: Option<Class>,
) -> Result<bool, AllocError>
    ensures first { IfOk result (λ b. b ≡ is_first && is_none class) }
    ensures ok { OnOk result (string_bytes html.new
        ≡ string_bytes html.old ++ next_class is_first class) }
    ensures grown { Grows (string_bytes html.old) (string_bytes html.new) }
    ensures refused { OnErr result (Refused A) }
{
    let Some(class) = class else {
        return Ok(is_first);
    };
    push_pair(html, class_opener(is_first), class.name())?;
    push_index(html, class.index())?;
    Ok(false)
}

// The entry of the palette that the name of a class ends in, if it does.
fn push_index<A: Allocator>(html: &mut String<A>, index: Option<u8>) -> Result<(), AllocError>
    ensures ok { OnOk result (string_bytes html.new
        ≡ string_bytes html.old ++ index_text index) }
    ensures grown { Grows (string_bytes html.old) (string_bytes html.new) }
    ensures refused { OnErr result (Refused A) }
{
    match index {
        Some(index) => push_digits(html, index),
        None => Ok(()),
    }
}

fn push_digits<A: Allocator>(html: &mut String<A>, index: u8) -> Result<(), AllocError>
    ensures ok { OnOk result (string_bytes html.new
        ≡ string_bytes html.old ++ index_digits index) }
    ensures grown { Grows (string_bytes html.old) (string_bytes html.new) }
    ensures refused { OnErr result (Refused A) }
{
    let tens = b'0' + index / 10 % 10;
    let ones = b'0' + index % 10;
    if index < 100 {
        fallible_alloc::push_str(html, as_str(&[tens, ones]))
    } else {
        fallible_alloc::push_str(html, as_str(&[b'0' + index / 100 % 10, tens, ones]))
    }
}

// The text before the name of a class: a prefix of its own, too.
fn class_opener(is_first: bool) -> &'static str
    ensures { result.now ≡ class_opener is_first }
{
    if is_first { " class=\"es-" } else { " es-" }
}

// The attribute `style`, if there are styles.
fn push_style_attribute<A: Allocator>(
    html: &mut String<A>,
    styles: &[Option<Style>],
) -> Result<(), AllocError>
    ensures ok { OnOk result (string_bytes html.new
        ≡ string_bytes html.old ++ attributes_text (style_attribute (values_of styles.now))) }
    ensures grown { Grows (string_bytes html.old) (string_bytes html.new) }
    ensures refused { OnErr result (Refused A) }
{
    let mut is_first = true;
    for style in styles {
        is_first = push_next_style(html, is_first, *style)?;
    }
    end_attribute(html, is_first)
}

// A style, if it is there. Returns whether the next is still the first.
fn push_next_style<A: Allocator>(
    html: &mut String<A>,
    is_first: bool,
    style: Option<Style>,
) -> Result<bool, AllocError>
    ensures first { IfOk result (λ b. b ≡ is_first && is_none style) }
    ensures ok { OnOk result (string_bytes html.new
        ≡ string_bytes html.old ++ next_style is_first style) }
    ensures grown { Grows (string_bytes html.old) (string_bytes html.new) }
    ensures refused { OnErr result (Refused A) }
{
    let Some(style) = style else {
        return Ok(is_first);
    };
    push_style(html, is_first, &style)?;
    Ok(false)
}

// A style; before the first comes the attribute's name.
pub(crate) fn push_style<A: Allocator>(
    html: &mut String<A>,
    is_first: bool,
    style: &Style,
) -> Result<(), AllocError>
    ensures ok { OnOk result (string_bytes html.new
        ≡ string_bytes html.old ++ next_style is_first (Some style.now)) }
    ensures grown { Grows (string_bytes html.old) (string_bytes html.new) }
    ensures refused { OnErr result (Refused A) }
{
    push_pair(html, style_opener(is_first), style.property())?;
    let code = style.code();
    fallible_alloc::push_str(html, as_str(&code))
}

// The text before a style.
fn style_opener(is_first: bool) -> &'static str
    ensures { result.now ≡ style_opener is_first }
{
    if is_first { " style=\"" } else { "" }
}

// ASCII as a text.
fn as_str(code: &[u8]) -> &str
    requires { list_all is_small code.now ≡ true }
    ensures { result.now ≡ code.now }
{
    unsafe { str::from_utf8_unchecked(code) }
}

// Ends an attribute, if it was begun.
fn end_attribute<A: Allocator>(html: &mut String<A>, is_absent: bool) -> Result<(), AllocError>
    ensures ok { OnOk result (string_bytes html.new ≡ string_bytes html.old
        ++ ending_quote is_absent) }
    ensures grown { Grows (string_bytes html.old) (string_bytes html.new) }
    ensures refused { OnErr result (Refused A) }
{
    fallible_alloc::push_str(html, attribute_end(is_absent))
}

// The quote that ends an attribute, if it was begun.
fn attribute_end(is_absent: bool) -> &'static str
    ensures { result.now ≡ ending_quote is_absent }
{
    if is_absent { "" } else { "\"" }
}
