//! The text of parts, one after another.
ghost use Rattle.std.specs.Prelude.{◌≡◌, ◌++◌, OnOk, OnErr, false, string_bytes, true};
ghost use Rattle.esc_html.specs.Addresses.{is_safe_address};
ghost use Rattle.esc_html.specs.Growing.{Grows};
ghost use Rattle.esc_html.specs.PageParts.{link, link_end, page_part_text, span, span_end, text};
ghost use Rattle.fallible_alloc.specs.Refusals.{Refused};

use crate::escaping::push_escaped;
use crate::tag::push_span;
use esc_style::Look;
use std::alloc::{AllocError, Allocator};

/// Appends characters: `&`, `<` and `>` as character references, and any other as it is (WHATWG
/// HTML, 13.3). The error is that memory was refused, and the text stays as it was.
pub fn push_text<A: Allocator>(html: &mut String<A>, more: &str) -> Result<(), AllocError>
    ensures ok { OnOk result (string_bytes html.new
        ≡ string_bytes html.old ++ page_part_text (text more.now)) }
    ensures err { OnErr result (string_bytes html.new ≡ string_bytes html.old) }
    ensures refused { OnErr result (Refused A) }
{
    let len = html.as_str().len();
    match push_escaped(html, more, b'>') {
        Ok(()) => Ok(()),
        Err(error) => {
            html.truncate(len);
            Err(error)
        }
    }
}

/// Begins a span of this look: its classes, and its colours that have no name as a style. The error
/// is that memory was refused, and the text stays as it was.
pub fn open_span<A: Allocator>(html: &mut String<A>, look: &Look) -> Result<(), AllocError>
    ensures ok { OnOk result (string_bytes html.new
        ≡ string_bytes html.old ++ page_part_text (span false look.now)) }
    ensures err { OnErr result (string_bytes html.new ≡ string_bytes html.old) }
    ensures refused { OnErr result (Refused A) }
{
    let len = html.as_str().len();
    match push_span(html, look) {
        Ok(()) => Ok(()),
        Err(error) => {
            html.truncate(len);
            Err(error)
        }
    }
}

/// Ends a span. The error is that memory was refused, and the text stays as it was.
pub fn close_span<A: Allocator>(html: &mut String<A>) -> Result<(), AllocError>
    ensures ok { OnOk result (string_bytes html.new
        ≡ string_bytes html.old ++ page_part_text span_end) }
    ensures err { OnErr result (string_bytes html.new ≡ string_bytes html.old) }
    ensures refused { OnErr result (Refused A) }
{
    fallible_alloc::push_str(html, "</span>")
}

/// Begins a link to this address, in which `&`, `<` and `"` are written as character references.
/// [`is_safe_address`](crate::is_safe_address) says whether a link may lead there. The error is
/// that memory was refused, and the text stays as it was.
pub fn open_link<A: Allocator>(html: &mut String<A>, address: &str) -> Result<(), AllocError>
    requires { is_safe_address address.now ≡ true }
    ensures ok { OnOk result (string_bytes html.new
        ≡ string_bytes html.old ++ page_part_text (link address.now)) }
    ensures err { OnErr result (string_bytes html.new ≡ string_bytes html.old) }
    ensures refused { OnErr result (Refused A) }
{
    let len = html.as_str().len();
    match push_link(html, address) {
        Ok(()) => Ok(()),
        Err(error) => {
            html.truncate(len);
            Err(error)
        }
    }
}

/// Ends a link. The error is that memory was refused, and the text stays as it was.
pub fn close_link<A: Allocator>(html: &mut String<A>) -> Result<(), AllocError>
    ensures ok { OnOk result (string_bytes html.new
        ≡ string_bytes html.old ++ page_part_text link_end) }
    ensures err { OnErr result (string_bytes html.new ≡ string_bytes html.old) }
    ensures refused { OnErr result (Refused A) }
{
    fallible_alloc::push_str(html, "</a>")
}

// Begins a link; if memory is refused, a part of the tag may be written.
pub(crate) fn push_link<A: Allocator>(html: &mut String<A>, address: &str) -> Result<(), AllocError>
    ensures ok { OnOk result (string_bytes html.new
        ≡ string_bytes html.old ++ page_part_text (link address.now)) }
    ensures grown { Grows (string_bytes html.old) (string_bytes html.new) }
    ensures refused { OnErr result (Refused A) }
{
    fallible_alloc::push_str(html, "<a href=\"")?;
    push_escaped(html, address, b'"')?;
    fallible_alloc::push_str(html, "\" rel=\"nofollow noopener noreferrer\">")
}
