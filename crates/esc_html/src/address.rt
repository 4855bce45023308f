//! Addresses of links.
ghost use Rattle.std.specs.Prelude.{◌≡◌};
ghost use Rattle.std.specs.List.{list_all};
ghost use Rattle.std.specs.Str.{chars};
ghost use Rattle.esc_html.specs.Addresses.{has_safe_scheme, has_scheme, is_address_char, is_safe_address, is_short};
ghost use Rattle.esc_html.specs.Marks.{address_of, is_page_address};

use crate::character::is_noncharacter;
use esc_links::Hyperlink;
use esc_values::Text;
use std::alloc::Allocator;

// How many bytes of an address VTE and iTerm2 take.
pub(crate) const LONGEST_ADDRESS: usize = 2083;

/// Whether a link may lead to this address: its scheme is `http` or `https` with `//`, or `mailto`,
/// in letters of either case (RFC 3986, 3.1), and it has no control, no space and no noncharacter.
/// A browser leaves out tabs, line ends and the text before the scheme, and takes an address
/// without `//` for one of the page's own host (WHATWG URL, 4.4): so such an address is refused. So
/// is one of more than 2,083 bytes, as in VTE and iTerm2.
pub fn is_safe_address(address: &str) -> bool
    ensures { result ≡ is_safe_address address.now }
{
    let bytes = address.as_bytes();
    is_short(bytes) && has_safe_scheme(bytes) && are_address_chars(address)
}

// Whether these bytes are no longer than terminals take.
fn is_short(address: &[u8]) -> bool
    ensures { result ≡ is_short address.now }
{
    address.len() <= LONGEST_ADDRESS
}

/// Whether these bytes begin with a scheme of a safe address.
pub(crate) fn has_safe_scheme(address: &[u8]) -> bool
    ensures { result ≡ has_safe_scheme address.now }
{
    has_scheme(address, b"http://")
        || has_scheme(address, b"https://")
        || has_scheme(address, b"mailto:")
}

// Whether these bytes begin with a scheme and the text after it.
fn has_scheme(address: &[u8], scheme: &[u8]) -> bool
    ensures { result ≡ has_scheme scheme.now address.now }
{
    scheme.len() <= address.len() && address[..scheme.len()].eq_ignore_ascii_case(scheme)
}

/// Whether each character may be in an address.
pub(crate) fn are_address_chars(address: &str) -> bool
    ensures { result ≡ list_all is_address_char (chars address.now) }
{
    for c in address.chars() {
        if !is_address_char(c) {
            return false;
        }
    }
    true
}

// Whether the character is neither a control nor a space, and no noncharacter.
fn is_address_char(c: char) -> bool
    ensures { result ≡ is_address_char c }
{
    '\u{20}' < c && (c < '\u{7f}' || '\u{9f}' < c) && !is_noncharacter(c)
}

// The target of a link in a page: none, if its address is not safe.
pub(crate) fn address_of<A: Allocator>(link: Option<Hyperlink<A>>) -> Option<Text<A>>
    ensures { result ≡ address_of link }
{
    let Some(link) = link else {
        return None;
    };
    if is_page_address(link.uri.as_str()) {
        Some(link.uri)
    } else {
        None
    }
}

// Whether a page may lead to this address.
pub(crate) fn is_page_address(address: &str) -> bool
    ensures { result ≡ is_page_address address.now }
{
    is_safe_address(address)
}
