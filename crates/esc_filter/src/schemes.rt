//! The targets of links.
ghost use Rattle.std.specs.Prelude.{◌≡◌};
ghost use Rattle.std.specs.List.{list_all};
ghost use Rattle.esc_actions.specs.Values.{value_of};
ghost use Rattle.esc_filter.specs.Schemes.{has_one_scheme, has_scheme, is_scheme, is_scheme_byte, leads, link_leads, parts_lead};

use crate::links::{address_in, is_address};
use esc_actions::Action;
use esc_osc::OperatingSystemCommand;
use esc_values::Items;
use std::alloc::Allocator;

/// Returns whether a text is a scheme: a letter, and then letters, digits, `+`, `-` and `.` (RFC
/// 3986,
/// 3.1).
pub fn is_scheme(text: &str) -> bool
    ensures { result ≡ is_scheme text.now }
{
    match text.as_bytes() {
        [first, rest @ ..] => first.is_ascii_alphabetic() && are_scheme_bytes(rest),
        [] => false,
    }
}

// Returns whether each byte may come after the first of a scheme.
fn are_scheme_bytes(bytes: &[u8]) -> bool
    ensures { result ≡ list_all is_scheme_byte bytes.now }
{
    bytes.iter().all(is_scheme_byte)
}

fn is_scheme_byte(byte: &u8) -> bool
    ensures { result ≡ is_scheme_byte byte.now }
{
    byte.is_ascii_alphanumeric() || *byte == b'+' || *byte == b'-' || *byte == b'.'
}

// Returns whether the action is no link, the end of one, as a link without an address is, or a link
// whose address has one of these schemes.
pub(crate) fn leads<A: Allocator>(schemes: &Option<&str>, action: &Action<A>) -> bool
    ensures { result ≡ leads schemes.now (value_of action.now) }
{
    match action {
        Action::OperatingSystemCommand(command) => link_leads(schemes, command.as_ref()),
        _ => true,
    }
}

fn link_leads<A: Allocator>(schemes: &Option<&str>, command: &OperatingSystemCommand<A>) -> bool
    ensures { result ≡ link_leads schemes.now command.now }
{
    match (schemes, command) {
        (Some(schemes), OperatingSystemCommand::SetHyperlink(Some(link))) => {
            let address = link.uri.as_bytes();
            address.is_empty() || has_one_scheme(address, schemes.as_bytes())
        }
        (Some(schemes), OperatingSystemCommand::Unspecified(parts)) => {
            parts_lead(address_in(parts.as_slice()), schemes.as_bytes())
        }
        _ => true,
    }
}

// Returns whether an address in these parts, with the scheme in the first part, has one of these
// schemes. It is true also if they are no address, or if there are none.
fn parts_lead<A: Allocator>(parts: &[Items<u8, A>], schemes: &[u8]) -> bool
    ensures { result ≡ parts_lead parts.now schemes.now }
{
    match parts {
        [first, ..] => !is_address(parts) || has_one_scheme(first.as_slice(), schemes),
        [] => true,
    }
}

// Returns whether the address has one of these schemes, between which there is `,`.
fn has_one_scheme(address: &[u8], schemes: &[u8]) -> bool
    ensures { result ≡ has_one_scheme address.now schemes.now }
{
    schemes
        .split(|b| *b == b',')
        .any(|scheme| begins_with_scheme(address, scheme))
}

// Returns whether the address begins with this scheme and a colon.
fn begins_with_scheme(address: &[u8], scheme: &[u8]) -> bool
    ensures { result ≡ has_scheme address.now scheme.now }
{
    match address.split_at_checked(scheme.len()) {
        Some((begins, [b':', ..])) => begins.eq_ignore_ascii_case(scheme),
        _ => false,
    }
}
