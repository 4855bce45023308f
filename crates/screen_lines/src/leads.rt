//! The beginning and the end of a link.
ghost use Rattle.std.specs.Prelude.{◌≡◌, ◌++◌, OnErr, OnOk, string_bytes};
ghost use Rattle.std.specs.List.{list_all};
ghost use Rattle.std.specs.Option.{option_map};
ghost use Rattle.esc_terminal.specs.Links.{target};
ghost use Rattle.fallible_alloc.specs.Refusals.{Refused};
ghost use Rattle.screen_lines.specs.Parts.{id_length, id_of, id_text, is_address_char, is_id, is_writable, lead_length, lead_text, room_after};

use esc_links::Hyperlink;
use fallible_alloc::push_str;
use std::alloc::{AllocError, Allocator};

/// How many bytes links may take after this one. A link is not written, so that there is none, if
/// there is no room for it, or its id or its address has a character other than those of ASCII that
/// show.
pub(crate) fn room_after<A: Allocator>(room: u128, link: &Hyperlink<A>) -> Option<u128>
    ensures { result ≡ room_after room (target link.now) }
{
    if !is_writable(link) {
        return None;
    }
    let length = length(link);
    if length <= room {
        Some(room - length)
    } else {
        None
    }
}

fn is_writable<A: Allocator>(link: &Hyperlink<A>) -> bool
    ensures { result ≡ is_writable (target link.now) }
{
    is_id(id_of(link)) && are_address_chars(link.uri.as_str())
}

// How many bytes a link takes at most, with its end.
fn length<A: Allocator>(link: &Hyperlink<A>) -> u128
    ensures { result ≡ lead_length (target link.now) }
{
    id_length(id_of(link)) as u128 + link.uri.as_str().len() as u128 + 0x20
}

fn id_length(id: Option<&str>) -> usize
    ensures { result ≡ id_length (option_map (λ i. i.now) id.entry) }
{
    match id {
        Some(id) => id.len(),
        None => 0,
    }
}

/// The id of a link.
pub(crate) fn id_of<A: Allocator>(link: &Hyperlink<A>) -> Option<&str>
    ensures { option_map (λ i. i.now) result ≡ id_of (target link.now) }
{
    link.params.get("id")
}

fn is_id(id: Option<&str>) -> bool
    ensures { result ≡ is_id (option_map (λ i. i.now) id.entry) }
{
    match id {
        Some(id) => are_address_chars(id),
        None => true,
    }
}

fn are_address_chars(text: &str) -> bool
    ensures { result ≡ list_all is_address_char text.now }
{
    text.as_bytes().iter().all(is_address_char)
}

// Whether a byte is a character of ASCII that shows.
fn is_address_char(byte: &u8) -> bool
    ensures { result ≡ is_address_char byte.now }
{
    0x20 < *byte && *byte < 0x7f
}

/// Appends the beginning of a link with an id, or without one, and an address; with neither, the
/// end of one.
pub(crate) fn append_lead<A: Allocator>(
    text: &mut String<A>,
    id: Option<&str>,
    address: &str,
) -> Result<(), AllocError>
    ensures ok { OnOk result (string_bytes text.new
        ≡ string_bytes text.old ++ lead_text (option_map (λ i. i.now) id.entry) address.now) }
    ensures refused { OnErr result (Refused A) }
{
    push_str(text, "\x1b]8;")?;
    append_id(text, id)?;
    push_str(text, ";")?;
    push_str(text, address)?;
    push_str(text, "\x1b\\")
}

// Appends an id, if there is one.
fn append_id<A: Allocator>(text: &mut String<A>, id: Option<&str>) -> Result<(), AllocError>
    ensures ok { OnOk result (string_bytes text.new
        ≡ string_bytes text.old ++ id_text (option_map (λ i. i.now) id.entry)) }
    ensures refused { OnErr result (Refused A) }
{
    match id {
        Some(id) => {
            push_str(text, "id=")?;
            push_str(text, id)
        }
        None => Ok(()),
    }
}
