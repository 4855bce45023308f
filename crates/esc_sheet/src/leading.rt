//! This module begins a link, or ends one.
ghost use Rattle.std.specs.Prelude.{◌≡◌, ◌++◌, [], OnErr, OnOk, string_bytes};
ghost use Rattle.std.specs.List.{list_all};
ghost use Rattle.std.specs.Option.{option_map};
ghost use Rattle.esc_sheet.specs.Sheets.{id_text, is_address_char, is_fit, is_id, lead_text};
ghost use Rattle.esc_sheet.specs.Sheets.Part.{Lead};

use fallible_alloc::push_str;
use std::alloc::AllocError;

/// Returns whether an id and an address have characters of ASCII that show alone.
pub(crate) fn is_writable(id: Option<&str>, address: &str) -> bool
    ensures { result ≡ is_fit (Lead (option_map (λ i. i.now) id.entry) address.now) }
{
    is_id(id) && are_address_chars(address)
}

fn is_id(id: Option<&str>) -> bool
    ensures { result ≡ is_id (option_map (λ i. i.now) id.entry) }
{
    match id {
        Some(id) => are_address_chars(id),
        None => true,
    }
}

fn are_address_chars(text: &str) -> bool
    ensures { result ≡ list_all is_address_char text.now }
{
    text.as_bytes().iter().all(is_address_char)
}

// Returns whether a byte is a character of ASCII that shows.
fn is_address_char(byte: &u8) -> bool
    ensures { result ≡ is_address_char byte.now }
{
    0x20 < *byte && *byte < 0x7f
}

/// Appends the begin of a link with an id, or without one, and an address; with neither, the end of
/// one. The error leaves nothing of the text.
pub(crate) fn append_lead(
    text: &mut String,
    id: Option<&str>,
    address: &str,
) -> Result<(), AllocError>
    ensures ok { OnOk result (string_bytes text.new
        ≡ string_bytes text.old ++ lead_text (option_map (λ i. i.now) id.entry) address.now) }
    ensures err { OnErr result (string_bytes text.new ≡ []) }
{
    match append_parts(text, id, address) {
        Ok(()) => Ok(()),
        Err(error) => {
            text.clear();
            Err(error)
        }
    }
}

// Does the same; the error may leave some of it.
fn append_parts(text: &mut String, id: Option<&str>, address: &str) -> Result<(), AllocError>
    ensures { OnOk result (string_bytes text.new
        ≡ string_bytes text.old ++ lead_text (option_map (λ i. i.now) id.entry) address.now) }
{
    push_str(text, "\x1b]8;")?;
    append_id(text, id)?;
    push_str(text, ";")?;
    push_str(text, address)?;
    push_str(text, "\x1b\\")
}

// Appends an id, if there is one.
fn append_id(text: &mut String, id: Option<&str>) -> Result<(), AllocError>
    ensures { OnOk result (string_bytes text.new
        ≡ string_bytes text.old ++ id_text (option_map (λ i. i.now) id.entry)) }
{
    match id {
        Some(id) => {
            push_str(text, "id=")?;
            push_str(text, id)
        }
        None => Ok(()),
    }
}
