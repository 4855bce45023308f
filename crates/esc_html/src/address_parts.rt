//! Addresses that come in parts: those with `;` in them.
ghost use Rattle.std.specs.Prelude.{◌≡◌, ◌++◌, IfOk, OnErr, OnOk, Some, drop, true};
ghost use Rattle.std.specs.List.{list_all};
ghost use Rattle.esc_values.specs.Clear.{semicolon_list, separated_parts};
ghost use Rattle.esc_html.specs.Addresses.{address_in, is_address_part, is_link_code, is_safe_in_parts, is_short};
ghost use Rattle.esc_html.specs.Marks.{lead_by, lead_to};
ghost use Rattle.fallible_alloc.specs.Refusals.{Refused};

use crate::address::{LONGEST_ADDRESS, address_of, are_address_chars, has_safe_scheme};
use crate::passing::pass;
use esc_osc::OperatingSystemCommand;
use esc_values::scalar::{text_in, text_of};
use esc_values::{Items, Text};
use fallible_alloc::extend;
use std::alloc::{AllocError, Allocator};

/// The target of the characters after a command, if it says one: a safe address, or none. The error
/// is that memory was refused.
pub(crate) fn lead_by<A: Allocator>(
    command: OperatingSystemCommand<A>,
) -> Result<Option<Option<Text<A>>>, AllocError>
    ensures ok { IfOk result (λ k. k ≡ lead_by command) }
    ensures refused { OnErr result (Refused A) }
{
    match command {
        OperatingSystemCommand::SetHyperlink(link) => Ok(Some(address_of(link))),
        OperatingSystemCommand::Unspecified(parts) => lead_of(parts),
        other => {
            pass(other);
            Ok(None)
        }
    }
}

// The same for the parts of a command that has no other reading.
fn lead_of<A: Allocator>(
    parts: Items<Items<u8, A>, A>,
) -> Result<Option<Option<Text<A>>>, AllocError>
    ensures ok { IfOk result (λ k. k ≡ lead_to (address_in parts)) }
    ensures refused { OnErr result (Refused A) }
{
    let address = address_in(parts.as_slice());
    if address.is_empty() {
        return Ok(None);
    }
    if !is_safe_in_parts(address) {
        return Ok(Some(None));
    }
    match joined_address(parts) {
        Ok(text) => Ok(Some(text)),
        Err(error) => Err(error),
    }
}

/// The parts of the address of a link, if the command of these parts has no other reading.
pub(crate) fn address_in<A: Allocator>(parts: &[Items<u8, A>]) -> &[Items<u8, A>]
    ensures { result.now ≡ address_in parts.now }
{
    match parts {
        [code, _, address @ ..] if is_link_code(code.as_slice()) => address,
        _ => &[],
    }
}

// Whether it is the code of links.
fn is_link_code(code: &[u8]) -> bool
    ensures { result ≡ is_link_code code.now }
{
    match code {
        [digit] => *digit == b'8',
        _ => false,
    }
}

/// Whether these parts, with `;` between them, are a safe address.
pub(crate) fn is_safe_in_parts<A: Allocator>(parts: &[Items<u8, A>]) -> bool
    ensures { result ≡ is_safe_in_parts parts.now }
{
    match parts {
        [first, ..] => {
            are_short(parts) && has_safe_scheme(first.as_slice()) && are_address_parts(parts)
        }
        [] => false,
    }
}

// Whether these parts, with `;` between them, are no longer than terminals take.
fn are_short<A: Allocator>(parts: &[Items<u8, A>]) -> bool
    ensures { result ≡ is_short (semicolon_list parts.now) }
{
    let mut rest = parts;
    // each with a `;` before it, the first one too
    let mut left = LONGEST_ADDRESS + 1;
    while let Some((part, more)) = rest.split_first() {
        if left <= part.len() {
            return false;
        }
        left = left - part.len() - 1;
        rest = more;
    }
    true
}

// Whether each is UTF-8 of characters of an address.
fn are_address_parts<A: Allocator>(parts: &[Items<u8, A>]) -> bool
    ensures { result ≡ list_all is_address_part parts.now }
{
    parts.iter().all(is_address_part)
}

fn is_address_part<A: Allocator>(part: &Items<u8, A>) -> bool
    ensures { result ≡ is_address_part part.now }
{
    match text_in(part.as_slice()) {
        Some(text) => are_address_chars(text),
        None => false,
    }
}

// The safe address of a link of these parts, in the memory of the first of them.
fn joined_address<A: Allocator>(
    parts: Items<Items<u8, A>, A>,
) -> Result<Option<Text<A>>, AllocError>
    requires { is_safe_in_parts (address_in parts) ≡ true }
    ensures ok { IfOk result (λ t. t ≡ Some (semicolon_list (address_in parts))) }
    ensures refused { OnErr result (Refused A) }
{
    let mut parts = parts.into_vec();
    let code = parts.remove(0);
    let mut bytes = code.into_vec();
    bytes.clear();
    push_joined(&mut bytes, after_first(parts.as_slice()))?;
    Ok(text_of(bytes))
}

// These items but the first.
fn after_first<T>(items: &[T]) -> &[T]
    ensures { result.now ≡ drop 1 items.now }
{
    match items {
        [_, rest @ ..] => rest,
        [] => &[],
    }
}

// Appends these parts, with `;` between them.
fn push_joined<A: Allocator>(
    bytes: &mut Vec<u8, A>,
    parts: &[Items<u8, A>],
) -> Result<(), AllocError>
    ensures ok { OnOk result (bytes.new.items ≡ bytes.old.items ++ semicolon_list parts.now) }
    ensures refused { OnErr result (Refused A) }
{
    match parts.split_first() {
        Some((first, more)) => {
            extend(bytes, first.as_slice())?;
            push_separated(bytes, more)
        }
        None => Ok(()),
    }
}

// Appends these parts, with a `;` before each.
fn push_separated<A: Allocator>(
    bytes: &mut Vec<u8, A>,
    parts: &[Items<u8, A>],
) -> Result<(), AllocError>
    ensures ok { OnOk result (bytes.new.items ≡ bytes.old.items ++ separated_parts parts.now) }
    ensures refused { OnErr result (Refused A) }
{
    let mut rest = parts;
    while let Some((part, more)) = rest.split_first() {
        extend(bytes, b";")?;
        extend(bytes, part.as_slice())?;
        rest = more;
    }
    Ok(())
}
