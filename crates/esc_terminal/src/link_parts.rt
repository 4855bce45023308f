//! Links that come in parts: those with `;` in their address.
ghost use Rattle.std.specs.Prelude.{◌≡◌, ◌++◌, IfOk, OnErr, OnOk};
ghost use Rattle.esc_links.specs.Hyperlinks.{link_in};
ghost use Rattle.esc_values.specs.Clear.{semicolon_list, separated_parts};
ghost use Rattle.esc_terminal.specs.Links.{is_link_code, link_in_parts, link_with};
ghost use Rattle.fallible_alloc.specs.Refusals.{Refused};

use esc_osc::Hyperlink;
use esc_values::{Error, Items};
use fallible_alloc::extend;
use std::alloc::{AllocError, Allocator};

/// Returns the link of a command of these parts that has no other reading, if it is one: its
/// address is the part after the parameters, with `;` between the parts. The error is that memory
/// was refused.
pub(crate) fn link_in_parts<A: Allocator + Copy>(
    alloc: A,
    parts: &[Items<u8, A>],
) -> Result<Option<Option<Hyperlink<A>>>, AllocError>
    ensures ok { IfOk result (λ v. v ≡ link_in_parts parts.now) }
    ensures refused { OnErr result (Refused A) }
{
    match parts {
        [code, params, address @ ..] if is_link_code(code.as_slice()) => {
            link_with(alloc, params.as_slice(), address)
        }
        _ => Ok(None),
    }
}

// Whether it is the code of links.
fn is_link_code(code: &[u8]) -> bool
    ensures { result ≡ is_link_code code.now }
{
    match code {
        [digit] => *digit == b'8',
        _ => false,
    }
}

// The link of these parameters and the parts of its address, if there are any.
fn link_with<A: Allocator + Copy>(
    alloc: A,
    params: &[u8],
    address: &[Items<u8, A>],
) -> Result<Option<Option<Hyperlink<A>>>, AllocError>
    ensures ok { IfOk result (λ v. v ≡ link_with params.now address.now) }
    ensures refused { OnErr result (Refused A) }
{
    match address {
        [_, ..] => read_link(alloc, params, address),
        [] => Ok(None),
    }
}

// The same, if there are parts.
fn read_link<A: Allocator + Copy>(
    alloc: A,
    params: &[u8],
    address: &[Items<u8, A>],
) -> Result<Option<Option<Hyperlink<A>>>, AllocError>
    ensures ok { IfOk result (λ v. v ≡ link_in params.now (semicolon_list address.now)) }
    ensures refused { OnErr result (Refused A) }
{
    let mut uri = Vec::new(alloc);
    push_joined(&mut uri, address)?;
    parsed(alloc, params, uri.as_slice())
}

// The link of these parameters and this address, if it is one.
fn parsed<'a, A: Allocator + Copy>(
    alloc: A,
    params: &'a [u8],
    uri: &'a [u8],
) -> Result<Option<Option<Hyperlink<A>>>, AllocError>
    ensures ok { IfOk result (λ v. v ≡ link_in params.now uri.now) }
    ensures refused { OnErr result (Refused A) }
{
    match Hyperlink::parse(alloc, &[b"8".as_slice(), params, uri]) {
        Ok(link) => Ok(Some(link)),
        Err(Error::Invalid) => Ok(None),
        Err(Error::Memory(error)) => Err(error),
    }
}

// Appends these parts, with `;` between them.
fn push_joined<A: Allocator>(
    bytes: &mut Vec<u8, A>,
    parts: &[Items<u8, A>],
) -> Result<(), AllocError>
    ensures ok { OnOk result (bytes.new.items ≡ bytes.old.items ++ semicolon_list parts.now) }
    ensures refused { OnErr result (Refused A) }
{
    match parts.split_first() {
        Some((first, more)) => {
            extend(bytes, first.as_slice())?;
            push_separated(bytes, more)
        }
        None => Ok(()),
    }
}

// Appends these parts, with a `;` before each.
fn push_separated<A: Allocator>(
    bytes: &mut Vec<u8, A>,
    parts: &[Items<u8, A>],
) -> Result<(), AllocError>
    ensures ok { OnOk result (bytes.new.items ≡ bytes.old.items ++ separated_parts parts.now) }
    ensures refused { OnErr result (Refused A) }
{
    let mut rest = parts;
    while let Some((part, more)) = rest.split_first() {
        extend(bytes, b";")?;
        extend(bytes, part.as_slice())?;
        rest = more;
    }
    Ok(())
}
