//! This module defines hyperlinks ("Hyperlinks in terminal emulators",
//! <https://gist.github.com/egmontkob/eb114294efbcd5adb1944c9f3cb5feda>).
ghost use Rattle.std.specs.Prelude.{◌≡◌, ◌⊎◌, [], ◌∷◌, codes, map, IfOk, IfErr, OnOk, OnErr, Some, None};
ghost use Rattle.std.specs.Fmt.{DisplaysOnOk};
ghost use Rattle.std.specs.List.{flat_map};
ghost use Rattle.std.specs.Option.{option_map};
ghost use Rattle.esc_values.specs.Cuts.{key_and_value, pair_text};
ghost use Rattle.esc_values.specs.declared.error.Error.TheVariants.{Invalid};
ghost use Rattle.esc_links.specs.Hyperlinks.{pairs_with, params_of, link_of, link_in, link_to, hyperlink_text, params_text};
ghost use Rattle.fallible_alloc.specs.Refusals.{Refused};

use crate::params::{Iter, Params};
use esc_values::cut::{cut, key_and_value};
use esc_values::scalar::text_in;
use esc_values::{Error, Text};
use std::alloc::{AllocError, Allocator, Global};
use std::fmt;

/// A hyperlink names the target of the characters that follow ("Hyperlinks in terminal emulators",
/// the command OSC 8).
#[derive(Drop)]
#[derive_where(Debug, PartialEq)]
pub struct Hyperlink<A: Allocator = Global> {
    /// The parameters. The key `id` is that of the link: cells of one id and one address are one
    /// link.
    pub params: Params<A>,
    /// The address.
    pub uri: Text<A>,
    /// Says whether the terminal found it in the text itself. A link that is read or made here has
    /// false.
    pub implicit: bool,
}

impl<A: Allocator + Copy> Hyperlink<A> {
    /// Returns the link to this address, without parameters. The error is that memory was refused.
    pub fn new(alloc: A, uri: &str) -> Result<Hyperlink<A>, AllocError>
        ensures ok { IfOk result (λ h. h ≡ link_to [] uri.now) }
        ensures refused { OnErr result (Refused A) }
    {
        linked(alloc, Params::new(alloc), uri)
    }

    /// Returns the link to this address with the parameter `id`. The error is that memory was
    /// refused.
    pub fn new_with_id(alloc: A, uri: &str, id: &str) -> Result<Hyperlink<A>, AllocError>
        ensures ok { IfOk result (λ h. h ≡ link_to ((codes "id", id.now) ∷ []) uri.now) }
        ensures refused { OnErr result (Refused A) }
    {
        linked(alloc, id_params(alloc, id)?, uri)
    }

    /// Returns the link of the parts of a text between `;`: three parts, the first of which is not
    /// looked at, the second has the parameters and the third is the address. The parameters are
    /// `key=value` with `:` between them, each cut at its first `=`, and a later one replaces an
    /// earlier one of the same key. If both are empty there is no link.
    ///
    /// The errors are `Error::Invalid`, if there are not three parts, a parameter has no `=`, or a
    /// key, a value or the address is not UTF-8; and `Error::Memory`, if memory was refused.
    pub fn parse(alloc: A, parts: &[&[u8]]) -> Result<Option<Hyperlink<A>>, Error>
        ensures read { IfOk result (λ v. link_of (map (λ p. p.now) parts.now) ≡ Some v) }
        ensures invalid { IfErr result (λ e. e ≡ Invalid
            → link_of {A = A} (map (λ p. p.now) parts.now) ≡ None) }
        ensures refused { IfErr result (λ e. (e ≡ Invalid) ⊎ Refused A) }
    {
        let [_, params, uri] = parts else {
            return Err(Error::Invalid);
        };
        read_link(alloc, params, uri)
    }
}

// Returns the parameter `id`.
fn id_params<A: Allocator + Copy>(alloc: A, id: &str) -> Result<Params<A>, AllocError>
    ensures ok { IfOk result (λ p. p ≡ (codes "id", id.now) ∷ []) }
    ensures refused { OnErr result (Refused A) }
{
    let mut params = Params::new(alloc);
    put_texts(alloc, &mut params, "id", id)?;
    Ok(params)
}

// Returns the link to this address with these parameters.
fn linked<A: Allocator>(alloc: A, params: Params<A>, uri: &str) -> Result<Hyperlink<A>, AllocError>
    ensures ok { IfOk result (λ h. h ≡ link_to params uri.now) }
    ensures refused { OnErr result (Refused A) }
{
    Ok(Hyperlink {
        params,
        uri: Text::from_str(alloc, uri)?,
        implicit: false,
    })
}

// Reads the link of parameters and an address; no link if both are empty.
fn read_link<A: Allocator + Copy>(
    alloc: A,
    params: &[u8],
    uri: &[u8],
) -> Result<Option<Hyperlink<A>>, Error>
    ensures read { IfOk result (λ v. link_in params.now uri.now ≡ Some v) }
    ensures invalid { IfErr result (λ e. e ≡ Invalid → link_in {A = A} params.now uri.now ≡ None) }
    ensures refused { IfErr result (λ e. (e ≡ Invalid) ⊎ Refused A) }
{
    if params.is_empty() && uri.is_empty() {
        return Ok(None);
    }
    let params = read_params(alloc, params)?;
    let Some(uri) = text_in(uri) else {
        return Err(Error::Invalid);
    };
    match linked(alloc, params, uri) {
        Ok(link) => Ok(Some(link)),
        Err(error) => Err(Error::Memory(error)),
    }
}

// Reads the parameters of a text, between `:`.
fn read_params<A: Allocator + Copy>(alloc: A, text: &[u8]) -> Result<Params<A>, Error>
    ensures read { IfOk result (λ p. params_of text.now ≡ Some p) }
    ensures invalid { IfErr result (λ e. e ≡ Invalid → params_of text.now ≡ None) }
    ensures refused { IfErr result (λ e. (e ≡ Invalid) ⊎ Refused A) }
{
    let mut params = Params::new(alloc);
    if text.is_empty() {
        return Ok(params);
    }
    let mut rest = text;
    while let Some((stretch, more)) = cut(rest, b':') {
        put_stretch(alloc, &mut params, stretch)?;
        rest = more;
    }
    put_stretch(alloc, &mut params, rest)?;
    Ok(params)
}

// Puts the key and the value of a stretch.
fn put_stretch<A: Allocator + Copy>(
    alloc: A,
    params: &mut Params<A>,
    stretch: &[u8],
) -> Result<(), Error>
    ensures read { OnOk result (option_map (λ e. pairs_with e.0 e.1 params.old)
        (key_and_value stretch.now)
        ≡ Some params.new) }
    ensures invalid { IfErr result (λ e. e ≡ Invalid → key_and_value stretch.now ≡ None) }
    ensures refused { IfErr result (λ e. (e ≡ Invalid) ⊎ Refused A) }
{
    let Some((key, value)) = key_and_value(stretch) else {
        return Err(Error::Invalid);
    };
    match put_texts(alloc, params, key, value) {
        Ok(()) => Ok(()),
        Err(error) => Err(Error::Memory(error)),
    }
}

// Puts a value at a key.
fn put_texts<A: Allocator + Copy>(
    alloc: A,
    params: &mut Params<A>,
    key: &str,
    value: &str,
) -> Result<(), AllocError>
    ensures ok { OnOk result (params.new ≡ pairs_with key.now value.now params.old) }
    ensures refused { OnErr result (Refused A) }
{
    let key = Text::from_str(alloc, key)?;
    let value = Text::from_str(alloc, value)?;
    params.insert(key, value)
}

/// Writes `8;`, the parameters as `key=value` in order with `:` between them, `;` and the address.
/// If it returns `Ok`, all of it was written.
impl<A: Allocator> fmt::Display for Hyperlink<A> {
    ghost output = { λ h. Some (hyperlink_text h) };

    fn fmt<W: fmt::Write>(&self, f: &mut fmt::Formatter<W>) -> fmt::Result {
        f.write_str("8;")?;
        write_params(&self.params, f)?;
        f.write_str(";")?;
        f.write_str(self.uri.as_str())
    }
}

// Writes the parameters, with `:` between them.
fn write_params<A: Allocator, W: fmt::Write>(
    params: &Params<A>,
    f: &mut fmt::Formatter<W>,
) -> fmt::Result
    ensures { DisplaysOnOk W.write_str_gives f.old result (Some (params_text params.now)) f.new }
{
    let mut pairs = params.iter();
    let Some((key, value)) = pairs.next() else {
        return Ok(());
    };
    write!(f, "{key}={value}")?;
    write_rest(pairs, f)
}

// Writes the pairs, with `:` before each.
fn write_rest<A: Allocator, W: fmt::Write>(
    mut pairs: Iter<'_, A>,
    f: &mut fmt::Formatter<W>,
) -> fmt::Result
    ensures { DisplaysOnOk W.write_str_gives f.old result
        (Some (flat_map (λ e. 0x3a ∷ pair_text e) pairs.entry)) f.new }
{
    while let Some((key, value)) = pairs.next() {
        write!(f, ":{key}={value}")?;
    }
    Ok(())
}
