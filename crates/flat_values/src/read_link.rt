//! This module reads links from rows. An error is that memory was refused.
ghost use Rattle.std.specs.Prelude.{◌≡◌, [], IfOk, OnErr, OnOk};
ghost use Rattle.esc_links.specs.Hyperlinks.{pairs_with, put_all};
ghost use Rattle.flat_values.specs.Found.{held_form, parameters, string_of};
ghost use Rattle.flat_values.specs.FoundItems.{link_in};
ghost use Rattle.fallible_alloc.specs.Refusals.{Refused};

use crate::said::Said;
use esc_links::{Hyperlink, Params};
use std::alloc::{AllocError, Global};

// Reads a link, or none.
pub(crate) fn link(alloc: Global, fields: &[Said<'_>]) -> Result<Option<Hyperlink>, AllocError>
    ensures ok { IfOk result (λ h. h ≡ link_in held_form fields.now) }
    ensures refused { OnErr result (Refused Global) }
{
    let [uri, implicit, pairs @ ..] = fields else {
        return Ok(None);
    };
    let uri = uri.string(alloc)?;
    let params = params(alloc, pairs)?;
    Ok(Some(Hyperlink {
        params,
        uri,
        implicit: implicit.flag(),
    }))
}

// Reads the keys of a link with their values.
fn params(alloc: Global, fields: &[Said<'_>]) -> Result<Params, AllocError>
    ensures ok { IfOk result (λ p. p ≡ put_all [] (parameters held_form fields.now)) }
    ensures refused { OnErr result (Refused Global) }
{
    let mut params = Params::new(alloc);
    let mut rest = fields;
    while let [key, value, more @ ..] = rest {
        insert(alloc, key, value, &mut params)?;
        rest = more;
    }
    Ok(params)
}

// Puts a key with its value among the others.
fn insert(
    alloc: Global,
    key: &Said<'_>,
    value: &Said<'_>,
    params: &mut Params,
) -> Result<(), AllocError>
    ensures ok { OnOk result
        (params.new ≡ pairs_with (string_of held_form key.now.1) (string_of held_form value.now.1)
        params.old) }
    ensures refused { OnErr result (Refused Global) }
{
    let key = key.string(alloc)?;
    let value = value.string(alloc)?;
    params.insert(key, value)
}
