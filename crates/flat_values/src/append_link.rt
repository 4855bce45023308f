//! This module appends the fields of links. An error is that memory was refused.
ghost use Rattle.std.specs.Prelude.{◌≡◌, OnOk, OnErr};
ghost use Rattle.std.specs.List.{flat_map};
ghost use Rattle.flat_values.specs.Fields.{with_fields};
ghost use Rattle.flat_values.specs.Links.{link_fields, parameter_fields};
ghost use Rattle.fallible_alloc.specs.Refusals.{Refused};

use crate::field_name::FieldName;
use crate::fields::Fields;
use esc_links::Hyperlink;
use esc_links::params::Iter;
use std::alloc::{AllocError, Global};

// Appends the fields of a link, or of none.
pub(crate) fn append_link(link: &Option<Hyperlink>, fields: &mut Fields) -> Result<(), AllocError>
    ensures ok { OnOk result (fields.new ≡ with_fields fields.old (link_fields link.now)) }
    ensures refused { OnErr result (Refused Global) }
{
    let Some(link) = link else {
        return Ok(());
    };
    fields.push_text(FieldName::Uri, link.uri.as_bytes())?;
    fields.push_flag(FieldName::Implicit, link.implicit)?;
    append_parameters(link.params.iter(), fields)
}

// Appends the keys of a link with their values.
fn append_parameters(mut pairs: Iter<'_>, fields: &mut Fields) -> Result<(), AllocError>
    ensures ok { OnOk result
        (fields.new ≡ with_fields fields.old (flat_map parameter_fields pairs.entry)) }
    ensures refused { OnErr result (Refused Global) }
{
    while let Some((key, value)) = pairs.next() {
        fields.push_text(FieldName::Key, key.as_bytes())?;
        fields.push_text(FieldName::Value, value.as_bytes())?;
    }
    Ok(())
}
