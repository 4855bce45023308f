//! This module appends the fields of lists, item by item. An error is that memory was refused.
ghost use Rattle.std.specs.Prelude.{◌≡◌, ◌∷◌, [], OnOk, OnErr};
ghost use Rattle.std.specs.List.{flat_map};
ghost use Rattle.flat_values.specs.Fields.{text_field, with_fields};
ghost use Rattle.fallible_alloc.specs.Refusals.{Refused};

use crate::field_name::FieldName;
use crate::fields::Fields;
use esc_values::Text;
use std::alloc::{AllocError, Global};

// An item has fields.
pub(crate) trait Fielded {
    ghost use Rattle.std.specs.Prelude.{List};
    ghost use Rattle.flat_values.specs.Fields.{Field};

    ghost parts: { Self → List Field };

    // Appends its fields.
    fn append_to(&self, fields: &mut Fields) -> Result<(), AllocError>
        ensures ok { OnOk result (fields.new ≡ with_fields fields.old (parts self.now)) }
        ensures refused { OnErr result (Refused Global) };
}

// Appends the fields of each item.
pub(crate) fn append_each<T: Fielded>(items: &[T], fields: &mut Fields) -> Result<(), AllocError>
    ensures ok { OnOk result (fields.new ≡ with_fields fields.old (flat_map T.parts items.now)) }
    ensures refused { OnErr result (Refused Global) }
{
    for item in items {
        item.append_to(fields)?;
    }
    Ok(())
}

// Appends each text, under one name.
pub(crate) fn append_texts(
    name: FieldName,
    texts: &[Text],
    fields: &mut Fields,
) -> Result<(), AllocError>
    ensures ok { OnOk result (fields.new
        ≡ with_fields fields.old (flat_map (λ t. text_field name t ∷ []) texts.now)) }
    ensures refused { OnErr result (Refused Global) }
{
    for text in texts {
        fields.push_text(name, text.as_bytes())?;
    }
    Ok(())
}
