//! This module defines the fields of a command, an image or a query.
ghost use Rattle.std.specs.Prelude.{◌≡◌, ◌++◌, ◌∷◌, [], IfOk, OnOk, OnErr};
ghost use Rattle.flat_values.specs.Commands.{fields_of};
ghost use Rattle.flat_values.specs.Fields.{flag_field, signed_field, size_field, table_of, text_field, with_field};
ghost use Rattle.flat_values.specs.Images.{fields_of_image};
ghost use Rattle.flat_values.specs.Queries.{query_fields};
ghost use Rattle.fallible_alloc.specs.Refusals.{Refused};

use crate::append::append;
use crate::append_image::append_image;
use crate::field_name::FieldName;
use crate::field_row::{FieldRow, NUMBER, SIZE, TEXT};
use crate::fielded::append_texts;
use esc_kitty::KittyImage;
use esc_osc::OperatingSystemCommand;
use esc_values::Text;
use std::alloc::{AllocError, Global};
use std::marker::Model;

/// A command, an image or a query has fields: a row for each, and their texts one after another.
/// Contracts see the rows and that text.
#[derive(Drop)]
pub struct Fields {
    rows: Vec<FieldRow>,
    text: Vec<u8>,
}

impl Model for Fields {
    ghost use Rattle.std.specs.Prelude.{ℕ, List};
    ghost use Rattle.flat_values.specs.declared.field_row.FieldRow.{FieldRow};

    ghost Value = { List FieldRow × List ℕ };

    ghost view = { λ f. (f.rows.items, f.text.items) };
}

impl Fields {
    /// Returns the fields of this command. The error is that memory was refused.
    pub fn of(alloc: Global, command: &OperatingSystemCommand) -> Result<Fields, AllocError>
        ensures ok { IfOk result (λ f. f ≡ table_of (fields_of command.now)) }
        ensures refused { OnErr result (Refused Global) }
    {
        let mut fields = Fields::new(alloc);
        append(command, &mut fields)?;
        Ok(fields)
    }

    /// Returns the fields of this image of kitty's; no fields if it is none. The error is that
    /// memory was refused.
    pub fn of_image(alloc: Global, image: &Option<KittyImage>) -> Result<Fields, AllocError>
        ensures ok { IfOk result (λ f. f ≡ table_of (fields_of_image image.now)) }
        ensures refused { OnErr result (Refused Global) }
    {
        let mut fields = Fields::new(alloc);
        if let Some(image) = image {
            append_image(image, &mut fields)?;
        }
        Ok(fields)
    }

    /// Returns the fields of a termcap query for these names. The error is that memory was refused.
    pub fn of_names(alloc: Global, names: &[Text]) -> Result<Fields, AllocError>
        ensures ok { IfOk result (λ f. f ≡ table_of (query_fields names.now)) }
        ensures refused { OnErr result (Refused Global) }
    {
        let mut fields = Fields::new(alloc);
        append_texts(FieldName::Name, names, &mut fields)?;
        Ok(fields)
    }

    // Returns no fields.
    fn new(alloc: Global) -> Fields
        ensures { result ≡ ([], []) }
    {
        Fields {
            rows: Vec::new(alloc),
            text: Vec::new(alloc),
        }
    }
}

impl Fields {
    /// Returns a row for each field, in order.
    pub fn rows(&self) -> &[FieldRow]
        ensures { result.now ≡ self.now.0 }
    {
        self.rows.as_slice()
    }

    /// Returns the texts of the fields, one after another.
    pub fn text(&self) -> &[u8]
        ensures { result.now ≡ self.now.1 }
    {
        self.text.as_slice()
    }

    // Appends a number.
    pub(crate) fn push_number(&mut self, name: FieldName, number: i64) -> Result<(), AllocError>
        ensures ok { OnOk result (self.new ≡ with_field self.old (signed_field name number)) }
        ensures refused { OnErr result (Refused Global) }
    {
        self.push(FieldRow {
            name: name.number(),
            kind: NUMBER,
            number,
            offset: 0,
            length: 0,
        })
    }

    // Appends a flag.
    pub(crate) fn push_flag(&mut self, name: FieldName, flag: bool) -> Result<(), AllocError>
        ensures ok { OnOk result (self.new ≡ with_field self.old (flag_field name flag)) }
        ensures refused { OnErr result (Refused Global) }
    {
        self.push_number(name, if flag { 1 } else { 0 })
    }

    // Appends a size.
    pub(crate) fn push_size(&mut self, name: FieldName, size: usize) -> Result<(), AllocError>
        ensures ok { OnOk result (self.new ≡ with_field self.old (size_field name size)) }
        ensures refused { OnErr result (Refused Global) }
    {
        self.push(FieldRow {
            name: name.number(),
            kind: SIZE,
            number: 0,
            offset: 0,
            length: size,
        })
    }

    // Appends a text.
    pub(crate) fn push_text(&mut self, name: FieldName, text: &[u8]) -> Result<(), AllocError>
        ensures ok { OnOk result (self.new ≡ with_field self.old (text_field name text.now)) }
        ensures refused { OnErr result (Refused Global) }
    {
        let offset = self.text.len();
        self.push(FieldRow {
            name: name.number(),
            kind: TEXT,
            number: 0,
            offset,
            length: text.len(),
        })?;
        fallible_alloc::extend(&mut self.text, text)
    }

    // Appends a row.
    fn push(&mut self, row: FieldRow) -> Result<(), AllocError>
        ensures ok { OnOk result (self.new ≡ (self.old.0 ++ row ∷ [], self.old.1)) }
        ensures refused { OnErr result (Refused Global) }
    {
        match fallible_alloc::push(&mut self.rows, row) {
            Ok(()) => Ok(()),
            Err(_) => Err(AllocError),
        }
    }
}
