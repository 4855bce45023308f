//! This module defines the names and values that rows say.
ghost use Rattle.std.specs.Prelude.{◌≡◌, ◌^◌, IfOk, OnErr, drop, take};
ghost use Rattle.flat_values.specs.Fields.{row_said, table_values, text_of};
ghost use Rattle.flat_values.specs.Found.{after, below, byte_of, channel_of, count_of, first, flag_of, held_form, is_named, length_of, magnitude, number_of, signed_below, size_of, string_of};
ghost use Rattle.fallible_alloc.specs.Refusals.{Refused};

use crate::field_name::FieldName;
use crate::field_row::{FieldRow, NUMBER, SIZE, TEXT};
use esc_values::Text;
use esc_values::scalar::text_in;
use std::alloc::{AllocError, Global};
use std::marker::Model;

// A row says the number of a name; and a number, a text or a size. Contracts see the name and the
// value.
#[derive(Drop)]
pub(crate) struct Said<'a> {
    name: u32,
    kind: u32,
    number: i64,
    text: &'a [u8],
    length: usize,
}

impl<'a> Model for Said<'a> {
    ghost use Rattle.flat_values.specs.Fields.{value_with};
    ghost use Rattle.flat_values.specs.Found.{NamedValue};

    ghost Value = { NamedValue };

    ghost view = { λ s. (s.name, value_with s.kind s.number s.text.now s.length) };
}

impl<'a> Said<'a> {
    // Returns what a row says, over the texts of all fields.
    fn of(row: &FieldRow, text: &'a [u8]) -> Said<'a>
        ensures { result ≡ row_said text.now row.now }
    {
        Said {
            name: row.name,
            kind: row.kind,
            number: row.number,
            text: part(text, row.offset, row.length),
            length: row.length,
        }
    }

    // Returns whether it has this name.
    pub(crate) fn is(&self, name: FieldName) -> bool
        ensures { result ≡ is_named name self.now }
    {
        self.name == name.number()
    }

    // Returns its number; 0 if it is none.
    pub(crate) fn number(&self) -> i64
        ensures { result ≡ number_of self.now.1 }
    {
        if self.kind == NUMBER { self.number } else { 0 }
    }

    // Returns its number; 0 if it is none, or is negative.
    pub(crate) fn count(&self) -> u64
        ensures { result ≡ count_of self.now.1 }
    {
        let number = self.number();
        if number < 0 { 0 } else { number as u64 }
    }

    // Returns the same; 0 if it is over 8 bits.
    pub(crate) fn byte(&self) -> u8
        ensures { result ≡ byte_of held_form self.now.1 }
    {
        let count = self.count();
        if count < 256 { count as u8 } else { 0 }
    }

    // Returns the same; 0 if it is over 16 bits.
    pub(crate) fn channel(&self) -> u16
        ensures { result ≡ channel_of held_form self.now.1 }
    {
        let count = self.count();
        if count < 65536 { count as u16 } else { 0 }
    }

    // Returns the same; 0 if it is over 32 bits.
    pub(crate) fn length(&self) -> u32
        ensures { result ≡ length_of held_form self.now.1 }
    {
        length_of(self.number())
    }

    // Returns whether its number is over 0.
    pub(crate) fn flag(&self) -> bool
        ensures { result ≡ flag_of self.now.1 }
    {
        self.count() != 0
    }

    // Returns its size; 0 if it is none.
    pub(crate) fn size(&self) -> usize
        ensures { result ≡ size_of self.now.1 }
    {
        if self.kind == NUMBER || self.kind == TEXT {
            0
        } else {
            self.length
        }
    }

    // Returns the bytes of its text; no bytes if it is none.
    pub(crate) fn bytes(&self) -> &'a [u8]
        ensures { result.now ≡ text_of self.now.1 }
    {
        if self.kind == NUMBER || self.kind != TEXT {
            &[]
        } else {
            self.text
        }
    }

    // Returns its text; the empty one if it is none, or is not UTF-8. The error is that memory was
    // refused.
    pub(crate) fn string(&self, alloc: Global) -> Result<Text, AllocError>
        ensures ok { IfOk result (λ t. t ≡ string_of held_form self.now.1) }
        ensures refused { OnErr result (Refused Global) }
    {
        match text_in(self.bytes()) {
            Some(text) => Text::from_str(alloc, text),
            None => Ok(Text::new(alloc)),
        }
    }
}

// Returns the number; 0 if it is negative, or over 32 bits.
pub(crate) fn length_of(number: i64) -> u32
    ensures { result ≡ below (2 ^ 32) (magnitude number) }
{
    if 0 <= number && number < 4294967296 {
        number as u32
    } else {
        0
    }
}

// Returns the number, if it has 32 bits; else 0.
pub(crate) fn signed(number: i64) -> i32
    ensures { result ≡ signed_below number }
{
    if -2147483648 <= number && number <= 2147483647 {
        number as i32
    } else {
        0
    }
}

// Returns the part of a text from this place on, of this length, as far as the text goes.
fn part(text: &[u8], offset: usize, length: usize) -> &[u8]
    ensures { result.now ≡ take length (drop offset text.now) }
{
    let rest = &text[offset.min(text.len())..];
    &rest[..length.min(rest.len())]
}

// Returns what these rows say.
pub(crate) fn said_by<'a>(
    alloc: Global,
    rows: &[FieldRow],
    text: &'a [u8],
) -> Result<Vec<Said<'a>>, AllocError>
    ensures ok { IfOk result (λ v. v.items ≡ table_values (rows.now, text.now)) }
    ensures refused { OnErr result (Refused Global) }
{
    let mut all = Vec::new(alloc);
    for row in rows {
        match fallible_alloc::push(&mut all, Said::of(row, text)) {
            Ok(()) => {}
            Err(_) => return Err(AllocError),
        }
    }
    Ok(all)
}

// Returns the first; a size of 0 if there is none.
pub(crate) fn first<'a>(fields: &[Said<'a>]) -> Said<'a>
    ensures { result.1 ≡ first fields.now }
{
    match fields {
        [field, ..] => Said {
            name: field.name,
            kind: field.kind,
            number: field.number,
            text: field.text,
            length: field.length,
        },
        [] => Said {
            name: 0,
            kind: SIZE,
            number: 0,
            text: &[],
            length: 0,
        },
    }
}

// Returns those after the first.
pub(crate) fn after<'b, 'a>(fields: &'b [Said<'a>]) -> &'b [Said<'a>]
    ensures { result.now ≡ after fields.now }
{
    match fields {
        [_, rest @ ..] => rest,
        [] => fields,
    }
}
