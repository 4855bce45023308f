//! This module defines the rows of fields.

/// The kind of a row whose field is a number.
pub const NUMBER: u32 = 0;

/// The kind of a row whose field is a text.
pub const TEXT: u32 = 1;

/// The kind of a row whose field is a size.
pub const SIZE: u32 = 2;

/// A row is a field, as numbers and a place. A part that has no meaning for its kind is 0.
#[repr(C)]
#[derive(Clone, Copy, PartialEq, Eq)]
pub struct FieldRow {
    /// The part of the command: the number of a [`FieldName`](crate::FieldName).
    pub name: u32,
    /// The kind of its value: [`NUMBER`], [`TEXT`] or [`SIZE`].
    pub kind: u32,
    /// The number.
    pub number: i64,
    /// The place of its text, among the texts of all fields one after another.
    pub offset: usize,
    /// The number of bytes of its text; or the size.
    pub length: usize,
}
