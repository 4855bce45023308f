//! A row of the table.

use crate::entry::Entry;

/// A control string that has a name.
#[derive(Clone, Copy)]
pub struct Row {
    /// Its place in the table, from 0 on. A later version may have another place for it.
    pub place: usize,
    /// The keys that tell it apart. Among the rows of one kind and one key the first that fits
    /// counts.
    pub told: Entry,
    /// The text that it begins with.
    pub start: &'static str,
    /// Its name, which no other row has. For a device control string and an application program
    /// command the first word is the name that several rows may have in common.
    pub name: &'static str,
    /// Its description in words.
    pub words: &'static str,
    /// The words for it before its parts.
    pub said: &'static str,
    /// The words for it if no part comes after its beginning, if they differ.
    pub alone: &'static str,
    /// The parameters of a device control string, as fields.
    pub params: &'static str,
    /// The parts of the rest of its text, as fields: each is a letter, a `:`, the words before the
    /// part, and after a `?` words for its values, with `/` between them and `~` within. A `|` is
    /// between two fields, and the fields after a `*` repeat.
    pub fields: &'static str,
}
