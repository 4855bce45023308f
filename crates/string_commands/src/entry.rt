//! The keys by which a row is found.

use crate::begin::Begin;
use crate::string_kind::StringKind;

/// The keys by which a row is found, but for the text that it begins with.
#[derive(Clone, Copy)]
pub struct Entry {
    /// The kind that tells it apart.
    pub kind: StringKind,
    /// The number of an operating system command, or its letter; the first byte of an application
    /// program command; or for a device control string its private prefix, its intermediates and
    /// its final byte, as digits to the base 256 after a 1.
    pub key: u32,
    /// The rest of its beginning.
    pub begin: Begin,
    /// The number of the parameter, if it begins with one.
    pub number: i64,
}
