//! This module defines the content of an image, or its place.
ghost use Rattle.std.specs.Prelude.{◌≡◌, Some};
ghost use Rattle.std.specs.Option.{option_map};
ghost use Rattle.esc_kitty.specs.Texts.{content_text, medium_word, offset_in, size_in};

use esc_values::base64_text::Encoded;
use esc_values::{Items, Text};
use std::alloc::{Allocator, Global};
use std::fmt;
use std::fmt::Display;

/// The content is the data of an image, or names its place (key `t`).
#[derive(Drop)]
#[derive_where(PartialEq, Eq)]
pub enum KittyImageData<A: Allocator = Global> {
    /// `d`: the payload as it is in the command, which is base64. It is not decoded.
    Direct(Text<A>),
    /// Bytes that are written as base64. No command is read as `DirectBin`: the text of such bytes
    /// reads as `Direct`.
    DirectBin(Items<u8, A>),
    /// `f`: a file.
    File {
        /// Its path.
        path: Text<A>,
        /// Says how many bytes of it are the image, key `S`; without it, all are.
        data_size: Option<u32>,
        /// Says how many bytes of it come before them, key `O`.
        data_offset: Option<u32>,
    },
    /// `t`: a file that the terminal deletes once it is read.
    TemporaryFile {
        /// Its path.
        path: Text<A>,
        /// Says how many bytes of it are the image, key `S`; without it, all are.
        data_size: Option<u32>,
        /// Says how many bytes of it come before them, key `O`.
        data_offset: Option<u32>,
    },
    /// `s`: a shared memory object (POSIX `shm_open`).
    SharedMem {
        /// Its name.
        name: Text<A>,
        /// Says how many bytes of it are the image, key `S`; without it, all are.
        data_size: Option<u32>,
        /// Says how many bytes of it come before them, key `O`.
        data_offset: Option<u32>,
    },
}

impl<A: Allocator> KittyImageData<A> {
    // Returns the value of `t`, unless this is the default.
    pub(crate) fn medium(&self) -> Option<&'static str>
        ensures { option_map (λ w. w.now) result ≡ medium_word self.now }
    {
        match self {
            KittyImageData::Direct(_) | KittyImageData::DirectBin(_) => None,
            KittyImageData::File { .. } => Some("f"),
            KittyImageData::TemporaryFile { .. } => Some("t"),
            KittyImageData::SharedMem { .. } => Some("s"),
        }
    }

    // Returns the number of bytes, if it is emitted.
    pub(crate) fn size(&self) -> Option<u32>
        ensures { result ≡ size_in self.now }
    {
        match self {
            KittyImageData::Direct(_) | KittyImageData::DirectBin(_) => None,
            KittyImageData::File { data_size, .. } => *data_size,
            KittyImageData::TemporaryFile { data_size, .. } => *data_size,
            KittyImageData::SharedMem { data_size, .. } => *data_size,
        }
    }

    // Returns the number of bytes before them, if it is emitted.
    pub(crate) fn offset(&self) -> Option<u32>
        ensures { result ≡ offset_in self.now }
    {
        match self {
            KittyImageData::Direct(_) | KittyImageData::DirectBin(_) => None,
            KittyImageData::File { data_offset, .. } => *data_offset,
            KittyImageData::TemporaryFile { data_offset, .. } => *data_offset,
            KittyImageData::SharedMem { data_offset, .. } => *data_offset,
        }
    }
}

/// Writes the payload: the text of `Direct`, else base64 of the bytes, the path or the name. Takes
/// no memory, and returns an error only if the writer below the formatter does.
impl<A: Allocator> fmt::Display for KittyImageData<A> {
    ghost output = { λ c. Some (content_text c) };

    fn fmt<W: fmt::Write>(&self, f: &mut fmt::Formatter<W>) -> fmt::Result {
        match self {
            KittyImageData::Direct(text) => text.fmt(f),
            KittyImageData::DirectBin(bytes) => Encoded(bytes.as_slice()).fmt(f),
            KittyImageData::File { path, .. } => Encoded(path.as_bytes()).fmt(f),
            KittyImageData::TemporaryFile { path, .. } => Encoded(path.as_bytes()).fmt(f),
            KittyImageData::SharedMem { name, .. } => Encoded(name.as_bytes()).fmt(f),
        }
    }
}

/// Writes only the number of the bytes in the command, since they may be many.
impl<A: Allocator> fmt::Debug for KittyImageData<A> {
    fn fmt<W: fmt::Write>(&self, f: &mut fmt::Formatter<W>) -> fmt::Result {
        match self {
            KittyImageData::Direct(text) => show_length("Direct", text.len(), f),
            KittyImageData::DirectBin(bytes) => show_length("DirectBin", bytes.len(), f),
            KittyImageData::File {
                path,
                data_size,
                data_offset,
            } => show_named("File", "path", path, data_size, data_offset, f),
            KittyImageData::TemporaryFile {
                path,
                data_size,
                data_offset,
            } => show_named("TemporaryFile", "path", path, data_size, data_offset, f),
            KittyImageData::SharedMem {
                name,
                data_size,
                data_offset,
            } => show_named("SharedMem", "name", name, data_size, data_offset, f),
        }
    }
}

// Writes how many bytes the command itself has.
fn show_length<W: fmt::Write>(
    variant: &str,
    length: usize,
    f: &mut fmt::Formatter<W>,
) -> fmt::Result {
    write!(f, "{variant}({length} bytes of data)")
}

// Writes the path or the name in a command, after the name of its field.
fn show_named<A: Allocator, W: fmt::Write>(
    variant: &str,
    field: &str,
    named: &Text<A>,
    data_size: &Option<u32>,
    data_offset: &Option<u32>,
    f: &mut fmt::Formatter<W>,
) -> fmt::Result {
    f.debug_struct(variant)
        .field(field, named)
        .field("data_offset", data_offset)
        .field("data_size", data_size)
        .finish()
}
