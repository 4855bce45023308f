//! Files that are compressed.
ghost use Rattle.std.specs.Prelude.{◌≡◌};
ghost use Rattle.command_line.specs.Packs.{packed_by, packed_rarely};

use crate::wrong::write_texts;
use std::fmt;
use std::fmt::Display;
use std::fs::{Metadata, OpenFile};
use std::os::unix::fs::FileExt;
use unicode_visibility::is_shown;

// The most bytes by which a form is known.
const FIRST: usize = 13;

// The length in a file of `lzma` that says none.
const UNKNOWN: &[u8] = b"\xff\xff\xff\xff\xff\xff\xff\xff";

/// A form of compressed files.
#[derive(Clone, Copy, PartialEq, Eq)]
pub enum Packed {
    /// That of `gzip`.
    Gzip,
    /// That of `zstd`.
    Zstd,
    /// That of `xz`.
    Xz,
    /// That of `bzip2`.
    Bzip2,
    /// That of `lz4`.
    Lz4,
    /// That of `lzma`.
    Lzma,
    /// That of `compress`.
    Compress,
    /// That of `zip`.
    Zip,
}

impl Packed {
    // Returns the form of a file that begins with these bytes, if it is compressed.
    fn of(bytes: &[u8]) -> Option<Packed>
        ensures { result ≡ packed_by bytes.now }
    {
        if bytes.starts_with(b"\x1f\x8b") {
            return Some(Packed::Gzip);
        }
        if bytes.starts_with(b"\x28\xb5\x2f\xfd") {
            return Some(Packed::Zstd);
        }
        if bytes.starts_with(b"\xfd7zXZ\0") {
            return Some(Packed::Xz);
        }
        if bytes.starts_with(b"BZh") && bytes.len() > 4 && bytes[4..].starts_with(b"1AY&SY") {
            return Some(Packed::Bzip2);
        }
        Packed::rarely(bytes)
    }

    // Does so for the forms that are rarer.
    fn rarely(bytes: &[u8]) -> Option<Packed>
        ensures { result ≡ packed_rarely bytes.now }
    {
        if bytes.starts_with(b"\x04\x22\x4d\x18") {
            return Some(Packed::Lz4);
        }
        if bytes.starts_with(b"\x5d\0\0") && bytes.len() > 5 && bytes[5..].starts_with(UNKNOWN) {
            return Some(Packed::Lzma);
        }
        if bytes.starts_with(b"\x1f\x9d") {
            return Some(Packed::Compress);
        }
        if bytes.starts_with(b"PK\x03\x04") {
            return Some(Packed::Zip);
        }
        None
    }

    // Returns the program that makes it, and the one that writes its content.
    fn programs(self) -> (&'static str, &'static str) {
        match self {
            Packed::Gzip => ("gzip", "zcat"),
            Packed::Zstd => ("zstd", "zstdcat"),
            Packed::Xz => ("xz", "xzcat"),
            Packed::Bzip2 => ("bzip2", "bzcat"),
            Packed::Lz4 => ("lz4", "lz4 -dc"),
            Packed::Lzma => ("lzma", "xzcat"),
            Packed::Compress => ("compress", "zcat"),
            Packed::Zip => ("zip", "zcat"),
        }
    }
}

/// That a file is compressed, and how a program reads its content.
#[derive(Clone, Copy)]
pub struct PackedFile<'a> {
    /// The form.
    pub packed: Packed,
    /// The file's name.
    pub name: &'a str,
    /// The program.
    pub program: &'a str,
}

impl<'a> Display for PackedFile<'a> {
    fn fmt<W: fmt::Write>(&self, f: &mut fmt::Formatter<W>) -> fmt::Result {
        let (packs, reads) = self.packed.programs();
        write_texts(&["compressed by ", packs, ", try ", reads, " < "], f)?;
        write_word(self.name, f)?;
        write_texts(&[" | ", self.program], f)
    }
}

// Writes a name as a word of a shell, after `<`: between quotes unless it is plain. One that cannot
// be printed is FILE.
fn write_word<W: fmt::Write>(name: &str, f: &mut fmt::Formatter<W>) -> fmt::Result {
    if are_plain(name.as_bytes()) {
        return f.write_str(name);
    }
    if !are_shown(name) {
        return f.write_str("FILE");
    }
    f.write_str("'")?;
    for c in name.chars() {
        write_quoted(c, f)?;
    }
    f.write_str("'")
}

// Returns whether each byte means itself in a word of a shell.
fn are_plain(bytes: &[u8]) -> bool {
    for byte in bytes {
        if !is_plain(*byte) {
            return false;
        }
    }
    true
}

// Returns whether each character can be printed.
fn are_shown(text: &str) -> bool {
    for c in text.chars() {
        if !is_shown(c) {
            return false;
        }
    }
    true
}

// Returns whether a byte means itself in a word of a shell.
fn is_plain(byte: u8) -> bool {
    byte.is_ascii_alphanumeric() || matches!(byte, b'.' | b'_' | b'/' | b'-' | b'+' | b',' | b':')
}

// Writes a character between the quotes of a shell.
fn write_quoted<W: fmt::Write>(c: char, f: &mut fmt::Formatter<W>) -> fmt::Result {
    match c {
        '\'' => f.write_str("'\\''"),
        _ => f.write_char(c),
    }
}

/// Returns the form of a regular file that is compressed, by its first bytes. Its position stays as
/// it is.
pub fn packed_in<F: OpenFile + FileExt>(file: &F) -> Option<Packed> {
    match file.metadata() {
        Ok(known) => packed_of(file, &known),
        Err(_) => None,
    }
}

// Does the same for a file with this metadata. One of no length, as in /proc, may be another each
// time that it is read.
fn packed_of<F: FileExt>(file: &F, known: &Metadata) -> Option<Packed> {
    if !known.is_file() || known.len() == 0 {
        return None;
    }
    let mut first = [0u8; FIRST];
    match file.read_at(&mut first, 0) {
        Ok(count) => Packed::of(first.get(..count).unwrap_or(&[])),
        Err(_) => None,
    }
}
