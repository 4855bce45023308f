//! This module shows bytes as text.
ghost use Rattle.std.specs.Prelude.{Some};
ghost use Rattle.std.specs.Str.Lossy.{utf8_lossy};

use std::fmt;

/// The bytes print as their lossy text: each well-formed sequence of UTF-8 is its character, and
/// each longest proper prefix of one that is not continued, and each other byte, is U+FFFD
/// (Unicode, Table 3-7 and "U+FFFD Substitution of Maximal Subparts").
#[derive(Clone, Copy)]
pub struct Lossy<'a>(pub &'a [u8]);

impl fmt::Display for Lossy<'_> {
    ghost output = { λ b. Some (utf8_lossy b.0.now) };

    fn fmt<W: fmt::Write>(&self, f: &mut fmt::Formatter<W>) -> fmt::Result {
        for chunk in self.0.utf8_chunks() {
            f.write_str(chunk.valid())?;
            if !chunk.invalid().is_empty() {
                f.write_str("\u{FFFD}")?;
            }
        }
        Ok(())
    }
}
