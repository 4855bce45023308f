//! This crate has iTerm2's proprietary commands: their values, a reader of the parts after their
//! code, and a writer.
//!
//! The standards: iTerm2's documentation, "Proprietary Escape Codes"
//! (<https://iterm2.com/documentation-escape-codes.html>) and "Inline Images Protocol"
//! (<https://iterm2.com/documentation-images.html>).
//!
//! A program shows a picture with `ESC ] 1337 ; File=inline=1:aGk= ESC \`:
//! `ITermProprietary::parse(alloc, &[b"File=inline=1:aGk="])?` is
//! `Some(ITermProprietary::File(file))`, where `file.inline` is true and `file.content` holds the
//! bytes of `hi`.
#![tactic(auto)]

pub mod dimension;
pub mod file_data;
mod file_keys;
pub mod file_laws;
pub mod laws;
pub mod proprietary;
mod read;
mod read_file;
mod read_version;
pub mod tenths;
mod text_form;
pub mod unicode_version;
mod write;
mod write_file;

pub use dimension::ITermDimension;
pub use esc_values::{Boxed, boxed};
pub use file_data::ITermFileData;
pub use proprietary::ITermProprietary;
pub use unicode_version::ITermUnicodeVersionOp;
