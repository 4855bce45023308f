//! This module defines the version of Unicode whose widths are used
//! (<https://iterm2.com/documentation-escape-codes.html>, "Unicode Version").
ghost use Rattle.std.specs.Prelude.{Some};
ghost use Rattle.esc_iterm.specs.Versions.{version_text};

use crate::write::write_text;
use esc_values::Text;
use std::alloc::{Allocator, Global};
use std::fmt;

/// The operation changes the version of Unicode that gives characters their widths (iTerm2's
/// documentation, "Unicode Version").
#[derive(Drop)]
#[derive_where(Debug, PartialEq, Eq)]
pub enum ITermUnicodeVersionOp<A: Allocator = Global> {
    /// Sets the version.
    Set(u8),
    /// Keeps the version on a stack, under a label if there is one.
    Push(Option<Text<A>>),
    /// Sets the version that was kept last, or that under the label, and drops those kept since.
    Pop(Option<Text<A>>),
}

/// Writes the number, or `push` or `pop`, with a space and the label if there is one. If it returns
/// `Ok`, all of it was written.
impl<A: Allocator> fmt::Display for ITermUnicodeVersionOp<A> {
    ghost output = { λ v. Some (version_text v) };

    fn fmt<W: fmt::Write>(&self, f: &mut fmt::Formatter<W>) -> fmt::Result {
        match self {
            ITermUnicodeVersionOp::Set(number) => write!(f, "{number}"),
            ITermUnicodeVersionOp::Push(None) => f.write_str("push"),
            ITermUnicodeVersionOp::Push(Some(label)) => write_text("push ", label, f),
            ITermUnicodeVersionOp::Pop(None) => f.write_str("pop"),
            ITermUnicodeVersionOp::Pop(Some(label)) => write_text("pop ", label, f),
        }
    }
}
