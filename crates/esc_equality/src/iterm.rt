//! iTerm2's commands.
ghost use Rattle.std.specs.Prelude.{◌≡◌, ◌↔◌, IsTrue};

use esc_iterm::{ITermDimension, ITermFileData, ITermProprietary, ITermUnicodeVersionOp};
use std::alloc::Allocator;

/// Returns whether two dimensions are the same.
pub fn same_dimension(a: &ITermDimension, b: &ITermDimension) -> bool
    ensures { IsTrue result ↔ (a.now ≡ b.now) }
{
    a == b
}

/// Returns whether two changes of Unicode's version are the same.
pub fn same_unicode_version<A: Allocator>(
    a: &ITermUnicodeVersionOp<A>,
    b: &ITermUnicodeVersionOp<A>,
) -> bool
    ensures { IsTrue result ↔ (a.now ≡ b.now) }
{
    a == b
}

/// Returns whether two files are the same.
pub fn same_file<A: Allocator>(a: &ITermFileData<A>, b: &ITermFileData<A>) -> bool
    ensures { IsTrue result ↔ (a.now ≡ b.now) }
{
    a == b
}

/// Returns whether two commands of iTerm2 are the same.
pub fn same_iterm<A: Allocator>(a: &ITermProprietary<A>, b: &ITermProprietary<A>) -> bool
    ensures { IsTrue result ↔ (a.now ≡ b.now) }
{
    a == b
}
