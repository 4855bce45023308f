//! Bytes that are kept until more come.
#![tactic(auto)]

ghost use Rattle.std.specs.Prelude.{◌≡◌, ◌++◌, ◌≤◌, OnErr, OnOk, drop, length};
ghost use Rattle.fallible_alloc.specs.Refusals.{Refused};

use std::alloc::{AllocError, Allocator};

/// Appends bytes to those of a line, and text to the text that was written of it.
pub(crate) fn extend_both<A: Allocator>(
    line: &mut Vec<u8, A>,
    bytes: &[u8],
    written: &mut Vec<u8, A>,
    text: &[u8],
) -> Result<(), AllocError>
    ensures kept { OnOk result ((line.new.items ≡ line.old.items ++ bytes.now)
        × (written.new.items ≡ written.old.items ++ text.now)) }
    ensures refused { OnErr result (Refused A) }
{
    match fallible_alloc::extend(line, bytes) {
        Ok(()) => fallible_alloc::extend(written, text),
        Err(error) => Err(error),
    }
}

/// Leaves out the bytes that come first, so many.
pub(crate) fn leave_out_first<A: Allocator>(bytes: &mut Vec<u8, A>, count: usize)
    requires { count ≤ length bytes.old.items }
    ensures { bytes.new.items ≡ drop count bytes.old.items }
{
    bytes.drain(..count);
}
