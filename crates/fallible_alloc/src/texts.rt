//! Texts. An error is that memory was refused.
ghost use Rattle.std.specs.Prelude.{◌≡◌, ◌++◌, is_ok, if◌then◌else◌, IfOk, IfSome, OnOk, OnErr, string_bytes, encode_utf8};
ghost use Rattle.std.specs.Str.Lossy.{utf8_lossy};
ghost use Rattle.fallible_alloc.specs.Refusals.{Refused};

use crate::answered::answered;
use std::alloc::{AllocError, Allocator};
use std::fmt;
use std::fmt::Write;

/// Returns a copy of a text.
#[inline(always)]
pub fn text<A: Allocator>(alloc: A, text: &str) -> Result<String<A>, AllocError>
    ensures ok { IfOk result (λ copy. string_bytes copy ≡ text.now) }
    ensures refused { OnErr result (Refused A) }
{
    answered::<_, _, A>(String::from_str(alloc, text))
}

/// Returns the text of these bytes, with U+FFFD for those that are not UTF-8.
#[inline(always)]
pub fn lossy<A: Allocator>(alloc: A, bytes: &[u8]) -> Result<String<A>, AllocError>
    ensures ok { IfOk result (λ text. string_bytes text ≡ utf8_lossy bytes.now) }
    ensures refused { OnErr result (Refused A) }
{
    answered::<_, _, A>(String::from_utf8_lossy(alloc, bytes))
}

/// Appends a text.
#[inline(always)]
pub fn push_str<A: Allocator>(text: &mut String<A>, more: &str) -> Result<(), AllocError>
    ensures bytes { string_bytes text.new
        ≡ (if is_ok result then string_bytes text.old ++ more.now else string_bytes text.old) }
    ensures refused { OnErr result (Refused A) }
{
    answered::<_, _, A>(text.push_str(more))
}

/// Appends a character.
#[inline(always)]
pub fn push_char<A: Allocator>(text: &mut String<A>, c: char) -> Result<(), AllocError>
    ensures bytes { string_bytes text.new
        ≡ (if is_ok result then string_bytes text.old
        ++ encode_utf8 c else string_bytes text.old) }
    ensures refused { OnErr result (Refused A) }
{
    answered::<_, _, A>(text.push(c))
}

/// Appends the text that Display writes for a value. Its Display may fail only if its writer fails,
/// as each Display of this library does; the standard library has no word for that, so it is
/// trusted.
#[inline(always)]
pub fn push_display<T: fmt::Display, A: Allocator>(
    text: &mut String<A>,
    value: &T,
) -> Result<(), AllocError>
    ensures text { IfSome (T.output value.now) (λ t.
        OnOk result (string_bytes text.new ≡ string_bytes text.old ++ t)) }
    ensures refused { OnErr result (Refused A) }
{
    answered::<_, _, A>(write!(*text, "{value}"))
}
