//! This module reads the version of Unicode.
ghost use Rattle.std.specs.Prelude.{◌≡◌, IfOk, OnErr, Some, if◌then◌else◌};
ghost use Rattle.esc_iterm.specs.Versions.{labelled_version, unlabelled_version, version_of};
ghost use Rattle.esc_iterm.specs.declared.unicode_version.ITermUnicodeVersionOp.TheVariants as op;
ghost use Rattle.fallible_alloc.specs.Refusals.{Refused};

use crate::unicode_version::ITermUnicodeVersionOp;
use esc_values::Text;
use esc_values::cut::cut;
use esc_values::scalar::{read_u8, text_in};
use std::alloc::{AllocError, Allocator};

// Reads `push` or `pop`, with or without a label after the first space, or a number.
pub(crate) fn read_version<A: Allocator + Copy>(
    alloc: A,
    text: &[u8],
) -> Result<Option<ITermUnicodeVersionOp<A>>, AllocError>
    ensures ok { IfOk result (λ v. v ≡ version_of text.now) }
    ensures refused { OnErr result (Refused A) }
{
    match cut(text, b' ') {
        Some((word, label)) => read_labelled(alloc, word, label),
        None => Ok(read_unlabelled(text)),
    }
}

// Reads a word and a label.
fn read_labelled<A: Allocator + Copy>(
    alloc: A,
    word: &[u8],
    label: &[u8],
) -> Result<Option<ITermUnicodeVersionOp<A>>, AllocError>
    ensures ok { IfOk result (λ v. v ≡ labelled_version word.now label.now) }
    ensures refused { OnErr result (Refused A) }
{
    let Some(label) = text_in(label) else {
        return Ok(None);
    };
    let is_push = word == b"push".as_slice();
    if !is_push && word != b"pop".as_slice() {
        return Ok(None);
    }
    Ok(Some(with_label(is_push, Text::from_str(alloc, label)?)))
}

// Returns the operation that keeps a version under a label, or brings it back.
fn with_label<A: Allocator>(is_push: bool, label: Text<A>) -> ITermUnicodeVersionOp<A>
    ensures { result ≡ (if is_push then op.Push (Some label) else op.Pop (Some label)) }
{
    if is_push {
        ITermUnicodeVersionOp::Push(Some(label))
    } else {
        ITermUnicodeVersionOp::Pop(Some(label))
    }
}

// Reads a word alone, or a number.
fn read_unlabelled<A: Allocator>(word: &[u8]) -> Option<ITermUnicodeVersionOp<A>>
    ensures { result ≡ unlabelled_version word.now }
{
    if word == b"push".as_slice() {
        Some(ITermUnicodeVersionOp::Push(None))
    } else if word == b"pop".as_slice() {
        Some(ITermUnicodeVersionOp::Pop(None))
    } else {
        match read_u8(word) {
            Some(number) => Some(ITermUnicodeVersionOp::Set(number)),
            None => None,
        }
    }
}
