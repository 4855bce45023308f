//! Visible text, by runs.
ghost use Rattle.std.specs.Prelude.{[], ◌≡◌, ◌++◌, ◌<◌, ◌≤◌, IfOk, OnErr, OnOk, length, take, true};
ghost use Rattle.std.specs.List.{list_all};
ghost use Rattle.esc_frame.specs.Machine.Prefixes.{prefix_of};
ghost use Rattle.caret_notation.specs.Runs.{is_plain};
ghost use Rattle.caret_notation.specs.Visible.{begun_after, settled_text, shown_text, visible_text};
ghost use Rattle.fallible_alloc.specs.Refusals.{Refused};

use crate::marking::Marking;
use crate::visible::{push_next, push_stray};
use esc_frame::utf8::sequence::Pending;
use std::alloc::{AllocError, Allocator};

/// Appends the visible text of `bytes`: the texts of each well-formed character of UTF-8 (Unicode,
/// Table 3-7) and of each byte that is no part of one. Controls are `^X` and `^?`, as `cat -v`
/// writes them; `^`, `<` and bytes that are no part of a character are their numbers, as `<9D>`;
/// characters that do not show as themselves, among them C1 and those that have no width or change
/// the direction of text, are `<U+202E>`, as `less` writes both; any other character is itself. So
/// the text can be read back as `bytes`.
///
/// The error says that memory was refused: a part of the text was appended then.
pub fn push_visible<A: Allocator>(text: &mut Vec<u8, A>, bytes: &[u8]) -> Result<(), AllocError>
    ensures ok { OnOk result (text.new.items ≡ text.old.items ++ visible_text bytes.now) }
    ensures refused { OnErr result (Refused A) }
{
    let last = push_runs(text, Pending::Nothing, bytes)?;
    push_stray(text, last)
}

/// Appends the text of bytes that are shown so: nothing for none.
pub(crate) fn push_shown<A: Allocator>(
    text: &mut Vec<u8, A>,
    marking: Marking,
    bytes: &[u8],
) -> Result<(), AllocError>
    ensures ok { OnOk result (text.new.items ≡ text.old.items ++ shown_text marking bytes.now) }
    ensures refused { OnErr result (Refused A) }
{
    if bytes.is_empty() {
        return Ok(());
    }
    fallible_alloc::extend(text, marking.opening())?;
    push_visible(text, bytes)?;
    fallible_alloc::extend(text, marking.closing())
}

/// Appends the text that `bytes` after `begun` show whatever follows, and returns the begun bytes
/// at their end. Runs of characters of ASCII that show as themselves are appended at once.
pub(crate) fn push_runs<A: Allocator>(
    text: &mut Vec<u8, A>,
    begun: Pending,
    bytes: &[u8],
) -> Result<Pending, AllocError>
    ensures ok { IfOk result (λ p.
        (text.new.items ≡ text.old.items ++ settled_text (prefix_of begun) bytes.now)
        × (prefix_of p ≡ begun_after (prefix_of begun) bytes.now)) }
    ensures refused { OnErr result (Refused A) }
{
    let mut last = begun;
    let mut at = 0;
    while at < bytes.len() {
        let (next, n) = push_some(text, last, &bytes[at..])?;
        last = next;
        at += n;
    }
    Ok(last)
}

// Does the same for some of these bytes, at least one, and returns how many.
fn push_some<A: Allocator>(
    text: &mut Vec<u8, A>,
    begun: Pending,
    bytes: &[u8],
) -> Result<(Pending, usize), AllocError>
    requires { 0 < length bytes.now }
    ensures count { IfOk result (λ x. (0 < x.1) × (x.1 ≤ length bytes.now)) }
    ensures ok { IfOk result (λ x.
        (text.new.items ≡ text.old.items ++ settled_text (prefix_of begun) (take x.1 bytes.now))
        × (prefix_of x.0 ≡ begun_after (prefix_of begun) (take x.1 bytes.now))) }
    ensures refused { OnErr result (Refused A) }
{
    match begun {
        Pending::Nothing => push_plain(text, bytes),
        Pending::One(_) | Pending::Two(_, _) | Pending::Three(_, _, _) => {
            push_one(text, begun, bytes)
        }
    }
}

// Does the same if no character has begun.
fn push_plain<A: Allocator>(
    text: &mut Vec<u8, A>,
    bytes: &[u8],
) -> Result<(Pending, usize), AllocError>
    requires { 0 < length bytes.now }
    ensures count { IfOk result (λ x. (0 < x.1) × (x.1 ≤ length bytes.now)) }
    ensures ok { IfOk result (λ x.
        (text.new.items ≡ text.old.items ++ settled_text [] (take x.1 bytes.now))
        × (prefix_of x.0 ≡ begun_after [] (take x.1 bytes.now))) }
    ensures refused { OnErr result (Refused A) }
{
    let run = plain_run(bytes);
    if run == 0 {
        return push_one(text, Pending::Nothing, bytes);
    }
    fallible_alloc::extend(text, &bytes[..run])?;
    Ok((Pending::Nothing, run))
}

// Does the same for the first byte.
fn push_one<A: Allocator>(
    text: &mut Vec<u8, A>,
    begun: Pending,
    bytes: &[u8],
) -> Result<(Pending, usize), AllocError>
    requires { 0 < length bytes.now }
    ensures count { IfOk result (λ x. (0 < x.1) × (x.1 ≤ length bytes.now)) }
    ensures ok { IfOk result (λ x.
        (text.new.items ≡ text.old.items ++ settled_text (prefix_of begun) (take x.1 bytes.now))
        × (prefix_of x.0 ≡ begun_after (prefix_of begun) (take x.1 bytes.now))) }
    ensures refused { OnErr result (Refused A) }
{
    let next = push_next(text, begun, bytes[0])?;
    Ok((next, 1))
}

// Returns the length of the longest prefix of characters of ASCII that show as themselves.
fn plain_run(bytes: &[u8]) -> usize
    ensures few { result ≤ length bytes.now }
    ensures plain { list_all is_plain (take result bytes.now) ≡ true }
{
    let mut at = 0;
    while at < bytes.len() && is_plain(bytes[at]) {
        at += 1;
    }
    at
}

// Returns whether the byte is such a character.
fn is_plain(byte: u8) -> bool
    ensures { result ≡ is_plain byte }
{
    0x20 <= byte && byte < 0x7f && byte != b'<' && byte != b'^'
}
