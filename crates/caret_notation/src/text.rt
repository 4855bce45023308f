//! Runs of text that stay as they are.
ghost use Rattle.std.specs.Prelude.{◌<◌, ◌≤◌, ◌≡◌, false, length, take, true};
ghost use Rattle.std.specs.List.{list_any};
ghost use Rattle.caret_notation.specs.Runs.{IsAdmittedText};
ghost use Rattle.caret_notation.specs.Visible.{is_mark, lets_stay};

use crate::marking::Marking;
use esc_filter::Admit;
use esc_frame::ascii_run;
use esc_frame::runs::scans::free_run;
use esc_frame::utf8::sequence::ahead;
use memchr::memchr2;
use simdutf8::basic::from_utf8;
use std::alloc::Allocator;

/// Returns the length of the first run of characters that the policy admits: of ASCII, 20 to 7F, or
/// in UTF-8, without marks if these are shown. It is 0 if none is seen at once.
#[inline]
pub(crate) fn admitted_run<P: Admit<A>, A: Allocator>(
    policy: &P,
    marking: Marking,
    bytes: &[u8],
) -> usize
    requires { 0 < length bytes.now }
    ensures few { result ≤ length bytes.now }
    ensures text { IsAdmittedText (P.admits policy.now) (take result bytes.now) }
    ensures stays { lets_stay marking (take result bytes.now) ≡ true }
{
    if bytes[0] < 0x20 {
        0
    } else if bytes[0] < 0x80 {
        ascii_admitted(policy, marking, bytes)
    } else {
        wide_admitted(policy, marking, bytes)
    }
}

// Does the same for a run of ASCII.
#[inline]
fn ascii_admitted<P: Admit<A>, A: Allocator>(policy: &P, marking: Marking, bytes: &[u8]) -> usize
    ensures few { result ≤ length bytes.now }
    ensures text { IsAdmittedText (P.admits policy.now) (take result bytes.now) }
    ensures stays { lets_stay marking (take result bytes.now) ≡ true }
{
    let run = unmarked_run(marking, bytes, ascii_run(bytes));
    if policy.admits_text(&bytes[..run]) {
        run
    } else {
        0
    }
}

// Does the same in UTF-8. Bytes that begin no character show that at once.
fn wide_admitted<P: Admit<A>, A: Allocator>(policy: &P, marking: Marking, bytes: &[u8]) -> usize
    ensures few { result ≤ length bytes.now }
    ensures text { IsAdmittedText (P.admits policy.now) (take result bytes.now) }
    ensures stays { lets_stay marking (take result bytes.now) ≡ true }
{
    if ahead(bytes).0 == 0 {
        return 0;
    }
    let run = unmarked_run(marking, bytes, free_run(bytes));
    match from_utf8(&bytes[..run]) {
        Ok(text) => { if policy.admits_str(text) { run } else { 0 } }
        Err(_) => 0,
    }
}

// Returns how many of the first bytes, at most this number, may stay: all, or those before the
// first mark.
#[inline]
fn unmarked_run(marking: Marking, bytes: &[u8], run: usize) -> usize
    requires { run ≤ length bytes.now }
    ensures few { result ≤ run }
    ensures stays { lets_stay marking (take result bytes.now) ≡ true }
{
    match marking {
        Marking::Plain | Marking::Reversed => run,
        Marking::Escaped => mark_at(&bytes[..run]),
    }
}

// Returns the place of the first `^` or `<`, or the length if there is none.
fn mark_at(bytes: &[u8]) -> usize
    ensures few { result ≤ length bytes.now }
    ensures unmarked { list_any is_mark (take result bytes.now) ≡ false }
{
    match memchr2(b'<', b'^', bytes) {
        Some(at) => at,
        None => bytes.len(),
    }
}
