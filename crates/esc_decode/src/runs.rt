//! The bytes that many bytes become.
ghost use Rattle.std.specs.Prelude.{[], ◌≡◌, ◌++◌, ◌<◌, ◌≤◌, IfOk, IsTrue, OnErr, OnOk, length, take};
ghost use Rattle.esc_decode.specs.Masks.{Stay, begun_after, masked_after};
ghost use Rattle.esc_frame.specs.Machine.Prefixes.{prefix_of};
ghost use Rattle.fallible_alloc.specs.Refusals.{Refused};

use crate::ascii::ascii_blocks;
use crate::mask::step;
use esc_frame::ascii_run;
use esc_frame::utf8::sequence::Pending;
use simdutf8::basic::from_utf8;
use std::alloc::{AllocError, Allocator};

// So many bytes after the first blocks of ASCII the rest is not validated as a whole again: text
// in another encoding costs no more than one or two looks.
const EARLY: usize = 4;

/// The begun bytes after these bytes, and whether it is known that each of them stays.
pub(crate) fn look(begun: Pending, bytes: &[u8]) -> (Pending, bool)
    ensures begun { prefix_of result.0 ≡ begun_after (prefix_of begun) bytes.now }
    ensures stays { IsTrue result.1 → masked_after (prefix_of begun) bytes.now ≡ bytes.now }
{
    let mut last = begun;
    let mut stays = true;
    let mut at = first_blocks(begun, bytes);
    let early = at.saturating_add(EARLY);
    while at < bytes.len() {
        let (next, n, some) = look_some(last, &bytes[at..], at < early);
        last = next;
        stays &= some;
        at += n;
    }
    (last, stays)
}

// The length of the blocks of ASCII that come first, if nothing has begun; or 0.
fn first_blocks(begun: Pending, bytes: &[u8]) -> usize
    ensures few { result ≤ length bytes.now }
    ensures begun { begun_after (prefix_of begun) (take result bytes.now) ≡ prefix_of begun }
    ensures stays { masked_after (prefix_of begun) (take result bytes.now)
        ≡ take result bytes.now }
{
    match begun {
        Pending::Nothing => ascii_blocks(bytes),
        Pending::One(_) | Pending::Two(_, _) | Pending::Three(_, _, _) => 0,
    }
}

// The same for some of these bytes, at least one, and how many.
fn look_some(begun: Pending, bytes: &[u8], is_early: bool) -> (Pending, usize, bool)
    requires { 0 < length bytes.now }
    ensures count { (0 < result.1) × (result.1 ≤ length bytes.now) }
    ensures begun { prefix_of result.0
        ≡ begun_after (prefix_of begun) (take result.1 bytes.now) }
    ensures stays { IsTrue result.2
        → masked_after (prefix_of begun) (take result.1 bytes.now) ≡ take result.1 bytes.now }
{
    let run = stay_run(begun, bytes, is_early);
    if run == 0 {
        let (next, becomes) = step(begun, bytes[0]);
        (next, 1, becomes == bytes[0])
    } else {
        (Pending::Nothing, run, true)
    }
}

/// Makes bytes those that they become; returns the begun bytes after them.
pub(crate) fn mask_all(begun: Pending, bytes: &mut [u8]) -> Pending
    ensures begun { prefix_of result ≡ begun_after (prefix_of begun) bytes.old }
    ensures masked { bytes.new ≡ masked_after (prefix_of begun) bytes.old }
{
    let (last, stays) = look(begun, bytes);
    if stays {
        return last;
    }
    mask_each(begun, bytes);
    last
}

// The same, byte after byte.
#[tactic(auto, using(crate::proofs::Masks::all_masked, crate::proofs::Masks::one_masked))]
fn mask_each(begun: Pending, bytes: &mut [u8])
    ensures { bytes.new ≡ masked_after (prefix_of begun) bytes.old }
{
    let mut last = begun;
    for at in 0..bytes.len() {
        let (next, becomes) = step(last, bytes[at]);
        last = next;
        bytes[at] = becomes;
    }
}

/// Appends the bytes that these bytes become.
pub(crate) fn push_masked<A: Allocator>(
    text: &mut Vec<u8, A>,
    begun: Pending,
    bytes: &[u8],
) -> Result<(), AllocError>
    ensures ok { OnOk result
        (text.new.items ≡ text.old.items ++ masked_after (prefix_of begun) bytes.now) }
    ensures refused { OnErr result (Refused A) }
{
    let mut last = begun;
    let mut at = 0;
    while at < bytes.len() {
        let (next, n) = push_some(text, last, &bytes[at..])?;
        last = next;
        at += n;
    }
    Ok(())
}

// The same for some of these bytes, at least one: the begun bytes then, and their number.
fn push_some<A: Allocator>(
    text: &mut Vec<u8, A>,
    begun: Pending,
    bytes: &[u8],
) -> Result<(Pending, usize), AllocError>
    requires { 0 < length bytes.now }
    ensures count { IfOk result (λ x. (0 < x.1) × (x.1 ≤ length bytes.now)) }
    ensures ok { IfOk result (λ x.
        (text.new.items ≡ text.old.items ++ masked_after (prefix_of begun) (take x.1 bytes.now))
        × (prefix_of x.0 ≡ begun_after (prefix_of begun) (take x.1 bytes.now))) }
    ensures refused { OnErr result (Refused A) }
{
    let run = stay_run(begun, bytes, false);
    if run == 0 {
        let (next, becomes) = step(begun, bytes[0]);
        fallible_alloc::extend(text, &[becomes])?;
        Ok((next, 1))
    } else {
        fallible_alloc::extend(text, &bytes[..run])?;
        Ok((Pending::Nothing, run))
    }
}

// The length of a run of bytes that stay and leave nothing begun; 0 if something has begun, or none
// is seen at once.
fn stay_run(begun: Pending, bytes: &[u8], is_early: bool) -> usize
    ensures few { result ≤ length bytes.now }
    ensures stay { 0 < result → (prefix_of begun ≡ []) × Stay (take result bytes.now) }
{
    match begun {
        Pending::Nothing => {
            let run = if is_early { whole_run(bytes) } else { 0 };
            if run == 0 { ascii_run(bytes) } else { run }
        }
        Pending::One(_) | Pending::Two(_, _) | Pending::Three(_, _, _) => 0,
    }
}

// The length of the bytes but for a last character that may go on, if they are UTF-8; or 0.
fn whole_run(bytes: &[u8]) -> usize
    ensures few { result ≤ length bytes.now }
    ensures stay { Stay (take result bytes.now) }
{
    let end = before_last(bytes);
    match from_utf8(&bytes[..end]) {
        Ok(_) => end,
        Err(_) => 0,
    }
}

// The beginning of the last character, if it has more than one byte; or the end.
fn before_last(bytes: &[u8]) -> usize
    ensures { result ≤ length bytes.now }
{
    let mut at = bytes.len();
    while bytes.len() - at < 3 && 0 < at && bytes[at - 1] & 0xc0 == 0x80 {
        at -= 1;
    }
    if 0 < at && bytes[at - 1] >= 0xc0 {
        at - 1
    } else {
        bytes.len()
    }
}
