//! Bytes of an 8-bit encoding as characters.
ghost use Rattle.std.specs.Prelude.{◌≡◌, ◌++◌, ◌<◌, ◌≤◌, IfOk, OnErr, OnOk, encode_utf8, length, take, true};
ghost use Rattle.esc_decode.specs.Pages.{point_in, read_in};
ghost use Rattle.esc_decode.specs.Spellings.{spelling};
ghost use Rattle.fallible_alloc.specs.Refusals.{Refused};
ghost use lib.Utf8.{scalar};

use esc_frame::ascii_run;
use std::alloc::{AllocError, Allocator};

/// Appends the characters of the bytes, by the table of those from 80 on, and FF for a byte that
/// has none.
pub(crate) fn push_characters<A: Allocator>(
    text: &mut Vec<u8, A>,
    table: &[u16; 128],
    bytes: &[u8],
) -> Result<(), AllocError>
    ensures ok { OnOk result (text.new.items ≡ text.old.items ++ read_in table.now bytes.now) }
    ensures refused { OnErr result (Refused A) }
{
    let mut at = 0;
    while at < bytes.len() {
        let n = push_some(text, table, &bytes[at..])?;
        at += n;
    }
    Ok(())
}

// The same for some of these bytes, at least one, and how many.
fn push_some<A: Allocator>(
    text: &mut Vec<u8, A>,
    table: &[u16; 128],
    bytes: &[u8],
) -> Result<usize, AllocError>
    requires { 0 < length bytes.now }
    ensures count { IfOk result (λ n. (0 < n) × (n ≤ length bytes.now)) }
    ensures ok { IfOk result (λ n.
        text.new.items ≡ text.old.items ++ read_in table.now (take n bytes.now)) }
    ensures refused { OnErr result (Refused A) }
{
    let run = ascii_run(bytes);
    if run > 0 {
        fallible_alloc::extend(text, &bytes[..run])?;
        return Ok(run);
    }
    push_point(text, point_of(table, bytes[0]))?;
    Ok(1)
}

/// The code point of a byte: a surrogate if it has no character.
#[inline(always)]
pub(crate) fn point_of(table: &[u16; 128], byte: u8) -> u16
    ensures { result ≡ point_in table.now byte }
{
    if byte < 0x80 {
        byte as u16
    } else {
        table[byte as usize - 0x80]
    }
}

// Appends the UTF-8 of a code point.
#[inline(always)]
fn push_point<A: Allocator>(text: &mut Vec<u8, A>, n: u16) -> Result<(), AllocError>
    ensures ok { OnOk result (text.new.items ≡ text.old.items ++ spelling n) }
    ensures refused { OnErr result (Refused A) }
{
    if 0xd800 <= n && n <= 0xdfff {
        return fallible_alloc::extend(text, &[0xff]);
    }
    push_scalar(text, n)
}

// The same if it is a character.
#[inline(always)]
fn push_scalar<A: Allocator>(text: &mut Vec<u8, A>, n: u16) -> Result<(), AllocError>
    requires { scalar n ≡ true }
    ensures ok { OnOk result (text.new.items ≡ text.old.items ++ encode_utf8 n) }
    ensures refused { OnErr result (Refused A) }
{
    if n < 0x80 {
        return fallible_alloc::extend(text, &[n as u8]);
    }
    let last = (128 + n % 64) as u8;
    if n < 0x800 {
        fallible_alloc::extend(text, &[(192 + n / 64) as u8, last])?;
    } else {
        fallible_alloc::extend(
            text,
            &[(224 + n / 4096) as u8, (128 + n / 64 % 64) as u8, last],
        )?;
    }
    Ok(())
}
