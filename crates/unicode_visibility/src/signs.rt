//! This module says whether a text may have characters that deceive, by its bytes.
ghost use Rattle.std.specs.Prelude.{◌≡◌, ◌≤◌, false, length};
ghost use Rattle.unicode_visibility.specs.Signs.{begins_sign, has_hint, has_sign, is_dash, is_hint, is_sign};

// Says how many places of a block are looked at, and how many bytes it has: a place is of two
// bytes.
const PLACES: usize = 32;

const BLOCK: usize = 33;

/// Returns whether a character that deceives may be in the text of these bytes. Most bytes are
/// compared 16 at once.
#[inline]
pub(crate) fn may_deceive(bytes: &[u8]) -> bool
    ensures { result ≡ false → has_sign bytes.now ≡ false }
{
    if bytes.len() >= BLOCK && !has_hint(bytes) {
        return false;
    }
    has_sign(bytes)
}

// Returns whether two bytes somewhere may begin one. The last block shares bytes with the one
// before it.
fn has_hint(bytes: &[u8]) -> bool
    requires { 33 ≤ length bytes.now }
    ensures { result ≡ false → has_hint bytes.now ≡ false }
{
    let last = bytes.len() - BLOCK;
    let mut at = 0;
    while at < last {
        if block_has_hint(&bytes[at..at + BLOCK]) {
            return true;
        }
        at += PLACES;
    }
    block_has_hint(&bytes[last..])
}

// Does the same for a block: without branches, so that the compiler compares 16 bytes at once.
#[inline(always)]
fn block_has_hint(block: &[u8]) -> bool
    requires { length block.now ≡ 33 }
    ensures { result ≡ has_hint block.now }
{
    let mut found = false;
    for place in 0..PLACES {
        found = is_hint(block[place], block[place + 1]) | found;
    }
    found
}

#[inline(always)]
fn is_hint(a: u8, b: u8) -> bool
    ensures { result ≡ is_hint a b }
{
    ((a == 0xe2) & (b < 0x82))
        | ((a == 0xe3) & (b == 0x85))
        | ((a >= 0xef) & (b != 0x9f))
        | (a == 0xe1)
        | (a == 0xc2)
        | (a == 0xcd)
        | (a == 0xd8)
}

// Returns whether two or three bytes somewhere begin one.
fn has_sign(bytes: &[u8]) -> bool
    ensures { result ≡ has_sign bytes.now }
{
    let mut rest = bytes;
    while let Some((first, after)) = rest.split_first() {
        if begins_sign(*first, after) {
            return true;
        }
        rest = after;
    }
    false
}

// Returns whether a byte and those after it do.
#[inline(always)]
fn begins_sign(a: u8, after: &[u8]) -> bool
    ensures { result ≡ begins_sign a after.now }
{
    match after {
        [] => false,
        [b, rest @ ..] => is_sign(a, *b) && !is_dash(a, *b, rest),
    }
}

#[inline(always)]
fn is_sign(a: u8, b: u8) -> bool
    ensures { result ≡ is_sign a b }
{
    match a {
        0xc2 => b == 0xad,
        0xcd => b == 0x8f,
        0xd8 => b == 0x9c,
        0xe1 => b < 0xa1,
        0xe2 => b < 0x82,
        0xe3 => b == 0x85,
        0xef => b == 0xb8 || b == 0xbb || b >= 0xbe,
        0xf0 => b < 0x9e,
        0xf3 => b == 0xa0,
        _ => false,
    }
}

// Returns whether a dash or a quotation mark begins there, U+2010 to U+2027.
fn is_dash(a: u8, b: u8, rest: &[u8]) -> bool
    ensures { result ≡ is_dash a b rest.now }
{
    match rest {
        [] => false,
        [c, ..] => a == 0xe2 && b == 0x80 && 0x90 <= *c && *c <= 0xa7,
    }
}
