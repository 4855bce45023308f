//! Blocks of ASCII.
ghost use Rattle.std.specs.Prelude.{◌≡◌, ◌≤◌, IsTrue, length, take};
ghost use Rattle.std.specs.Str.{IsAscii};

use std::simd::prelude::*;

// How many bytes are looked at before the next branch.
const BLOCK: usize = 256;

/// The length of the blocks that come first and are ASCII. Most bytes are looked at 16 at once.
pub(crate) fn ascii_blocks(bytes: &[u8]) -> usize
    ensures few { result ≤ length bytes.now }
    ensures ascii { IsAscii (take result bytes.now) }
{
    let mut at = 0;
    while bytes.len() - at >= BLOCK {
        if !is_ascii_block(&bytes[at..at + BLOCK]) {
            return at;
        }
        at += BLOCK;
    }
    at
}

#[inline(always)]
fn is_ascii_block(block: &[u8]) -> bool
    requires { length block.now ≡ 256 }
    ensures { IsTrue result → IsAscii block.now }
{
    let first = either(u8x64::from_slice(block), u8x64::from_slice(&block[64..]));
    let second = either(
        u8x64::from_slice(&block[128..]),
        u8x64::from_slice(&block[192..]),
    );
    is_ascii(either(first, second))
}

// The bits of both, lane by lane.
#[inline(always)]
fn either(a: u8x64, b: u8x64) -> u8x64
    ensures { IsAscii result → IsAscii a × IsAscii b }
{
    a | b
}

#[inline(always)]
fn is_ascii(lanes: u8x64) -> bool
    ensures { IsTrue result → IsAscii lanes }
{
    lanes.simd_ge(u8x64::splat(0x80)).to_bitmask() == 0
}
