//! Line feeds of a text.
use std::simd::prelude::*;

// How many bytes are looked at together.
const BLOCK: usize = 64;

/// The number of line feeds in these bytes.
pub fn line_feeds(bytes: &[u8]) -> u64 {
    let mut feeds = 0u64;
    let mut rest = bytes;
    while rest.len() >= BLOCK {
        let found = u8x64::from_slice(rest).simd_eq(u8x64::splat(b'\n'));
        feeds = feeds.saturating_add(u64::from(found.to_bitmask().count_ones()));
        rest = &rest[BLOCK..];
    }
    for byte in rest {
        feeds = feeds.saturating_add(u64::from(*byte == b'\n'));
    }
    feeds
}
