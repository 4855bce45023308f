//! Line feeds.
#![tactic(auto)]

ghost use Rattle.std.specs.Prelude.{◌≡◌, ◌≤◌, if◌then◌else◌, length};
ghost use Rattle.esc_filter.specs.Lines.{is_line_feed};
ghost use Rattle.esc_account.specs.Accounts.{feeds};

// How many bytes are counted at once: no more than one byte can count.
const BLOCK: usize = 192;

/// How many line feeds the bytes have.
pub(crate) fn feeds(bytes: &[u8]) -> u64
    ensures count { result ≡ feeds bytes.now }
    ensures few { result ≤ length bytes.now }
{
    let mut count: u64 = 0;
    let mut at = 0;
    while bytes.len() - at > BLOCK {
        let more = feeds_of_few(&bytes[at..at + BLOCK]);
        count += more as u64;
        at += BLOCK;
    }
    let last = feeds_of_few(&bytes[at..]);
    count + last as u64
}

// The same of few bytes. The count is a byte, so that many bytes are compared at once.
fn feeds_of_few(bytes: &[u8]) -> u8
    requires { length bytes.now ≤ 192 }
    ensures count { result ≡ feeds bytes.now }
    ensures few { (result ≤ length bytes.now) × (result ≤ 192) }
{
    let mut count: u8 = 0;
    for b in bytes {
        count += feed_of(*b);
    }
    count
}

// 1 where the byte is one.
#[inline(always)]
fn feed_of(byte: u8) -> u8
    ensures count { result ≡ (if is_line_feed byte then 1 else 0) }
    ensures few { result ≤ 1 }
{
    if byte == b'\n' { 1 } else { 0 }
}
