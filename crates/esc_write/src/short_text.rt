//! A short text of ASCII, gathered before it is appended to a longer one.
ghost use Rattle.std.specs.Prelude.{◌≡◌, ◌+◌, ◌<◌, ◌≤◌, ◌++◌, ◌∷◌, [], length};
ghost use Rattle.std.specs.Str.{IsAscii};

use std::marker::Model;
use std::str;

/// Says how many bytes it holds at most.
pub(crate) const ROOM: usize = 128;

/// The text has at most [`ROOM`] bytes of ASCII. It takes no memory. Contracts see the bytes.
#[derive(Drop)]
pub(crate) struct ShortText {
    bytes: [u8; ROOM],
    count: usize,
}

impl Model for ShortText {
    ghost use Rattle.std.specs.Prelude.{ℕ, List, take, ◌≤◌};
    ghost use Rattle.std.specs.Str.{IsAscii};

    ghost Value = { List ℕ };

    ghost view = { λ t. take t.count t.bytes };

    ghost invariant = { λ t. (t.count ≤ 128) × IsAscii t.bytes };
}

impl ShortText {
    // Returns an empty text.
    #[inline]
    pub(crate) fn new() -> ShortText
        ensures { result ≡ [] }
    {
        ShortText {
            bytes: [0; ROOM],
            count: 0,
        }
    }

    // Drops all bytes.
    #[inline]
    pub(crate) fn clear(&mut self)
        ensures { self.new ≡ [] }
    {
        self.count = 0;
    }

    // Returns how many bytes it has.
    #[inline(always)]
    pub(crate) fn len(&self) -> usize
        ensures len { result ≡ length self.now }
        ensures few { result ≤ 128 }
    {
        self.count
    }

    // Appends a byte.
    #[inline(always)]
    pub(crate) fn push(&mut self, byte: u8)
        requires ascii { byte < 128 }
        requires room { length self.old < 128 }
        ensures { self.new ≡ self.old ++ byte ∷ [] }
    {
        self.bytes[self.count] = byte;
        self.count += 1;
    }

    // Appends eight bytes.
    #[inline(always)]
    pub(crate) fn push_eight(&mut self, bytes: [u8; 8])
        requires ascii { IsAscii bytes }
        requires room { length self.old ≤ 120 }
        ensures { self.new ≡ self.old ++ bytes }
    {
        self.bytes[self.count..self.count + 8].copy_from_slice(&bytes);
        self.count += 8;
    }

    // Returns the bytes, as a text.
    #[inline]
    pub(crate) fn as_str(&self) -> &str
        ensures text { result.now ≡ self.now }
        ensures ascii { IsAscii self.now }
    {
        unsafe { str::from_utf8_unchecked(&self.bytes[..self.count]) }
    }
}
