//! The byte that one byte becomes.
ghost use Rattle.std.specs.Prelude.{◌≡◌, ◌++◌, ◌∷◌, ℕ, List, []};
ghost use Rattle.esc_frame.specs.Machine.Prefixes.{prefix_of};
ghost use Rattle.esc_frame.specs.Sequences.{is_prefix, outcome};
ghost use Rattle.esc_decode.specs.Masks.{HasConsumed, first_begun, lone_mask, masked_bytes, masked_byte, next_begun};

use crate::runs::mask_all;
use esc_frame::utf8::sequence::{Outcome, Pending, lies_from};

/// Replaces the controls of C1 in a stream of UTF-8 that are single bytes, byte after byte: each
/// byte 80 to 9F that is no part of a well-formed character is FF.
#[derive(Clone, Copy)]
pub struct Mask {
    // the begun bytes of a character
    begun: Pending,
}

impl Mask {
    /// At the beginning of a stream.
    pub fn new() -> Mask
        ensures { HasConsumed [] result }
    {
        Mask {
            begun: Pending::Nothing,
        }
    }

    /// The byte that the next byte becomes.
    pub fn take(&mut self, byte: u8) -> u8
        ensures fed { (s : List ℕ) → HasConsumed s self.old
            → HasConsumed (s ++ byte ∷ []) self.new }
        ensures masked { (s : List ℕ) → HasConsumed s self.old
            → masked_bytes (s ++ byte ∷ []) ≡ masked_bytes s ++ result ∷ [] }
    {
        let (begun, becomes) = step(self.begun, byte);
        self.begun = begun;
        becomes
    }

    /// Makes the next bytes those that they become. It looks at most bytes of text in UTF-8 many at
    /// once.
    pub fn take_all(&mut self, bytes: &mut [u8])
        ensures fed { (s : List ℕ) → HasConsumed s self.old
            → HasConsumed (s ++ bytes.old) self.new }
        ensures masked { (s : List ℕ) → HasConsumed s self.old
            → masked_bytes (s ++ bytes.old) ≡ masked_bytes s ++ bytes.new }
    {
        self.begun = mask_all(self.begun, bytes);
    }
}

/// A byte after the begun bytes: the begun bytes then, and the byte that it becomes.
#[inline(always)]
pub(crate) fn step(begun: Pending, byte: u8) -> (Pending, u8)
    ensures begun { prefix_of result.0
        ≡ next_begun (prefix_of begun) byte (outcome (prefix_of begun) byte) }
    ensures becomes { result.1 ≡ masked_byte byte (outcome (prefix_of begun) byte) }
{
    match begun.outcome(byte) {
        Outcome::Whole => (Pending::Nothing, byte),
        Outcome::More => (begun.with(byte), byte),
        Outcome::Broken => (first(byte), lone(byte)),
    }
}

// The begun bytes after a byte that goes on nothing.
#[tactic(auto, unfolding(esc_frame::specs::Sequences::is_prefix))]
#[inline(always)]
fn first(byte: u8) -> Pending
    ensures { prefix_of result ≡ first_begun byte }
{
    if lies_from(0xc2, 0xf4, byte) {
        Pending::One(byte)
    } else {
        Pending::Nothing
    }
}

// The byte that such a byte becomes.
#[inline(always)]
fn lone(byte: u8) -> u8
    ensures { result ≡ lone_mask byte }
{
    if lies_from(0x80, 0x9f, byte) {
        0xff
    } else {
        byte
    }
}
