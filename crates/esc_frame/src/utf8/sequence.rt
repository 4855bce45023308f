//! This module reads sequences of UTF-8 that have begun.
#![tactic(auto)]

ghost use Rattle.std.specs.Prelude.{◌≡◌, ◌++◌, ℕ, List, [], ◌∷◌, ◌-◌, ◌*◌, ◌+◌, ◌≤◌, if◌then◌else◌, true, OnOk, OnErr, ◌<◌, false, length};
ghost use Rattle.esc_frame.specs.Sequences.{is_from, is_second, is_sequence, is_prefix, is_pair, outcome, number_of};
ghost use Rattle.esc_frame.specs.Machine.Characters.{IsAhead, IsCharacter, NoneAhead};
ghost use Rattle.esc_frame.specs.Machine.Prefixes.{prefix_of};

use crate::unfinished::store::TextRoom;
use std::alloc::AllocError;

/// The value has the bytes of a sequence that has begun.
#[derive(Clone, Copy)]
pub enum Pending {
    Nothing,
    One(u8),
    Two(u8, u8),
    Three(u8, u8, u8),
}

/// An outcome is what the next byte makes of a begun sequence.
#[derive(Clone, Copy)]
pub enum Outcome {
    Whole,
    More,
    Broken,
}

#[inline(always)]
pub fn lies_from(low: u8, high: u8, a: u8) -> bool
    ensures { result ≡ is_from low high a }
{
    low <= a && a <= high
}

#[inline(always)]
fn is_second_byte(a: u8, b: u8) -> bool
    ensures { result ≡ is_second a b }
{
    if a == 0xe0 {
        lies_from(0xa0, 0xbf, b)
    } else if a == 0xed {
        lies_from(0x80, 0x9f, b)
    } else if a == 0xf0 {
        lies_from(0x90, 0xbf, b)
    } else if a == 0xf4 {
        lies_from(0x80, 0x8f, b)
    } else {
        lies_from(0x80, 0xbf, b)
    }
}

fn chosen(whole: bool, more: bool) -> Outcome
    ensures { result ≡
        (if whole then Outcome.Whole else if more then Outcome.More else Outcome.Broken) }
{
    if whole {
        Outcome::Whole
    } else if more {
        Outcome::More
    } else {
        Outcome::Broken
    }
}

impl Pending {
    /// Returns what the byte makes of the prefix.
    #[tactic(auto, unfolding(crate::specs::Sequences::is_sequence, crate::specs::Sequences::is_prefix))]
    pub fn outcome(self, b: u8) -> Outcome
        ensures { result ≡ outcome (prefix_of self) b }
    {
        match self {
            Pending::Nothing => chosen(false, lies_from(0xc2, 0xf4, b)),
            Pending::One(a) => chosen(
                lies_from(0xc2, 0xdf, a) && lies_from(0x80, 0xbf, b),
                lies_from(0xe0, 0xf4, a) && is_second_byte(a, b),
            ),
            Pending::Two(a, second) => chosen(
                lies_from(0xe0, 0xef, a) && is_second_byte(a, second) && lies_from(0x80, 0xbf, b),
                lies_from(0xf0, 0xf4, a) && is_second_byte(a, second) && lies_from(0x80, 0xbf, b),
            ),
            Pending::Three(a, second, third) => chosen(
                lies_from(0xf0, 0xf4, a)
                    && is_second_byte(a, second)
                    && lies_from(0x80, 0xbf, third)
                    && lies_from(0x80, 0xbf, b),
                false,
            ),
        }
    }

    /// Returns the prefix with the byte.
    #[tactic(auto, unfolding(crate::specs::Sequences::is_prefix))]
    pub fn with(self, b: u8) -> Pending
        ensures { is_prefix (prefix_of self ++ b ∷ []) ≡ true
            → prefix_of result ≡ prefix_of self ++ b ∷ [] }
    {
        match self {
            Pending::Nothing => Pending::One(b),
            Pending::One(a) => Pending::Two(a, b),
            Pending::Two(a, second) => Pending::Three(a, second, b),
            Pending::Three(_, _, _) => self,
        }
    }

    /// Returns whether prefix and byte are C2 80 to C2 9F.
    #[tactic(auto, unfolding(crate::specs::Sequences::is_pair))]
    pub fn pairs_with(self, b: u8) -> bool
        ensures { result ≡ is_pair (prefix_of self ++ b ∷ []) }
    {
        match self {
            Pending::One(a) => a == 0xc2 && lies_from(0x80, 0x9f, b),
            Pending::Nothing | Pending::Two(_, _) | Pending::Three(_, _, _) => false,
        }
    }

    /// Returns the character of prefix and byte.
    #[tactic(auto, unfolding(crate::specs::Sequences::is_sequence, crate::specs::Sequences::number_of))]
    pub fn character(self, b: u8) -> char
        requires { is_sequence (prefix_of self ++ b ∷ []) ≡ true }
        ensures { result ≡ number_of (prefix_of self ++ b ∷ []) }
    {
        match self {
            Pending::Nothing => '\u{fffd}',
            Pending::One(a) => two(a, b),
            Pending::Two(a, second) => three(a, second, b),
            Pending::Three(a, second, third) => four(a, second, third, b),
        }
    }

    /// Appends prefix and byte to the text. The error is that of the store.
    pub fn put<K: TextRoom>(
        self,
        limit: Option<usize>,
        text: &mut K,
        b: u8,
    ) -> Result<(), AllocError>
        ensures ok { (t : List ℕ) → K.keeps limit text.old t
            → OnOk result (K.keeps limit text.new (t ++ (prefix_of self ++ b ∷ []))) }
        ensures refused { OnErr result (K.may_fail limit) }
    {
        match self {
            Pending::Nothing => text.push(limit, &[b]),
            Pending::One(a) => text.push(limit, &[a, b]),
            Pending::Two(a, second) => text.push(limit, &[a, second, b]),
            Pending::Three(a, second, third) => text.push(limit, &[a, second, third, b]),
        }
    }
}

#[tactic(auto, unfolding(crate::specs::Sequences::is_sequence))]
#[inline(always)]
fn two(a: u8, b: u8) -> char
    requires { is_sequence (a ∷ b ∷ []) ≡ true }
    ensures { result ≡ (a - 0xc0) * 64 + (b - 0x80) }
{
    match char::from_u32((a as u32 - 0xc0) * 64 + (b as u32 - 0x80)) {
        Some(c) => c,
        None => unreachable!(),
    }
}

#[tactic(auto, unfolding(crate::specs::Sequences::is_sequence))]
#[inline(always)]
fn three(a: u8, b: u8, c: u8) -> char
    requires { is_sequence (a ∷ b ∷ c ∷ []) ≡ true }
    ensures { result ≡ (a - 0xe0) * 4096 + (b - 0x80) * 64 + (c - 0x80) }
{
    match char::from_u32((a as u32 - 0xe0) * 4096 + (b as u32 - 0x80) * 64 + (c as u32 - 0x80)) {
        Some(c) => c,
        None => unreachable!(),
    }
}

#[tactic(auto, unfolding(crate::specs::Sequences::is_sequence))]
#[inline(always)]
fn four(a: u8, b: u8, c: u8, d: u8) -> char
    requires { is_sequence (a ∷ b ∷ c ∷ d ∷ []) ≡ true }
    ensures { result ≡ (a - 0xf0) * 262144 + (b - 0x80) * 4096 + (c - 0x80) * 64 + (d - 0x80) }
{
    match char::from_u32(
        (a as u32 - 0xf0) * 262144
            + (b as u32 - 0x80) * 4096
            + (c as u32 - 0x80) * 64
            + (d as u32 - 0x80),
    ) {
        Some(c) => c,
        None => unreachable!(),
    }
}

/// Returns the length and the character of the whole sequence, no control, that comes first; length
/// 0 if none does.
#[inline(always)]
pub fn ahead(rest: &[u8]) -> (usize, char)
    ensures ahead { IsAhead rest.now result.0 result.1 }
    ensures none { 4 ≤ length rest.now → result.0 ≡ 0 → NoneAhead rest.now }
{
    if rest.len() < 4 {
        (0, '\u{fffd}')
    } else if rest[0] < 0xe0 {
        of_two(rest[0], rest[1])
    } else if rest[0] < 0xf0 {
        of_three(rest[0], rest[1], rest[2])
    } else {
        of_four(rest[0], rest[1], rest[2], rest[3])
    }
}

/// Returns the same of fewer than four bytes, apart from the fast code for more.
#[inline(never)]
pub fn ahead_of_few(rest: &[u8]) -> (usize, char)
    requires { length rest.now < 4 }
    ensures ahead { IsAhead rest.now result.0 result.1 }
    ensures none { result.0 ≡ 0 → NoneAhead rest.now }
{
    if rest.len() < 2 {
        (0, '\u{fffd}')
    } else if rest[0] < 0xe0 {
        of_two(rest[0], rest[1])
    } else if rest.len() < 3 {
        (0, '\u{fffd}')
    } else {
        of_three(rest[0], rest[1], rest[2])
    }
}

#[tactic(auto, unfolding(crate::specs::Sequences::is_sequence, crate::specs::Sequences::is_pair, crate::specs::Sequences::number_of))]
#[inline(always)]
pub fn of_two(a: u8, b: u8) -> (usize, char)
    ensures whole { 0 < result.0 → (result.0 ≡ 2) × IsCharacter (a ∷ b ∷ []) result.1 }
    ensures none { result.0 ≡ 0 → is_sequence (a ∷ b ∷ []) ≡ true → is_pair (a ∷ b ∷ []) ≡ true }
{
    if lies_from(0xc2, 0xdf, a) && lies_from(0x80, 0xbf, b) {
        let c = two(a, b);
        if c as u32 >= 0xa0 {
            (2, c)
        } else {
            (0, '\u{fffd}')
        }
    } else {
        (0, '\u{fffd}')
    }
}

#[tactic(auto, unfolding(crate::specs::Sequences::is_sequence, crate::specs::Sequences::is_pair, crate::specs::Sequences::number_of))]
#[inline(always)]
pub fn of_three(a: u8, b: u8, c: u8) -> (usize, char)
    ensures whole { 0 < result.0 → (result.0 ≡ 3) × IsCharacter (a ∷ b ∷ c ∷ []) result.1 }
    ensures none { result.0 ≡ 0 → is_sequence (a ∷ b ∷ c ∷ []) ≡ false }
{
    if lies_from(0xe0, 0xef, a) && lies_from(0x80, 0xbf, b) && lies_from(0x80, 0xbf, c) {
        let n = (a as u32 - 0xe0) * 4096 + (b as u32 - 0x80) * 64 + (c as u32 - 0x80);
        if n < 0x800 {
            return (0, '\u{fffd}');
        }
        if 0xd800 <= n && n <= 0xdfff {
            return (0, '\u{fffd}');
        }
        (3, unsafe { char::from_u32_unchecked(n) })
    } else {
        (0, '\u{fffd}')
    }
}

#[tactic(auto, unfolding(crate::specs::Sequences::is_sequence, crate::specs::Sequences::is_pair, crate::specs::Sequences::number_of))]
#[inline(always)]
pub fn of_four(a: u8, b: u8, c: u8, d: u8) -> (usize, char)
    ensures whole { 0 < result.0 → (result.0 ≡ 4) × IsCharacter (a ∷ b ∷ c ∷ d ∷ []) result.1 }
    ensures none { result.0 ≡ 0 → is_sequence (a ∷ b ∷ c ∷ d ∷ []) ≡ false }
{
    if lies_from(0xf0, 0xf4, a)
        && is_second_byte(a, b)
        && lies_from(0x80, 0xbf, c)
        && lies_from(0x80, 0xbf, d)
    {
        (4, four(a, b, c, d))
    } else {
        (0, '\u{fffd}')
    }
}
