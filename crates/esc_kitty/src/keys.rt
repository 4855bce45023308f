//! This module defines the keys of an image with their values.
ghost use Rattle.std.specs.Prelude.{◌≡◌, ◌==◌, nat_eq, [], ◌∷◌, IfOk, OnErr, map};
ghost use Rattle.std.specs.Cmp.Lexicographic.{pointwise};
ghost use Rattle.std.specs.List.{slice_split};
ghost use Rattle.std.specs.Option.{option_map};
ghost use Rattle.esc_values.specs.Cuts.{pairs_in};
ghost use Rattle.fallible_alloc.specs.Refusals.{Refused};
ghost use Rattle.esc_kitty.specs.Keys.{keys_of, not_zero, number, pairs, signed_number, values};
ghost use Rattle.esc_kitty.specs.Words.{flag_of};

use esc_values::cut::key_and_value;
use esc_values::scalar::{read_i32, read_u32};
use std::alloc::{AllocError, Allocator};

// A pair is a key with its value.
#[derive(Clone, Copy)]
pub(crate) struct Pair<'a> {
    pub(crate) key: &'a str,
    pub(crate) value: &'a str,
}

impl Pair<'_> {
    // Returns whether the key is this letter.
    fn is_at(&self, letter: u8) -> bool
        ensures { result ≡ pointwise nat_eq self.now.key.now (letter ∷ []) }
    {
        matches!(self.key.as_bytes(), [it] if *it == letter)
    }
}

// Reads the keys of a text with their values, between `,`; none if one is no key and value.
pub(crate) fn read_keys<A: Allocator + Copy>(
    alloc: A,
    text: &[u8],
) -> Result<Option<Vec<Pair<'_>, A>>, AllocError>
    ensures ok { IfOk result (λ o. option_map (λ v. pairs v.items) o ≡ keys_of text.now) }
    ensures refused { OnErr result (Refused A) }
{
    let slices = split_at_commas(alloc, text)?;
    read_slices(alloc, slices.as_slice())
}

// Returns the slices of a text between `,`.
fn split_at_commas<A: Allocator>(alloc: A, text: &[u8]) -> Result<Vec<&[u8], A>, AllocError>
    ensures ok { IfOk result (λ v.
        map (λ p. p.now) v.items ≡ slice_split (λ c. c == 0x2c) text.now) }
    ensures refused { OnErr result (Refused A) }
{
    fallible_alloc::collect(alloc, text.split(|c| *c == b','))
}

// Reads the slices as keys and values; none if one is none.
fn read_slices<'a, A: Allocator>(
    alloc: A,
    slices: &[&'a [u8]],
) -> Result<Option<Vec<Pair<'a>, A>>, AllocError>
    ensures ok { IfOk result (λ o. option_map (λ v. pairs v.items) o
        ≡ pairs_in (map (λ p. p.now) slices.now)) }
    ensures refused { OnErr result (Refused A) }
{
    let mut pairs = Vec::new(alloc);
    for slice in slices {
        let Some((key, value)) = key_and_value(slice) else {
            return Ok(None);
        };
        fallible_alloc::push(&mut pairs, Pair { key, value })?;
    }
    Ok(Some(pairs))
}

// Returns the last value of a key, if the key is there.
pub(crate) fn value<'a>(pairs: &[Pair<'a>], key: u8) -> Option<&'a str>
    ensures { option_map (λ v. v.now) result ≡ values pairs.now (key ∷ []) }
{
    let mut found = None;
    for pair in pairs {
        if pair.is_at(key) {
            found = Some(pair.value);
        }
    }
    found
}

// Returns the number of a key, if there is one that can be read.
pub(crate) fn number(pairs: &[Pair<'_>], key: u8) -> Option<u32>
    ensures { result ≡ number (values pairs.now) (key ∷ []) }
{
    match value(pairs, key) {
        Some(digits) => read_u32(digits.as_bytes()),
        None => None,
    }
}

// Returns the signed number of a key, if there is one that can be read.
pub(crate) fn signed(pairs: &[Pair<'_>], key: u8) -> Option<i32>
    ensures { result ≡ signed_number (values pairs.now) (key ∷ []) }
{
    match value(pairs, key) {
        Some(digits) => read_i32(digits.as_bytes()),
        None => None,
    }
}

// Returns the number of a key, if there is one that can be read, and it is not 0.
pub(crate) fn nonzero(pairs: &[Pair<'_>], key: u8) -> Option<u32>
    ensures { result ≡ not_zero (number (values pairs.now) (key ∷ [])) }
{
    match number(pairs, key) {
        Some(0) => None,
        other => other,
    }
}

// Returns the flag of a key, if it is one. An absent key is false.
pub(crate) fn flag(pairs: &[Pair<'_>], key: u8) -> Option<bool>
    ensures { result ≡ flag_of (values pairs.now (key ∷ [])) }
{
    let Some(word) = value(pairs, key) else {
        return Some(false);
    };
    match word {
        "0" => Some(false),
        "1" => Some(true),
        _ => None,
    }
}
