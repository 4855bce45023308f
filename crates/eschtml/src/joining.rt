//! Reverse video that ends and begins again at once, as one.
ghost use Rattle.std.specs.Prelude.{[], ◌∷◌, ◌≡◌, ◌++◌, ◌<◌, ◌≤◌, ℕ, List, if◌then◌else◌, IfOk, OnErr, OnOk, get_or, length, take};
ghost use Rattle.esc_decode.specs.Decodings.{OnlyAdds};
ghost use Rattle.eschtml.specs.Joined.{Joins, goes_on, bytes_past, held_after, joined_after, let_go, next_held, pair, through_joined};
ghost use Rattle.fallible_alloc.specs.Refusals.{Refused};

use esc_filter::StreamFilter;
use memchr::memchr;
use std::alloc::{AllocError, Allocator, Global};

/// Feeds a text to a filter without each `ESC [27m ESC [7m` in it: reverse video that ends and
/// begins again at once goes on, so that neighbours share one element.
///
/// It keeps the length of such a pair that came last, and the text that the last call made of its
/// bytes.
#[derive(Drop)]
pub struct Joining<F, A: Allocator = Global> {
    filter: F,
    // how many bytes of a pair came last
    held: usize,
    // the part of the last bytes that goes to the filter
    chunk: Vec<u8, A>,
}

impl<F: StreamFilter<A>, A: Allocator + Copy> Joining<F, A> {
    /// This filter, which was fed nothing. Takes no memory.
    pub fn new(alloc: A, filter: F) -> Joining<F, A>
        ensures filter { result.filter ≡ filter }
        ensures begins { (m c : List ℕ → List ℕ) → F.gives filter m c [] → OnlyAdds m c
            → Joins F.StreamFilter result.held result.filter (through_joined m) (through_joined c)
            [] }
    {
        Joining {
            filter,
            held: 0,
            chunk: Vec::new(alloc),
        }
    }
}

impl<F: StreamFilter<A>, A: Allocator + Copy> StreamFilter<A> for Joining<F, A> {
    ghost gives = { λ j m c s. Joins F.StreamFilter j.held j.filter m c s };

    ghost added = { λ j. F.added j.filter };

    ghost has_ended = { λ j _ _. (c : List ℕ → List ℕ) × (s : List ℕ)
        × F.has_ended j.filter c s };

    fn feed(&mut self, bytes: &[u8]) -> Result<(), AllocError> {
        let held = join(&mut self.chunk, self.held, bytes)?;
        self.held = held;
        self.filter.feed(&self.chunk)
    }

    fn finish(&mut self) -> Result<(), AllocError> {
        self.filter.finish()
    }

    fn output(&self) -> &str {
        self.filter.output()
    }
}

// The bytes that bytes add after those that are held back, as `chunk`; and the number held back
// then.
fn join<A: Allocator>(
    chunk: &mut Vec<u8, A>,
    held: usize,
    bytes: &[u8],
) -> Result<usize, AllocError>
    ensures ok { IfOk result (λ k. (chunk.new.items ≡ joined_after held bytes.now)
        × (k ≡ held_after held bytes.now)) }
    ensures refused { OnErr result (Refused A) }
{
    chunk.clear();
    push_joined(chunk, held, bytes)
}

// So many bytes that a pair begins with.
fn first_of_pair(count: usize) -> &'static [u8]
    ensures { result.now ≡ take count pair }
{
    let pair: &'static [u8] = b"\x1b[27m\x1b[7m";
    match pair.get(..count) {
        Some(first) => first,
        None => pair,
    }
}

// Appends the bytes that bytes add after those that are held back, and returns the number held back
// then.
fn push_joined<A: Allocator>(
    text: &mut Vec<u8, A>,
    held: usize,
    bytes: &[u8],
) -> Result<usize, AllocError>
    ensures ok { IfOk result (λ k.
        (text.new.items ≡ text.old.items ++ joined_after held bytes.now)
        × (k ≡ held_after held bytes.now)) }
    ensures refused { OnErr result (Refused A) }
{
    let mut last = held;
    let mut at = 0;
    while at < bytes.len() {
        let (next, n) = push_some(text, last, &bytes[at..])?;
        last = next;
        at += n;
    }
    Ok(last)
}

// The same for some of these bytes, at least one, and how many.
fn push_some<A: Allocator>(
    text: &mut Vec<u8, A>,
    held: usize,
    bytes: &[u8],
) -> Result<(usize, usize), AllocError>
    requires { 0 < length bytes.now }
    ensures count { IfOk result (λ x. (0 < x.1) × (x.1 ≤ length bytes.now)) }
    ensures ok { IfOk result (λ x.
        (text.new.items ≡ text.old.items ++ joined_after held (take x.1 bytes.now))
        × (x.0 ≡ held_after held (take x.1 bytes.now))) }
    ensures refused { OnErr result (Refused A) }
{
    match held {
        0 => push_plain(text, bytes),
        _ => push_first(text, held, bytes),
    }
}

// The same if nothing is held back.
fn push_plain<A: Allocator>(
    text: &mut Vec<u8, A>,
    bytes: &[u8],
) -> Result<(usize, usize), AllocError>
    requires { 0 < length bytes.now }
    ensures count { IfOk result (λ x. (0 < x.1) × (x.1 ≤ length bytes.now)) }
    ensures ok { IfOk result (λ x.
        (text.new.items ≡ text.old.items ++ joined_after 0 (take x.1 bytes.now))
        × (x.0 ≡ held_after 0 (take x.1 bytes.now))) }
    ensures refused { OnErr result (Refused A) }
{
    let run = run_of(bytes);
    if run == 0 {
        return push_first(text, 0, bytes);
    }
    fallible_alloc::extend(text, &bytes[..run])?;
    Ok((0, run))
}

// The same for the first byte.
fn push_first<A: Allocator>(
    text: &mut Vec<u8, A>,
    held: usize,
    bytes: &[u8],
) -> Result<(usize, usize), AllocError>
    requires { 0 < length bytes.now }
    ensures count { IfOk result (λ x. (0 < x.1) × (x.1 ≤ length bytes.now)) }
    ensures ok { IfOk result (λ x.
        (text.new.items ≡ text.old.items ++ joined_after held (take x.1 bytes.now))
        × (x.0 ≡ held_after held (take x.1 bytes.now))) }
    ensures refused { OnErr result (Refused A) }
{
    let next = push_one(text, held, bytes[0])?;
    Ok((next, 1))
}

// How many bytes come before a pair may begin.
fn run_of(bytes: &[u8]) -> usize
    ensures few { result ≤ length bytes.now }
    ensures stay { joined_after 0 (take result bytes.now) ≡ take result bytes.now }
    ensures held { held_after 0 (take result bytes.now) ≡ 0 }
{
    match memchr(0x1b, bytes) {
        Some(at) => at,
        None => bytes.len(),
    }
}

// The same for one byte.
fn push_one<A: Allocator>(text: &mut Vec<u8, A>, held: usize, byte: u8) -> Result<usize, AllocError>
    ensures ok { IfOk result (λ k. (text.new.items ≡ text.old.items ++ bytes_past held byte)
        × (k ≡ next_held held byte)) }
    ensures refused { OnErr result (Refused A) }
{
    let (next, count, goes) = step(held, byte);
    fallible_alloc::extend(text, first_of_pair(count))?;
    push_if(text, goes, byte)?;
    Ok(next)
}

// Appends the byte, if it goes on.
fn push_if<A: Allocator>(text: &mut Vec<u8, A>, goes: bool, byte: u8) -> Result<(), AllocError>
    ensures ok { OnOk result
        (text.new.items ≡ text.old.items ++ (if goes then byte ∷ [] else [])) }
    ensures refused { OnErr result (Refused A) }
{
    if goes {
        fallible_alloc::extend(text, &[byte])
    } else {
        Ok(())
    }
}

// The number of bytes that are held back after this one; the number of those held back before that
// go on, and whether it does.
fn step(held: usize, byte: u8) -> (usize, usize, bool)
    ensures held { result.0 ≡ next_held held byte }
    ensures goes { (result.1 ≡ let_go held byte) × (result.2 ≡ goes_on held byte) }
{
    if byte == at_in_pair(held) {
        let next = if held >= 8 { 0 } else { held + 1 };
        (next, 0, false)
    } else if held == 7 && byte == b'2' {
        (3, 5, false)
    } else if byte == 0x1b {
        (1, held, false)
    } else {
        (0, held, true)
    }
}

// The byte of a pair at this place.
fn at_in_pair(place: usize) -> u8
    ensures { result ≡ get_or pair place 0 }
{
    let pair: &'static [u8] = b"\x1b[27m\x1b[7m";
    match pair.get(place) {
        Some(byte) => *byte,
        None => 0,
    }
}
