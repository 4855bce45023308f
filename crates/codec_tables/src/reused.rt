//! The requests that `caching_alloc` makes to the allocator below, and the blocks that it gives
//! back.
use crate::codecs::emitted;
use caching_alloc::Reusing;
use failing_alloc::Refusing;
use linked_list_allocator::LocalHeap;
use std::alloc::{AllocError, Allocator, Global};

/// Returns the number of requests that reach the allocator below, if blocks of these sizes are held
/// in turn.
pub fn in_turn(alloc: Global, below: &Refusing<Global>, sizes: &str) -> Result<String, AllocError> {
    let memory = Reusing::new(below);
    requests(alloc, below, hold_each(&memory, sizes))
}

/// Returns the number of those that reach it if this many blocks of one size, and the block of
/// their list, are held at once ten times.
pub fn at_once(alloc: Global, below: &Refusing<Global>, count: &str) -> Result<String, AllocError> {
    let memory = Reusing::new(below);
    requests(alloc, below, hold_rounds(&memory, count))
}

// Returns the requests, if there was memory for all that was to be held.
fn requests(alloc: Global, below: &Refusing<Global>, is_held: bool) -> Result<String, AllocError> {
    if is_held {
        emitted(alloc, below.requests())
    } else {
        Err(AllocError)
    }
}

/// Returns whether a list has the bytes that are appended to it, as often as this, and the first of
/// them once it is shortened.
pub fn lengthened(
    alloc: Global,
    below: &Refusing<Global>,
    times: &str,
) -> Result<String, AllocError> {
    let memory = Reusing::new(below);
    match is_lengthened(&memory, times) {
        Some(is_right) => emitted(alloc, is_right),
        None => Err(AllocError),
    }
}

/// Returns whether it passes a refusal on, and gives back at its end the blocks that it keeps.
pub fn is_right(alloc: Global) -> bool {
    is_passed_on(&Refusing::new(alloc)) && is_given_back(alloc)
}

// Holds blocks of these sizes in turn, and returns whether there was memory for all.
fn hold_each<A: Allocator + Copy>(alloc: A, sizes: &str) -> bool {
    let mut is_held = true;
    for bytes in sizes.split(' ') {
        is_held &= hold(alloc, bytes.parse::<usize>().unwrap_or(0));
    }
    is_held
}

// Holds a block of this many bytes for a moment, and returns whether there was memory for it.
fn hold<A: Allocator>(alloc: A, bytes: usize) -> bool {
    let mut held: Vec<u8, A> = Vec::new(alloc);
    held.reserve_exact(bytes).is_ok()
}

// Holds this many blocks of one size at once, eight at most, and returns whether there was memory
// for them, and each has the bytes that were put into it.
fn hold_at_once<A: Allocator + Copy>(alloc: A, count: u64) -> bool {
    let mut held = Vec::new(alloc);
    let mut is_held = held.reserve_exact(8).is_ok();
    for number in 0..count {
        is_held = is_held && push_block(alloc, &mut held, number);
    }
    is_held && are_numbers(&held)
}

// Does so ten times.
fn hold_rounds<A: Allocator + Copy>(alloc: A, count: &str) -> bool {
    let count = count.parse::<u64>().unwrap_or(0);
    let mut is_held = true;
    for _round in 0..10u8 {
        is_held &= hold_at_once(alloc, count);
    }
    is_held
}

// Holds one more block, of this number.
fn push_block<A: Allocator + Copy>(alloc: A, held: &mut Vec<Box<u64, A>, A>, number: u64) -> bool {
    match Box::new(alloc, number) {
        Ok(block) => held.push(block).is_ok(),
        Err(_) => false,
    }
}

// Returns whether these are the numbers from 0 on.
fn are_numbers<A: Allocator>(held: &[Box<u64, A>]) -> bool {
    let mut expected = 0u64;
    let mut is_right = true;
    for number in held {
        is_right &= **number == expected;
        expected = expected.wrapping_add(1);
    }
    is_right
}

// Appends the bytes below 250 again and again, this many times, and returns whether there was
// memory for them.
fn repeat<A: Allocator>(bytes: &mut Vec<u8, A>, times: u8) -> bool {
    let mut is_there = true;
    for _time in 0..times {
        for byte in 0..250u8 {
            is_there &= bytes.push(byte).is_ok();
        }
    }
    is_there
}

fn is_repeated(bytes: &[u8]) -> bool {
    let mut expected = 0u8;
    let mut is_right = true;
    for byte in bytes {
        is_right &= *byte == expected;
        expected = if expected == 249 {
            0
        } else {
            expected.wrapping_add(1)
        };
    }
    is_right
}

// Returns whether a list has these bytes if it is shortened to this length.
fn is_kept<A: Allocator>(bytes: &mut Vec<u8, A>, len: usize) -> bool {
    bytes.truncate(len);
    bytes.shrink_to_fit();
    is_repeated(bytes) && bytes.len() == len
}

// Does the same for a list that grows to so many times 250 bytes; none if memory was refused.
fn is_lengthened<A: Allocator>(alloc: A, times: &str) -> Option<bool> {
    let mut bytes = Vec::new(alloc);
    if !repeat(&mut bytes, times.parse::<u8>().unwrap_or(0)) {
        return None;
    }
    Some(is_repeated(&bytes) && is_kept(&mut bytes, 3000) && is_kept(&mut bytes, 700))
}

// Returns whether a refusal of a new block is passed on, and a kept block asks for none.
fn is_passed_on(below: &Refusing<Global>) -> bool {
    let memory = Reusing::new(below);
    is_passed_on_by(&memory, below)
}

fn is_passed_on_by<A: Allocator + Copy>(alloc: A, below: &Refusing<Global>) -> bool {
    let is_held = hold(alloc, 8);
    below.refuse_at(1);
    let is_refused = !hold_at_once(alloc, 3) && below.has_refused();
    below.refuse_at(1);
    is_held && is_refused && hold(alloc, 8) && below.requests() == 0
}

// Returns whether a list and five blocks are held at once: one more than are kept of a size.
fn is_list_held<A: Allocator + Copy>(alloc: A) -> bool {
    let mut bytes = Vec::new(alloc);
    hold_at_once(alloc, 5) && repeat(&mut bytes, 5) && is_repeated(&bytes)
}

// Returns whether a block that was asked for is kept as long as the memory is there.
fn is_kept_below(below: &LocalHeap) -> bool {
    let memory = Reusing::new(below);
    is_list_held(&memory) && below.used() > 0
}

// Returns whether it goes back at the end.
fn is_given_back(alloc: Global) -> bool {
    match &LocalHeap::new(alloc, 1 << 14) {
        Ok(below) => is_kept_below(below) && below.used() == 0,
        Err(_) => false,
    }
}
