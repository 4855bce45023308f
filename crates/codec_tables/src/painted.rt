//! Calls of painted screens.

use crate::paintings::{is_led, is_painted, lead, lead_from_smaller, painting};
use crate::seen::Seen;
use esc_terminal::Terminal;
use failing_alloc::Refusing;
use std::alloc::{AllocError, Global};

/// Returns the result of a call with this stream, or with two that FF parts.
pub fn painted(
    call: &str,
    alloc: Global,
    heap: &Refusing<Global>,
    input: &[u8],
) -> Result<String, AllocError> {
    by::<&Refusing<Global>, Terminal<&Refusing<Global>>>(call, alloc, heap, input)
}

fn by<H: Copy, T: Seen<H>>(
    call: &str,
    alloc: Global,
    heap: H,
    input: &[u8],
) -> Result<String, AllocError> {
    let (from, to) = two_of(input);
    match call {
        "painted" => painting::<H, T>(alloc, heap, input),
        "painted-back" => said(alloc, is_painted::<H, T>(alloc, heap, input)),
        "led" => lead::<H, T>(alloc, heap, from, to),
        "led-from-smaller" => lead_from_smaller::<H, T>(alloc, heap, input),
        _ => said(alloc, is_led::<H, T>(alloc, heap, from, to)),
    }
}

// Returns the bytes on either side of the first FF.
fn two_of(input: &[u8]) -> (&[u8], &[u8]) {
    for at in 0..input.len() {
        if input[at] == 0xff {
            return (&input[..at], &input[at + 1..]);
        }
    }
    (input, b"")
}

fn said(alloc: Global, is: Result<bool, AllocError>) -> Result<String, AllocError> {
    match is {
        Ok(is) => String::from_str(alloc, if is { "true" } else { "false" }),
        Err(error) => Err(error),
    }
}
