//! Requests for memory that are refused, each in turn.
use crate::calls::answer;
use failing_alloc::Refusing;
use std::alloc::{AllocError, Global};

// More requests than any row makes.
const MOST_REQUESTS: u64 = 1000;

// A call of a longer input is refused none.
const REFUSED_UP_TO: usize = 2000;

/// Returns the number of requests of a call that end in an error of memory, if the first is
/// refused, then the second, and so on, until none meets the refusal. None if the call returns
/// anything but the wanted result and such an error, or too many requests are made.
pub fn errors_of(alloc: Global, call: &str, input: &[u8], wanted: &[u8]) -> Option<usize> {
    let heap = Refusing::new(alloc);
    let mut errors = 0usize;
    for at in 0..MOST_REQUESTS {
        heap.refuse_at(at);
        let found = judged(answer(call, alloc, &heap, input), wanted);
        let has_refused = heap.has_refused();
        if found == Found::Refused && has_refused {
            errors = errors.saturating_add(1);
        } else if found != Found::Wanted {
            return None;
        }
        if at > 0 && !has_refused || input.len() > REFUSED_UP_TO {
            return Some(errors);
        }
    }
    None
}

// The result of a call.
#[derive(Clone, Copy, PartialEq, Eq)]
enum Found {
    Wanted,
    Refused,
    Other,
}

fn judged(answer: Result<String, AllocError>, wanted: &[u8]) -> Found {
    match &answer {
        Ok(text) => judged_text(text.as_str(), wanted),
        Err(_) => Found::Refused,
    }
}

fn judged_text(text: &str, wanted: &[u8]) -> Found {
    if text.as_bytes() == wanted {
        return Found::Wanted;
    }
    match text {
        "Err(AllocError)" | "Err(Memory(AllocError))" => Found::Refused,
        _ => Found::Other,
    }
}
