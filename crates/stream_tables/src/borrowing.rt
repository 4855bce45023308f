//! Borrowed actions.
ghost use Rattle.std.specs.Prelude.{◌⊎◌, MatchResult, OnOk, ⊤};
ghost use Rattle.escape_stream.specs.Borrowed.{HasClearText};

use crate::reading::Reading;
use crate::texts::shown;
use escape_stream::{
    Action, ActionRef, BorrowingSink, ParseError, Parser, parse_borrowed, parse_borrowed_into,
};
use failing_alloc::Refusing;
use std::alloc::{AllocError, Allocator, Global};
use std::fmt::Write;

// The number of requests that are refused, one in each run. No row of a table asks for more.
const REQUESTS: u64 = 24;

// Returns whether these are the Debug texts of the borrowed actions of a stream.
fn is_shown(alloc: Global, bytes: &[u8], wanted: &str) -> bool {
    let mut shown = String::new(alloc);
    let mut is_written = true;
    let ending = parse_borrowed(
        &mut Parser::new(alloc),
        bytes,
        |action|
            ensures { ⊤ }
        {
            let space = if shown.is_empty() { "" } else { " " };
            is_written &= write!(shown, "{space}{action:?}").is_ok();
        },
    );
    ending.is_ok() & is_written & (shown.as_str() == wanted)
}

// Appends the actions that it is given to a list.
#[derive(Drop)]
struct Appending<A: Allocator> {
    alloc: A,
    actions: Vec<Action<A>, A>,
}

impl<A: Allocator + Copy> BorrowingSink<Action<A>> for Appending<A> {
    ghost is_ready = { λ _. ⊤ };

    ghost may = { λ _ _. ⊤ };

    ghost takes = { λ _ _ _. ⊤ };

    ghost refuses = { λ _ _ _. ⊤ };

    fn receive(&mut self, action: ActionRef<'_, Action<A>>) -> Result<(), AllocError>
        requires ready { ⊤ ⊎ ⊤ }
        requires text { HasClearText action }
        ensures ready { ⊤ → OnOk result ⊤ }
        ensures given { MatchResult result (λ _. ⊤) (λ _. ⊤) }
    {
        action.append_to(self.alloc, &mut self.actions)
    }
}

// Returns that of the actions of a stream, appended from their borrowed place, and whether the call
// succeeded.
fn appended<A: Allocator + Copy>(
    alloc: Global,
    heap: A,
    bytes: &[u8],
) -> (Result<String, AllocError>, bool) {
    let sink = Appending {
        alloc: heap,
        actions: Vec::new(heap),
    };
    let (result, sink) = parse_borrowed_into(&mut Parser::new(heap), bytes, sink);
    (
        shown(alloc, Ok::<_, ParseError>(sink.actions)),
        result.is_ok(),
    )
}

// Returns whether the text of a list is this one, or, if it may end early, that of the first of its
// items.
fn is_list(text: &str, whole: &str, ends_early: bool) -> bool {
    match text.strip_suffix("])") {
        Some(items) if ends_early => whole.starts_with(items),
        _ => text == whole,
    }
}

// Returns whether the actions of a stream, appended from their borrowed place, are those of this
// text; or, if a request was refused, and the call failed for it, the first of them.
fn are_appended(alloc: Global, heap: &Refusing<Global>, bytes: &[u8], meant: &str) -> bool {
    match &appended(alloc, heap, bytes) {
        (Ok(text), is_whole) if *is_whole != heap.has_refused() => {
            is_list(text.as_str(), meant, heap.has_refused())
        }
        _ => false,
    }
}

// Does the same with each request for memory refused in turn.
fn are_always_appended(alloc: Global, bytes: &[u8], meant: &str) -> bool {
    let heap = Refusing::new(alloc);
    let mut is_right = true;
    for at in 1..=REQUESTS {
        heap.refuse_at(at);
        is_right = is_right && are_appended(alloc, &heap, bytes, meant);
    }
    is_right && !heap.has_refused()
}

/// Returns whether a stream has borrowed actions of these texts, which are its actions once they
/// are appended.
pub fn are_borrowed(alloc: Global, bytes: &[u8], wanted: &str) -> bool {
    match shown(alloc, Reading::Whole.read(alloc, bytes)) {
        Ok(meant) => {
            is_shown(alloc, bytes, wanted) & are_always_appended(alloc, bytes, meant.as_str())
        }
        Err(_) => false,
    }
}
