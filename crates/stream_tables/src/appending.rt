//! Actions that are appended to a list.
use crate::texts::{is_text, shown};
use escape_stream::{Action, ControlCode};
use failing_alloc::Refusing;
use std::alloc::{AllocError, Allocator, Global};

// Letters, or BEL as a control, which are appended one after another; the Debug text of their list,
// and that of the list of one of them fewer.
static ROWS: [(&str, &str, &str); 6] = [
    ("a", "[Print('a')]", "[]"),
    ("aa", "[PrintString(\"aa\")]", "[Print('a')]"),
    ("aaaa", "[PrintString(\"aaaa\")]", "[PrintString(\"aaa\")]"),
    (
        "aaaaaaaaa",
        "[PrintString(\"aaaaaaaaa\")]",
        "[PrintString(\"aaaaaaaa\")]",
    ),
    (
        "aaaaaaaaaaaaaaaaa",
        "[PrintString(\"aaaaaaaaaaaaaaaaa\")]",
        "[PrintString(\"aaaaaaaaaaaaaaaa\")]",
    ),
    (
        "\u{7}\u{7}",
        "[Control(Bell), Control(Bell)]",
        "[Control(Bell)]",
    ),
];

// The number of requests that are refused, one in each run. None of the rows asks for more.
const REQUESTS: u64 = 12;

// Appends a letter or BEL, and returns whether memory was there for it.
fn append<A: Allocator + Copy>(list: &mut Vec<Action<A>, A>, c: char) -> bool {
    let action = if c == '\u{7}' {
        Action::Control(ControlCode::Bell)
    } else {
        Action::Print(c)
    };
    action.append_to(list).is_ok()
}

// Returns whether the letters give this list, or, if a request is refused, one of them comes back
// and the others give the shorter one.
fn is_list(alloc: Global, heap: &Refusing<Global>, row: &(&str, &str, &str)) -> bool {
    let (letters, whole, shorter) = *row;
    let (refused, text) = listed(alloc, heap, letters);
    let is_refused = heap.has_refused();
    let wanted = if is_refused { shorter } else { whole };
    (refused == usize::from(is_refused)) & is_text(&text, wanted)
}

// Appends the letters to a new list, and returns how many came back, and the list's Debug text.
fn listed<A: Allocator + Copy>(
    alloc: Global,
    heap: A,
    letters: &str,
) -> (usize, Result<String, AllocError>) {
    let mut list = Vec::new(heap);
    let refused = append_all(&mut list, letters);
    (refused, shown(alloc, list))
}

// Appends one after another, and returns how many came back.
fn append_all<A: Allocator + Copy>(list: &mut Vec<Action<A>, A>, letters: &str) -> usize {
    let mut refused = 0usize;
    for c in letters.chars() {
        refused = refused.saturating_add(usize::from(!append(list, c)));
    }
    refused
}

/// Returns whether an action is appended, or comes back: the growth of a string that is there is
/// refused too.
pub fn are_appended(alloc: Global) -> bool {
    let heap = Refusing::new(alloc);
    let mut is_right = true;
    for row in &ROWS {
        for at in 1..=REQUESTS {
            heap.refuse_at(at);
            is_right &= is_list(alloc, &heap, row);
        }
        is_right &= !heap.has_refused();
    }
    is_right
}
