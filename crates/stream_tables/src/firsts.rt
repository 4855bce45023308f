//! The first action of each call.
use escape_stream::{ParseError, Parser};
use std::alloc::Global;

/// Returns whether `parse_first` takes each time the bytes up to the next that gives actions, and
/// returns the first of them: the first that `parse_as_vec` returns for the same bytes.
pub fn finds_firsts(alloc: Global, stream: &[u8]) -> bool {
    let mut parser = Parser::new(alloc);
    let mut other = Parser::new(alloc);
    let mut rest = stream;
    let mut is_right = true;
    for _ in 0..=stream.len() {
        let first = parser.parse_first(rest);
        let (quiet, from) = rest.split_at(quiet_len(&first).min(rest.len()));
        let (last, after) = from.split_at(from.len().min(1));
        let none = other.parse_as_vec(quiet);
        is_right &= is_first(first, none, other.parse_as_vec(last));
        rest = after;
    }
    is_right && rest.is_empty()
}

// Returns the number of bytes before the one that gives the first item; if there is none, one more
// than there are.
fn quiet_len<T>(first: &Result<Option<(T, usize)>, ParseError>) -> usize {
    match first {
        Ok(Some((_, taken))) => taken.saturating_sub(1),
        _ => usize::MAX,
    }
}

// Returns whether this is the first item of those that the last byte gives, and the bytes before it
// give none.
fn is_first<T: PartialEq + Drop>(
    first: Result<Option<(T, usize)>, ParseError>,
    none: Result<Vec<T>, ParseError>,
    some: Result<Vec<T>, ParseError>,
) -> bool {
    let is_quiet = match none {
        Ok(none) => none.is_empty(),
        Err(_) => false,
    };
    match some {
        Ok(some) => is_quiet & begins(&some, &first),
        Err(_) => false,
    }
}

// Returns whether the items begin with the one that was found, and are none if none was.
fn begins<T: PartialEq>(items: &[T], first: &Result<Option<(T, usize)>, ParseError>) -> bool {
    match first {
        Ok(Some((first, _))) => match items.first() {
            Some(item) => item == first,
            None => false,
        },
        Ok(None) => items.is_empty(),
        Err(_) => false,
    }
}
