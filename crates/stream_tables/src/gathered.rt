//! The results of calls, one after another.
use escape_stream::ParseError;
use std::alloc::Allocator;

/// The items of the lists that calls return, and the first error.
#[derive(Drop)]
pub struct Gathered<T: Drop, A: Allocator> {
    items: Vec<T, A>,
    error: Option<ParseError>,
}

impl<T: Drop, A: Allocator> Gathered<T, A> {
    /// Returns an empty list.
    pub fn new(alloc: A) -> Gathered<T, A> {
        Gathered {
            items: Vec::new(alloc),
            error: None,
        }
    }

    /// Appends an item.
    pub fn push(&mut self, item: T) {
        if self.items.push(item).is_err() {
            self.fail(ParseError::Memory);
        }
    }

    /// Appends the items that a call returned.
    pub fn add(&mut self, added: Result<Vec<T, A>, ParseError>) {
        match added {
            Ok(added) => self.append(added),
            Err(error) => self.fail(error),
        }
    }

    /// Appends the items of a prefix. Returns its length, and 0 if there is none.
    pub fn add_prefix(&mut self, found: Result<Option<(Vec<T, A>, usize)>, ParseError>) -> usize {
        match found {
            Ok(Some((added, len))) => {
                self.append(added);
                len
            }
            Ok(None) => 0,
            Err(error) => {
                self.fail(error);
                0
            }
        }
    }

    /// Notes how a call ended.
    pub fn check(&mut self, ending: Result<(), ParseError>) {
        if let Err(error) = ending {
            self.fail(error);
        }
    }

    /// Returns all items, or the first error.
    pub fn ended(self) -> Result<Vec<T, A>, ParseError> {
        match self.error {
            None => Ok(self.items),
            Some(error) => Err(error),
        }
    }

    fn append(&mut self, added: Vec<T, A>) {
        for item in added {
            self.push(item);
        }
    }

    fn fail(&mut self, error: ParseError) {
        if self.error.is_none() {
            self.error = Some(error);
        }
    }
}

/// Returns whether two calls return the same items.
pub fn is_same<T: PartialEq + Drop, A: Allocator>(
    one: Result<Vec<T, A>, ParseError>,
    other: Result<Vec<T, A>, ParseError>,
) -> bool {
    match one {
        Ok(one) => is_list(&one, &other),
        Err(_) => false,
    }
}

fn is_list<T: PartialEq, A: Allocator>(one: &[T], other: &Result<Vec<T, A>, ParseError>) -> bool {
    match other {
        Ok(other) => other.as_slice() == one,
        Err(_) => false,
    }
}
