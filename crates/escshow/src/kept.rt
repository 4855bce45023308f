//! Values of any type that are kept. The proof of a function with a type parameter looks at no part
//! of the value, while each path that drops a terminal is dear.

/// Returns this value, unless there is an error.
pub fn unless<T: Drop, E>(done: Result<(), E>, value: T) -> Result<T, E> {
    match done {
        Ok(()) => Ok(value),
        Err(error) => Err(error),
    }
}

/// Keeps a value in the place of another, if there is one.
pub fn put<T: Drop>(place: &mut Option<T>, value: T) {
    *place = Some(value);
}
