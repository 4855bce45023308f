//! Values that are passed over.

/// Passes a value over. The proof of a function with a type parameter looks at no part of the
/// value, while that of a function that drops a value of many variants is dear.
#[inline(always)]
pub(crate) fn pass<T: Drop>(_value: T) {}
