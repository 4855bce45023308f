//! The names that the data of a termcap query asks for, as counts.

/// Says how many names a query has, for its caller, and how much room they need.
#[repr(C)]
#[derive(Clone, Copy)]
pub struct QueryValue {
    /// Says how many names it asks for, at least one.
    pub name_count: usize,
    /// Says how many bytes these have together.
    pub text_length: usize,
}
