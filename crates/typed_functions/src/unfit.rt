//! Control sequences without a typed value.

/// Why a control sequence has no typed value.
#[derive(Clone, Copy, Debug, PartialEq, Eq)]
pub enum Unfit {
    /// No control function has its private prefix, intermediates and final byte.
    Unnamed,
    /// Its control function has a name, and no typed value.
    Untyped,
    /// Parameters were left out, since there were too many to keep.
    Truncated,
    /// Its parameters are not numbers with `;` between them.
    NoNumbers,
    /// It has more parameters than its control function takes.
    TooMany,
    /// A parameter is missing that has no default.
    TooFew,
    /// A number is too large, or is no choice of the list.
    OutOfRange,
}
