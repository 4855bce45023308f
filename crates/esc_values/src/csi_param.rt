//! The parameters of a control sequence.

/// One parameter of the body of a control sequence, between its introducer and its final byte
/// (ECMA-48, 5.4: parameter bytes 30 to 3F, then intermediate bytes 20 to 2F, hexadecimal).
#[derive(Clone, Copy, Debug, PartialEq, Eq)]
pub enum CsiParam {
    /// A run of digits, as the number that it writes. A number past `i64::MAX` counts as
    /// `i64::MAX`.
    Integer(i64),
    /// Any other byte of the body, as `;`, `:`, a private prefix `<` to `?`, or an intermediate.
    P(u8),
}
