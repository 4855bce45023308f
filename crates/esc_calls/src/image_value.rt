//! The value of the text of an APC, as a kind and counts.

/// An image of kitty's, for its caller: its kind, and how much room its fields and their texts
/// need.
#[repr(C)]
#[derive(Clone, Copy)]
pub struct ImageValue {
    /// Says which command of the protocol: the number of an [`ImageKind`](flat_values::ImageKind).
    pub kind: u32,
    /// Says how many fields it has.
    pub field_count: usize,
    /// Says how many bytes the texts of these have together.
    pub text_length: usize,
}
