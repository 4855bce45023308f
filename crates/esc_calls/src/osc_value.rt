//! The value of the text of an OSC, as a kind and counts.

/// A command, for its caller: its kind, and how much room its fields and their texts need.
#[repr(C)]
#[derive(Clone, Copy)]
pub struct OscValue {
    /// Says which command: the number of a [`CommandKind`](flat_values::CommandKind).
    pub kind: u32,
    /// Says how many fields it has.
    pub field_count: usize,
    /// Says how many bytes the texts of these have together.
    pub text_length: usize,
}
