//! The fates of bytes.
#![tactic(auto)]

/// The fate of the bytes of a segment.
#[derive(Clone, Copy, PartialEq, Eq, Debug)]
pub enum Fate {
    /// They are in the output as they came.
    Passed,
    /// Their meaning is in the output, in another spelling.
    Respelled,
    /// They are in the output as visible text that stands for them.
    Shown,
    /// They are no character, and the replacement character is in the output for them.
    Replaced,
    /// They mean something that does not pass, and are not in the output.
    LeftOut,
    /// They mean nothing, and are not in the output.
    Swallowed,
    /// They passed, and other text took their place on the line.
    Overwritten,
}

impl Fate {
    /// All of them, in the order in which reports have them.
    pub const ALL: [Fate; 7] = [
        Fate::Passed,
        Fate::Respelled,
        Fate::Shown,
        Fate::Replaced,
        Fate::LeftOut,
        Fate::Swallowed,
        Fate::Overwritten,
    ];
}
