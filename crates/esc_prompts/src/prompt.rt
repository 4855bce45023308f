//! This module defines semantic prompts ("Semantic prompts",
//! <https://gitlab.freedesktop.org/Per_Bothner/specifications/blob/master/proposals/semantic-prompts.md>).
use crate::click::FinalTermClick;
use crate::prompt_kind::FinalTermPromptKind;
use esc_values::Text;
use std::alloc::{Allocator, Global};

/// A shell writes these marks between its prompts, the user's input, and the output of commands
/// (FinalTerm; operating system command 133, with a letter after the code).
#[derive(Drop)]
#[derive_where(Debug, PartialEq, Eq)]
pub enum FinalTermSemanticPrompt<A: Allocator = Global> {
    /// `L`: goes to the start of a new line, unless the cursor is at the start of one.
    FreshLine,
    /// `A`: as `FreshLine`, and a prompt begins.
    FreshLineAndStartPrompt {
        /// The name of the application, key `aid`, if it is given.
        aid: Option<Text<A>>,
        /// The effect of a click, key `cl`, if it is given.
        cl: Option<FinalTermClick>,
    },
    /// `N`: the command before ends, if one has begun with the same `aid`; then as
    /// `FreshLineAndStartPrompt`.
    MarkEndOfCommandWithFreshLine {
        /// The name of the application, key `aid`, if it is given.
        aid: Option<Text<A>>,
        /// The effect of a click, key `cl`, if it is given.
        cl: Option<FinalTermClick>,
    },
    /// `P`: a prompt of this kind, key `k`, begins.
    StartPrompt(FinalTermPromptKind),
    /// `B`: the prompt ends, and the input begins. It goes on to the next mark.
    MarkEndOfPromptAndStartOfInputUntilNextMarker,
    /// `I`: the prompt ends, and the input begins. It goes on to the end of the line.
    MarkEndOfPromptAndStartOfInputUntilEndOfLine,
    /// `C`: the input ends, and the output begins.
    MarkEndOfInputAndStartOfOutput {
        /// The name of the application, key `aid`, if it is given.
        aid: Option<Text<A>>,
    },
    /// `D`: the command ends.
    CommandStatus {
        /// Its status; 0 if none is given, or none that is a number of 32 bits.
        status: i32,
        /// The name of the application, key `aid`, if it is given.
        aid: Option<Text<A>>,
    },
}
