//! This crate has semantic prompts, by which a shell marks its prompts, its commands and their
//! output (FinalTerm; operating system command 133): their values, a reader of the parts after the
//! code, and a writer.
//!
//! The standard: "Semantic prompts"
//! (<https://gitlab.freedesktop.org/Per_Bothner/specifications/blob/master/proposals/semantic-prompts.md>).
//!
//! A shell ends a command that failed with `ESC ] 133 ; D ; 1 ESC \`:
//! `FinalTermSemanticPrompt::parse(alloc, &[b"D", b"1"])?` is
//! `Some(FinalTermSemanticPrompt::CommandStatus { status: 1, aid: None })`, which prints as
//! `133;D;1`.
#![tactic(auto)]

pub mod click;
mod keys;
pub mod laws;
mod parse;
pub mod prompt;
pub mod prompt_kind;
mod write;

pub use click::FinalTermClick;
pub use prompt::FinalTermSemanticPrompt;
pub use prompt_kind::FinalTermPromptKind;
