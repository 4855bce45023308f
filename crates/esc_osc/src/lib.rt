//! This crate has operating system commands: their values, a reader of the parts between `ESC ]`
//! and the string terminator as an [`OperatingSystemCommand`], and a writer.
//!
//! The standards: xterm's list of control sequences, "Operating System Commands"
//! (<https://invisible-island.net/xterm/ctlseqs/ctlseqs.html>); for the codes 8, 133 and 1337 those
//! of `esc_links`, `esc_prompts` and `esc_iterm`; for code 9 with `4` ConEmu's documentation
//! (<https://conemu.github.io/en/AnsiEscapeCodes.html#ConEmu_specific_OSC>).
//!
//! ```text
//! let parts = [b"0".as_slice(), b"hello".as_slice()];
//! let command = OperatingSystemCommand::parse(alloc, &parts)?;
//! // SetIconNameAndWindowTitle of "hello", which is written as "\x1b]0;hello\x1b\\"
//! ```
#![tactic(auto)]

pub mod command;
pub mod laws;
mod parse;
mod text_form;
mod write;

pub use command::OperatingSystemCommand;
pub use esc_iterm::{
    Boxed, ITermDimension, ITermFileData, ITermProprietary, ITermUnicodeVersionOp,
};
pub use esc_links::{Hyperlink, Params};
pub use esc_osc_values::{
    ChangeColorPair, Color16, ColorOrQuery, DynamicColorNumber, OperatingSystemCommandCode,
    Progress, Selection, change_color_pair, code, color_or_query, color16, dynamic_color_number,
    progress, selection,
};
pub use esc_prompts::{FinalTermClick, FinalTermPromptKind, FinalTermSemanticPrompt};
