//! This crate makes text of actions: [`encode`], and the texts of control sequences and commands
//! that are written as they came.
//!
//! The text of a list of actions is the texts of its values, with a string terminator after each
//! that needs one. There is no parser here: `esc_normal` joins the writer of this crate with the
//! parser of `esc_parse`. A part of `escape_stream`.
//!
//! ```text
//! encode(alloc, &actions)?     // of a title "t" and Print('x'): "\x1b]0;t\x1b\\x"
//! ```
#![tactic(auto)]

pub mod commands;
pub mod direct;
mod encode_error;
pub mod encoding;
pub mod indexed;
mod runs;
pub mod short_numbers;
mod short_sequence;
mod short_text;

pub use commands::{is_plain_link, plain_link};
pub use encode_error::{EncodeError, same_encode_error};
pub use encoding::encode;
