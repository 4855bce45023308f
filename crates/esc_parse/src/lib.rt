//! This crate makes actions of bytes: the [`Parser`], and the sinks that take its actions.
//!
//! Events go to a [`Performer`](performer::Performer), which makes actions of them and keeps the
//! state of an unfinished device control string. No text is made of actions here: `esc_write` does
//! that, and `esc_normal` joins the two. A part of `escape_stream`.
//!
//! ```text
//! let mut parser = Parser::new(alloc);
//! parser.parse_as_vec(b"a\x1b[")?     // [Action::Print('a')]
//! parser.parse_as_vec(b"m")?          // [Action::CSI(CSI::Sgr(Sgr::Reset))]
//! ```
#![tactic(auto)]

pub mod commands;
pub mod dcs_payload;
pub mod laws;
pub mod parser;
pub mod performer;
pub mod sink;
pub mod sixel_text;
pub mod unfinished;

pub use parser::Parser;
pub use sink::{ActionShape, Calls, Collect, First, Sink};
