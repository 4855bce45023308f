//! Actions of a terminal: the requests that parts of a stream make to it, their texts, and the
//! laws of the meaning of streams (ECMA-48; xterm's list of control sequences).
//!
//! An [`Action`] is a value with a text. The specifications of this crate define the meaning of a
//! stream of bytes, as a list of such values, and the text of a list; its [`laws`] say how the two
//! fit. `esc_parse` reads, and `esc_write` writes.
//!
//! ```text
//! let mut list = Vec::new(alloc);
//! Action::Print('a').append_to(&mut list)?;
//! Action::Print('a').append_to(&mut list)?;     // list is [PrintString("aa")]
//! ```
#![tactic(auto)]

mod action;
mod appending;
mod control_code;
pub mod exceptions;
mod images;
pub mod laws;
mod one_based;

pub use action::Action;
pub use control_code::ControlCode;
pub use one_based::OneBased;
