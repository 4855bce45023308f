//! The control sequence that makes a look, SGR (ECMA-48, 8.3.117; xterm's list, "Character
//! Attributes (SGR)"), and whether two looks are the same.
//!
//! ```text
//! push_change(&mut text, &Look::plain(), &bold)?;     // "\x1b[0;1m"
//! is_same(&bold, &Look::plain())                      // false
//! ```
#![tactic(auto)]

mod ascii;
mod same;
mod sgr;

pub use same::{is_first, is_same};
pub use sgr::push_change;
