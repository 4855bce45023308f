//! Equality is equality of values: `==` of each public type that has it is true exactly if the two
//! are the same. For the errors of `encode` and `normalise` their own crates say it, `esc_write`
//! and `esc_normal`.
//!
//! Most of these types derive `==`, and a derive has no clause of its own; here each is the body of
//! a function that has one. `escape_stream` compares actions by it.
//!
//! ```text
//! actions::same_control_code(&ControlCode::Bell, &ControlCode::LineFeed)     // false
//! ```
#![tactic(auto)]

pub mod actions;
pub mod below;
pub mod commands;
pub mod device;
pub mod errors;
pub mod iterm;
pub mod kitty;
pub mod lists;
pub mod prompts;
pub mod sixel;
