//! Characters that a reader of a text sees as they are, and those that hide, deceive or steer a
//! terminal, with the text in their place: a part of `esc_filter`, `caret_notation` and
//! `command_line`.
//!
//! [`is_shown`] says which characters show as themselves, [`is_deceiving`] which hide or reorder
//! text (Unicode 18.0), and [`number_text`] is the text of any other. [`belongs`] says which of
//! those that hide belong to the character before them, as in emoji, and [`may_follow`] which may
//! come after a character or first. Nothing here asks for memory.
//!
//! ```text
//! is_deceiving('\u{202e}')     // true: U+202E changes the direction of the text after it
//! number_text('\u{202e}')      // "<U+202E>"
//! may_follow(Some('\u{2764}'), '\u{fe0f}')     // true: a heart, shown as an emoji
//! ```
#![tactic(auto)]

mod deceiving;
mod following;
mod number;
mod shown;
mod signs;

pub use deceiving::{has_deceiving, is_deceiving};
pub use following::{belongs, has_stray, is_stray, last_char, may_follow};
pub use number::{hex_digit, number_text};
pub use shown::is_shown;
