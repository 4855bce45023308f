//! The input that a terminal sends to a program, for `--input`: keys, reports of the mouse, the
//! focus and pastes. [`found_in`] says which input bytes begin with, and [`add_sent`] says it in
//! words. The answers of a terminal are control sequences and strings of their own, which are not
//! looked for.

mod controls;
mod found;
mod key_table;
mod pointer;
mod sent;
mod sequences;
mod words;

pub use found::{Found, found_in, paste_end_in};
pub use sent::Sent;
pub use words::add_sent;
