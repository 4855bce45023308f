//! The calls by which this library asks for memory. Each is one call of the standard library, and
//! has one clause more than that: if it returns an error, a request for memory was refused.
//!
//! The word for this is `Refused A`: a request to an allocator of type `A` was refused. Nothing but
//! the calls of this crate gives it, so a function that ensures `OnErr result (Refused A)` returns
//! no error that it made up. One fact is trusted: the standard library's calls here return an error
//! only if their allocator refused, which their own contracts leave open.
//!
//! No call takes a free size: a caller could ask for more than any machine has, and so have a
//! refusal at will.
#![tactic(auto)]

mod answered;
mod lists;
mod others;
mod texts;

pub use lists::{
    READ_BUFFER, boxed, collect, copied, extend, push, read_buffer, reserve, reserve_for,
};
pub use others::{decode_base64, decode_hex, insert};
pub use texts::{lossy, push_char, push_display, push_str, text};
