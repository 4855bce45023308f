//! The calls of a parser that return actions.
use crate::texts::shown;
use escape_stream::Parser;
use std::alloc::{AllocError, Allocator, Global};

/// A call of a parser.
#[derive(Clone, Copy)]
pub enum Call {
    /// `parse_as_vec`.
    List,
    /// `parse_first`.
    First,
    /// `parse_first_as_vec`.
    Prefix,
}

impl Call {
    /// All calls.
    pub const ALL: [Call; 3] = [Call::List, Call::First, Call::Prefix];

    /// Returns the Debug text of the call's result.
    pub fn shown<A: Allocator + Copy>(
        self,
        alloc: Global,
        parser: &mut Parser<A>,
        bytes: &[u8],
    ) -> Result<String, AllocError> {
        match self {
            Call::List => shown(alloc, parser.parse_as_vec(bytes)),
            Call::First => shown(alloc, parser.parse_first(bytes)),
            Call::Prefix => shown(alloc, parser.parse_first_as_vec(bytes)),
        }
    }

    /// Returns whether the call of these bytes says that the parser has failed.
    pub fn fails<A: Allocator + Copy>(
        self,
        alloc: Global,
        parser: &mut Parser<A>,
        bytes: &[u8],
    ) -> bool {
        match self.shown(alloc, parser, bytes) {
            Ok(text) => text.as_str() == "Err(Failed)",
            Err(_) => false,
        }
    }
}
