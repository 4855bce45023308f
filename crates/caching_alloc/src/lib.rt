//! An allocator that keeps small blocks that were given back, and hands them out again.
//!
//! Code that makes and drops a `Box` and a `Vec` or two again and again, as a parser does with its
//! actions, then asks the allocator below for memory a few times at first, and never again:
//!
//! ```text
//! let memory = Reusing::new(rt.alloc());
//! let mut parser = Parser::new(&memory);
//! ```
#![tactic(auto)]

mod block;
mod pool;
mod reusing;
mod shelf;
mod slot;

pub use reusing::Reusing;
