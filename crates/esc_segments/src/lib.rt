//! The segments of terminal bytes: an iterator over the caller's slice that takes no memory.
//!
//! [`Segments`] gives the one cut of a stream of bytes into characters, controls, escape sequences
//! and strings, as the parser of DEC's terminals (<https://vt100.net/emu/dec_ansi_parser>) and
//! ECMA-48 have them, without dispatching anything: a pager, a linter or an editor can look at the
//! bytes of each at their place. [`laws`] says which items a whole iteration gives.
//!
//! ```
//! for segment in Segments::new(b"\x1b[1mbold") {
//!     println!(rt; "{:?} of {} bytes", segment.kind, segment.bytes.len())?;
//! }
//! ```
//!
//! A segment outlives the iterator that gave it, and not the input: the compiler refuses a program
//! that keeps a segment longer than the bytes that it was cut from.
#![tactic(auto)]

mod bytes;
mod characters;
mod dispatch;
pub mod events;
mod first;
mod found;
pub mod item;
pub mod iter;
mod kept;
pub mod kind;
pub mod laws;
mod opened;
mod openers;
mod runs;
mod sequence;
mod strings;
mod text;

pub use events::segment_events;
pub use item::Segment;
pub use iter::Segments;
pub use kind::SegmentKind;
