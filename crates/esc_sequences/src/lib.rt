//! Control sequences with their parameters, and the escape sequences that have a name.
//!
//! The standards: ECMA-48
//! (<https://ecma-international.org/publications-and-standards/standards/ecma-48/>) and xterm's
//! list of control sequences (<https://invisible-island.net/xterm/ctlseqs/ctlseqs.html>).
//!
//! A bold character is asked for by `ESC [ 1 m`: `CSI::parse(alloc, &[CsiParam::Integer(1)], false,
//! b'm')?` has the one value `CSI::Sgr(Sgr::Intensity(Intensity::Bold))`, which prints as the same
//! sequence.
//!
//! A user of this library takes these names from `esc_below` or `escape_stream`.
#![tactic(auto)]

pub mod csi;
pub mod esc;
pub mod esc_code;
pub mod intensity;
pub mod laws;
pub mod sgr;
pub mod underline;
pub mod unspecified;

pub use csi::CSI;
pub use esc::Esc;
pub use esc_code::EscCode;
pub use intensity::Intensity;
pub use sgr::Sgr;
pub use underline::Underline;
pub use unspecified::{BorrowedSequence, Unspecified};
