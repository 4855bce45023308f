//! Termcap queries, by which a program asks a terminal for its capabilities (xterm's XTGETTCAP), as
//! a part of `esc_image`: `ESC P + q`, and the names of the capabilities in hexadecimal with `;`
//! between them. A [`GetTcapBuilder`] reads the data byte by byte; a [`TcapQuery`] is written. See
//! <https://invisible-island.net/xterm/ctlseqs/ctlseqs.html>, "Request Termcap/Terminfo String".
//!
//! ```text
//! let mut builder = GetTcapBuilder::new(alloc);
//! builder.push_run(b"544E;436F")?;
//! builder.finish()?       // the names "TN" and "Co"
//! ```
#![tactic(auto)]

pub mod builder;
pub mod laws;
mod name;
pub mod query;

pub use builder::GetTcapBuilder;
pub use query::TcapQuery;
