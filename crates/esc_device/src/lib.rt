//! Device control strings that are neither sixel images nor termcap queries, as a part of
//! `escape_stream`: modes that a string enters, short controls that are given whole, and the string
//! that a header opens. The standards: ECMA-48, 5.6
//! (<https://ecma-international.org/publications-and-standards/standards/ecma-48/>); for a header
//! <https://vt100.net/emu/dec_ansi_parser>; for the short control xterm's DECRQSS
//! (<https://invisible-island.net/xterm/ctlseqs/ctlseqs.html>, "Device-Control functions"), by
//! which a program asks for a setting, such as that of its graphic rendition:
//!
//! ```text
//! let mut builder = ShortBuilder::new(alloc, &[], b"$", b'q')?;
//! builder.push(b'm')?;
//! builder.finish()        // a ShortDeviceControl, which is written as "\x1bP$qm\x1b\\"
//! ```
#![tactic(auto)]

pub mod builder;
mod byte_names;
mod characters;
pub mod enter;
pub mod kind;
pub mod laws;
pub mod mode;
mod numbers;
pub mod short;

pub use builder::ShortBuilder;
pub use enter::EnterDeviceControlMode;
pub use kind::StringKind;
pub use mode::DeviceControlMode;
pub use short::ShortDeviceControl;
