//! This crate has the values in operating system commands: their codes, colours of the palette and
//! dynamic colours, selections, the progress of a task, and lists of texts, numbers and parts, with
//! a reader and a writer of each. A user of this library takes these names from `esc_osc`, which
//! has the commands themselves.
//!
//! The standards: xterm's list of control sequences, "Operating System Commands"
//! (<https://invisible-island.net/xterm/ctlseqs/ctlseqs.html>); for colours X11's `XParseColor`;
//! for the progress ConEmu's documentation
//! (<https://conemu.github.io/en/AnsiEscapeCodes.html#ConEmu_specific_OSC>).
//!
//! `DynamicColorNumber::TextCursorColor` is changed by the code
//! `OperatingSystemCommandCode::SetTextCursorColor`, whose text is `12`; the colour
//! `ColorOrQuery::Color(Color16 { red: 65535, green: 0, blue: 0 })` prints as `rgb:ffff/0000/0000`.
#![tactic(auto)]

pub mod change_color_pair;
pub mod code;
pub mod color16;
pub mod color_or_query;
pub mod dynamic_codes;
pub mod dynamic_color_number;
mod lossy;
pub mod progress;
pub mod read_code;
mod read_color;
pub mod read_items;
pub mod read_progress;
pub mod read_selection;
pub mod selection;
pub mod write_items;

pub use change_color_pair::ChangeColorPair;
pub use code::OperatingSystemCommandCode;
pub use color_or_query::ColorOrQuery;
pub use color16::Color16;
pub use dynamic_color_number::DynamicColorNumber;
pub use progress::Progress;
pub use selection::Selection;
