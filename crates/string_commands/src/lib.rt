//! Control strings by name: one table of operating system commands, device control strings and
//! application program commands, a row a command, with its description and the parts of its text.
//!
//! The text of `ESC ] 133 ; A ST` is `133;A`, and `command(b"133;A")` is the row of the name `OSC
//! 133;A`, whose words are "prompt starts, on a fresh line".
#![tactic(auto)]

pub mod begin;
mod columns;
pub mod entry;
mod fits;
pub mod laws;
pub mod lookup;
pub mod row;
pub mod string_kind;
pub mod strings;
mod table;
mod table_macros;

pub use begin::Begin;
pub use lookup::{find, named};
pub use row::Row;
pub use string_kind::StringKind;
pub use strings::{application, command, device};
pub use table::row_at;
