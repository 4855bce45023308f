//! The work of the calls of the archive `escape_c`. The archive adds their names for C, and its
//! proof, which runs again wherever it is built, only hands on the promises of this crate.
#![tactic(auto)]

pub mod account_row;
pub mod cell_row;
mod change_kept;
mod clear;
mod common;
pub mod fault;
pub mod filter;
pub mod filter_chunks;
pub mod function;
pub mod function_row;
mod held;
pub mod image_value;
pub mod in_chunks;
pub mod is_normal;
mod kept;
pub mod kitty;
mod looked;
pub mod normal;
pub mod normal_chunks;
pub mod osc;
pub mod osc_value;
mod output;
pub mod page_chunks;
mod page_state;
mod parts;
pub mod query_value;
mod refusal;
pub mod request_row;
mod said;
mod said_groups;
mod said_guard;
mod said_order;
mod said_window;
pub mod sanitizer_chunks;
pub mod sanitizer_options;
mod sanitizer_state;
pub mod screen_chunks;
pub mod screen_row;
mod screen_state;
mod scrollback;
pub mod settings;
mod shown;
pub mod sixel;
pub mod sixel_value;
mod sixel_writable;
pub mod string_name;
pub mod string_row;
pub mod tcap;
pub mod write_kitty;
pub mod write_osc;
pub mod write_sixel;
pub mod write_tcap;

/// The call was done.
pub const DONE: u32 = 0;

/// A request for memory was refused. Nothing was written.
pub const NO_MEMORY: u32 = 1;

/// No policy has this number. Nothing was written.
pub const UNKNOWN_POLICY: u32 = 2;

/// The filter, the page, the normaliser or the sanitizer in chunks was not begun, or has ended.
/// Nothing was taken.
pub const NOT_BEGUN: u32 = 3;

/// No command, image or query has this kind, these fields or this value. Nothing was written.
pub const NO_COMMAND: u32 = 4;

/// The text of the command, image or query would not read back as it. Nothing was written.
pub const NOT_WRITABLE: u32 = 5;

/// The options of a sanitizer have another size than this version knows, or use a reserved field.
pub const UNKNOWN_SIZE: u32 = 6;

/// No group has one of the bits that options allow or deny.
pub const UNKNOWN_GROUP: u32 = 7;

/// No schemes of links have the number that options have.
pub const UNKNOWN_LINKS: u32 = 8;

/// No framing has the number that options have.
pub const UNKNOWN_FRAMING: u32 = 9;

/// The number that options have of characters that hide or reorder text says nothing.
pub const UNKNOWN_CHARACTERS: u32 = 10;

/// The number that options have of carriage returns says nothing.
pub const UNKNOWN_RETURNS: u32 = 11;

/// No encoding has the number that options have.
pub const UNKNOWN_ENCODING: u32 = 12;

/// No way to show actions that do not pass has the number that options have.
pub const UNKNOWN_SHOW: u32 = 13;

/// Options let more rows be written again than 4096.
pub const TOO_MANY_ROWS: u32 = 14;

/// Options give these rows more columns than 16,384.
pub const TOO_MANY_COLUMNS: u32 = 15;
