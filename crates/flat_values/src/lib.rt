//! This crate gives the value of an operating system command, an image of kitty's or a termcap
//! query as a flat list of fields, and sixel data as rows: for callers of `escape_c`, who have no
//! enums with values.
//!
//! A command has a [`CommandKind`], and an image an [`ImageKind`]. [`Fields`] holds the parts in
//! order, each under a [`FieldName`]: an optional part that is not given has no field. An item of
//! sixel data is a [`SixelRow`]. [`command_of`], [`image_of`], [`names_of`] and [`sixel_items_of`]
//! read them back.
//!
//! ```text
//! let command = OperatingSystemCommand::parse(alloc, &[b"52", b"c", b"aGVsbG8="])?;
//! let fields = Fields::of(alloc, &command)?;     // Selection: the number 2; Text: 5 bytes at 0
//! fields.text()                                  // b"hello"
//! ```
#![tactic(auto)]

mod append;
mod append_delete;
mod append_file;
mod append_image;
mod append_items;
mod append_link;
mod append_numbers;
mod append_prompt;
mod append_proprietary;
pub mod command_kind;
pub mod field_name;
pub mod field_row;
mod fielded;
pub mod fields;
mod image_back;
mod image_forms;
pub mod image_kind;
mod image_numbers;
mod kinds;
pub mod laws;
mod names_back;
mod read_back;
mod read_colors;
mod read_command;
mod read_file;
mod read_image;
mod read_iterm;
mod read_link;
mod read_lists;
mod read_numbers;
mod read_optional;
mod read_prompt;
mod said;
pub mod sixel_row;
mod sixels_back;

pub use command_kind::CommandKind;
pub use field_name::FieldName;
pub use field_row::{FieldRow, NUMBER, SIZE, TEXT};
pub use fields::Fields;
pub use image_back::{has_image, image_of};
pub use image_kind::ImageKind;
pub use names_back::names_of;
pub use read_back::{are_those, command_of, has_fields};
pub use sixel_row::SixelRow;
pub use sixels_back::sixel_items_of;
