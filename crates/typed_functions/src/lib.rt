//! Typed values of control sequences, escape sequences and C1 controls, for callers that match
//! them: a [`Function`] is the request of one, with its parameters as numbers, and [`Renditions`]
//! gives those of SGR one after another. The standards: ECMA-48
//! (<https://ecma-international.org/publications-and-standards/standards/ecma-48/>), ISO 8613-6 for
//! the parts of colours, DEC's manual of the VT510
//! (<https://vt100.net/docs/vt510-rm/chapter4.html>) and xterm's list of control sequences
//! (<https://invisible-island.net/xterm/ctlseqs/ctlseqs.html>).
//!
//! ```text
//! let params = [CsiParam::P(b';'), CsiParam::Integer(4)];     // ESC [ ; 4 H
//! Function::of_params(&params, b'H')     // Cursor(Position { line: 1, col: 4 })
//! ```
#![tactic(auto)]

pub mod ansi_color;
mod arguments;
pub mod blink;
pub mod charset;
pub mod charset94;
pub mod charset96;
mod color_entries;
pub mod color_spec;
pub mod cursor;
pub mod cursor_style;
pub mod cursor_tabulation_control;
mod designated;
pub mod device;
pub mod edit;
mod entries;
pub mod erase_in_display;
pub mod erase_in_line;
pub mod escape;
mod escape_table;
pub mod font;
pub mod frame;
pub mod function;
pub mod ideogram;
mod kept;
pub mod keyboard;
pub mod kitty_flags_change;
pub mod laws;
pub mod mode_change;
pub mod mode_number;
pub mod mode_state;
pub mod mode_status;
pub mod modes;
pub mod mouse;
pub mod multibyte_charset;
mod numbered;
mod numbers;
pub mod one_based;
pub mod pair_charset;
pub mod rendition;
pub mod renditions;
pub mod selection;
mod spelling;
pub mod tab_change;
mod table;
pub mod tabulation_clear;
pub mod unfit;
pub mod vertical_align;
pub mod window;
mod window_operations;

pub use ansi_color::AnsiColor;
pub use blink::Blink;
pub use charset::Charset;
pub use charset94::Charset94;
pub use charset96::Charset96;
pub use color_spec::ColorSpec;
pub use cursor::Cursor;
pub use cursor_style::CursorStyle;
pub use cursor_tabulation_control::CursorTabulationControl;
pub use device::Device;
pub use edit::Edit;
pub use erase_in_display::EraseInDisplay;
pub use erase_in_line::EraseInLine;
pub use esc_values::CsiParam;
pub use escape::Escape;
pub use font::Font;
pub use frame::Frame;
pub use function::Function;
pub use ideogram::Ideogram;
pub use keyboard::Keyboard;
pub use kitty_flags_change::KittyFlagsChange;
pub use mode_change::ModeChange;
pub use mode_number::ModeNumber;
pub use mode_state::ModeState;
pub use mode_status::ModeStatus;
pub use modes::Modes;
pub use mouse::Mouse;
pub use multibyte_charset::MultibyteCharset;
pub use one_based::Ordinal;
pub use pair_charset::PairCharset;
pub use rendition::Rendition;
pub use renditions::Renditions;
pub use selection::Selection;
pub use tab_change::TabChange;
pub use tabulation_clear::TabulationClear;
pub use unfit::Unfit;
pub use vertical_align::VerticalAlign;
pub use window::Window;
