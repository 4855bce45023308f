//! Control functions by name: tables of controls, control sequences and escape sequences with their
//! functions, and of modes.
//!
//! The standards: ECMA-48
//! (<https://ecma-international.org/publications-and-standards/standards/ecma-48/>), DEC's manual
//! of the VT510 (<https://vt100.net/docs/vt510-rm/chapter4.html>), xterm's list of control
//! sequences (<https://invisible-island.net/xterm/ctlseqs/ctlseqs.html>) and kitty's protocols
//! (<https://sw.kovidgoyal.net/kitty/protocol-extensions/>).
//!
//! The parameters of `ESC [ 3 ; 4 H` are `3`, `;` and `4`, and
//! `ControlFunction::of_csi_params(parameters, b'H')` is `Some(ControlFunction::CUP)`, whose
//! `words` are "cursor position" and whose `row` says that it changes the screen alone and has two
//! parameters, a line and a column.
#![tactic(auto)]

pub mod c0;
mod c0_table;
pub mod control_function;
mod control_table;
pub mod effect;
pub mod escape_function;
mod escape_table;
mod find;
mod keyed;
pub mod laws;
mod marks;
pub mod mode;
mod mode_row;
mod mode_table;
pub mod parameter;
pub mod parameters;
pub mod private_mode;
mod private_mode_table;
pub mod row;
pub mod standard;
mod table_macros;

pub use c0::C0;
pub use control_function::ControlFunction;
pub use effect::Effect;
pub use escape_function::EscapeFunction;
pub use mode::Mode;
pub use parameter::Parameter;
pub use parameters::Parameters;
pub use private_mode::PrivateMode;
pub use row::Row;
pub use standard::Standard;
