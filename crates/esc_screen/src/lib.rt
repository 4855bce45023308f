//! A terminal's screen: rows of cells, a cursor, and the effect of each control function on them,
//! in the terms of ECMA-48, of DEC's manual of the VT510 and of xterm's "Control Sequences".
//!
//! A [`Screen`] takes [`Step`]s. It asks for memory when it is made, and when it gets another size:
//! no step does, so none of them has an error. A row has as many [`Cell`]s as the screen has
//! columns. A character takes one cell or two, and how it looks is a number, which the caller
//! chooses.
//!
//! ```text
//! let mut screen = Screen::new(alloc, 24, 80)?;
//! screen.print_run(b"50%");
//! screen.take(Step::Move(Motion::RowStart));
//! screen.print_run(b"done");
//! screen.row(0)       // the cells of "done" and 76 blank ones
//! ```
#![tactic(auto)]

pub mod area;
pub mod cell;
mod cells;
pub mod change;
pub mod content;
pub mod cursor;
mod drawing;
pub mod laws;
pub mod marks;
pub mod mode;
pub mod modes;
pub mod motion;
mod row;
mod rows;
pub mod screen;
pub mod setting;
mod shift;
pub mod step;
mod tabs;

pub use area::Area;
pub use cell::{Cell, is_joined};
pub use change::Change;
pub use content::Content;
pub use cursor::Cursor;
pub use marks::Marks;
pub use mode::Mode;
pub use modes::Modes;
pub use motion::Motion;
pub use screen::Screen;
pub use setting::Setting;
pub use step::Step;
