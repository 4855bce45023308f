//! Text that paints a screen: a terminal of the same size that reads it shows the same. Text that
//! leads from one screen to another: a terminal that shows the one and reads it shows the other.
//!
//! ```text
//! terminal.feed(stream)?;
//! push_painting(&mut text, terminal.screen(), terminal.styles())?;
//! other.feed(text.as_bytes())?;           // shows what `terminal` shows
//!
//! push_difference(&mut more, screen, styles, later, later_styles)?;
//! other.feed(more.as_bytes())?;           // shows `later`
//! ```
#![tactic(auto)]

mod cells;
mod difference;
pub mod laws;
mod painting;
pub mod pen;
mod same;
mod sequences;

pub use difference::push_difference;
pub use painting::push_painting;
