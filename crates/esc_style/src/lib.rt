//! This module says how characters look, by the renditions of SGR (ECMA-48, 8.3.117; xterm's list,
//! "Character Attributes (SGR)"), and the classes and styles of HTML for it. `esc_html` and
//! `line_collapse` use it.
//!
//! [`Look`] takes renditions one after another, and says which [`Class`]es and [`Style`]s a span of
//! such characters has.
//!
//! ```text
//! let mut look = Look::plain();
//! look.select(Rendition::Intensity(Intensity::Bold));
//! look.classes()[0]     // Some(Class::Bold), whose name() is "bold"
//! ```
#![tactic(auto)]

pub mod class;
pub mod color;
pub mod look;
pub mod palettes;
pub mod style;

pub use class::Class;
pub use color::{Color, palette};
pub use look::Look;
pub use style::Style;
