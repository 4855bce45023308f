//! The state of lines for the next rows.

use crate::ink::Ink;

/// The state of lines for the next rows, without their text.
#[derive(Clone, Copy)]
pub struct State {
    pub(crate) ink: Ink,
    pub(crate) gap: bool,
}
