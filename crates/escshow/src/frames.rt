//! Takes the screens of a recording while it is played.

use crate::display::Display;
use crate::fault::Fault;

/// Takes the screens of a recording while it is played.
pub trait Frames {
    /// Takes the screen at the end of a stretch of time.
    fn take_frame(&mut self, display: &Display) -> Result<(), Fault>;
}
