//! The bytes that begin a command.

// A byte that begins a command, whose parameters follow it.
#[derive(Clone, Copy, PartialEq, Eq)]
pub(crate) enum Introducer {
    // `!`, the graphics repeat introducer.
    Repeat,
    // `#`, the colour introducer.
    Color,
    // `"`, raster attributes.
    Raster,
}
