//! The input that a terminal sends.

/// The modifiers that are held with a key, a bit each: 1 Shift, 2 Alt, 4 Control, 8 Meta, as xterm
/// counts them from 1 on (<https://invisible-island.net/xterm/ctlseqs/ctlseqs.html>, "PC-Style
/// Function Keys").
pub type Modifiers = u8;

/// Alt.
pub const ALT: Modifiers = 2;

/// Control.
pub const CONTROL: Modifiers = 4;

/// A report of the mouse: the bits of its button, of modifiers and of motion, whether a button was
/// released, and the column and the line.
#[derive(Clone, Copy)]
pub struct Pointer {
    /// The bits, as xterm has them before it adds 32 ("Mouse Tracking").
    pub bits: u64,
    /// Says whether a button was released.
    pub is_released: bool,
    /// The column, from 1 on; a pixel, if mode 1016 is set.
    pub column: u64,
    /// The line, from 1 on; a pixel, if mode 1016 is set.
    pub line: u64,
}

/// The input that a terminal sends.
#[derive(Clone, Copy)]
pub enum Sent {
    /// A key that has a name, with modifiers.
    Key(&'static str, Modifiers),
    /// A key that is a character, with modifiers.
    Typed(char, Modifiers),
    /// A report of the mouse.
    Mouse(Pointer),
    /// The terminal has the focus now, or has lost it.
    Focus(bool),
    /// A paste begins, or ends.
    Paste(bool),
}

impl Sent {
    /// Does the same with more modifiers; input without modifiers stays.
    pub fn with(self, more: Modifiers) -> Sent {
        match self {
            Sent::Key(name, modifiers) => Sent::Key(name, modifiers | more),
            Sent::Typed(c, modifiers) => Sent::Typed(c, modifiers | more),
            other => other,
        }
    }
}
