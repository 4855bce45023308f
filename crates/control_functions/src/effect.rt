//! The effect of a function.
ghost use Rattle.std.specs.Prelude.{◌≡◌};
ghost use Rattle.control_functions.specs.Effects.{is_answered_effect, is_screen_effect};

/// The effect of a control function, and whether a terminal answers it.
#[derive(Clone, Copy, Debug, PartialEq, Eq)]
pub enum Effect {
    /// It changes the screen alone: the text on it, the cursor, margins, tab stops and renditions.
    Screen,
    /// A terminal answers it, with some of its parameters or with all.
    Answered,
    /// A terminal sends it, as an answer or because of a key, the mouse or the window.
    Report,
    /// Anything else: the input that keys, mouse or terminal send, modes, character sets and shifts
    /// between them, the bell, printers, memory, and functions that no terminal is known to do.
    Other,
}

impl Effect {
    /// Returns whether it is `Screen`.
    #[inline]
    pub fn is_screen(self) -> bool
        ensures { result ≡ is_screen_effect self }
    {
        match self {
            Effect::Screen => true,
            Effect::Answered | Effect::Report | Effect::Other => false,
        }
    }

    /// Returns whether it is `Answered`.
    #[inline]
    pub fn is_answered(self) -> bool
        ensures { result ≡ is_answered_effect self }
    {
        match self {
            Effect::Answered => true,
            Effect::Screen | Effect::Report | Effect::Other => false,
        }
    }
}
