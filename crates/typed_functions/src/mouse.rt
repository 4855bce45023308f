//! Reports of the mouse (xterm's list, "Extended coordinates", SGR).
ghost use Rattle.std.specs.Prelude.{◌≡◌, Some, false};
ghost use Rattle.esc_sequences.specs.Csis.{csi_text, unspecified};
ghost use Rattle.typed_functions.specs.Spellings.{mouse_spelling, entries};

use crate::arguments::Arguments;
use crate::one_based::Ordinal;
use crate::spelling::{Spelling, write_spelling};
use std::fmt;

/// A report of the mouse. The button is xterm's number, with the modifiers in it.
#[derive(Clone, Copy, Debug)]
pub enum Mouse {
    /// `CSI < .. M`, MOUSE: a button is pressed, or the pointer moved.
    Pressed {
        button: u8,
        col: Ordinal,
        line: Ordinal,
    },
    /// `CSI < .. m`, MOUSEUP: a button is released.
    Released {
        button: u8,
        col: Ordinal,
        line: Ordinal,
    },
}

/// Writes the control sequence in its normal spelling, in which defaults are left out. If it
/// returns `Ok`, all of it was written.
impl fmt::Display for Mouse {
    ghost output = { λ c. let s = mouse_spelling c in
        Some (csi_text (unspecified (entries s) false s.last)) };

    fn fmt<W: fmt::Write>(&self, f: &mut fmt::Formatter<W>) -> fmt::Result {
        write_spelling(mouse_spelling(*self), f)
    }
}

// Returns its spelling.
fn mouse_spelling(mouse: Mouse) -> Spelling
    ensures { result ≡ mouse_spelling mouse }
{
    match mouse {
        Mouse::Pressed { button, col, line } => Spelling::private(
            b'<',
            Arguments::Report(button, col, line),
            b'M',
        ),
        Mouse::Released { button, col, line } => Spelling::private(
            b'<',
            Arguments::Report(button, col, line),
            b'm',
        ),
    }
}
