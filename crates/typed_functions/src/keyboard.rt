//! Control sequences of kitty's keyboard protocol
//! (<https://sw.kovidgoyal.net/kitty/keyboard-protocol/>).
ghost use Rattle.std.specs.Prelude.{◌≡◌, Some, false};
ghost use Rattle.esc_sequences.specs.Csis.{csi_text, unspecified};
ghost use Rattle.typed_functions.specs.Spellings.{keyboard_spelling, entries};

use crate::arguments::Arguments;
use crate::kitty_flags_change::KittyFlagsChange;
use crate::one_based::Ordinal;
use crate::spelling::{Spelling, write_spelling};
use std::fmt;

/// A request about the reports of keys, by the names of termwiz.
#[derive(Clone, Copy, Debug)]
pub enum Keyboard {
    /// `CSI ? .. u`, KITTYQUERY: which flags are set.
    QueryKittySupport,
    /// `CSI > .. u`, KITTYPUSH: these flags, after those that were set are kept.
    PushKittyState(u8),
    /// `CSI < .. u`, KITTYPOP: so many of the flags that were kept are taken back.
    PopKittyState(Ordinal),
    /// `CSI = .. u`, KITTYSET: these flags are set, or are no longer.
    SetKittyState { flags: u8, change: KittyFlagsChange },
}

/// Writes the control sequence in its normal spelling, in which defaults are left out. If it
/// returns `Ok`, all of it was written.
impl fmt::Display for Keyboard {
    ghost output = { λ c. let s = keyboard_spelling c in
        Some (csi_text (unspecified (entries s) false s.last)) };

    fn fmt<W: fmt::Write>(&self, f: &mut fmt::Formatter<W>) -> fmt::Result {
        write_spelling(keyboard_spelling(*self), f)
    }
}

// Returns its spelling.
fn keyboard_spelling(keyboard: Keyboard) -> Spelling
    ensures { result ≡ keyboard_spelling keyboard }
{
    match keyboard {
        Keyboard::QueryKittySupport => Spelling::private(b'?', Arguments::Nothing, b'u'),
        Keyboard::PushKittyState(choice) => Spelling::private(
            b'>',
            Arguments::Selector(choice),
            b'u',
        ),
        Keyboard::PopKittyState(n) => Spelling::private(b'<', Arguments::Count(n), b'u'),
        Keyboard::SetKittyState { flags, change } => Spelling::private(
            b'=',
            Arguments::Flags(flags, change.number()),
            b'u',
        ),
    }
}
