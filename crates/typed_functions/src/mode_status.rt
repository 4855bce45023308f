//! Control sequences of the state of a mode (DEC's VT510, DECRQM and DECRPM).
ghost use Rattle.std.specs.Prelude.{◌≡◌, Some, false};
ghost use Rattle.esc_sequences.specs.Csis.{csi_text, unspecified};
ghost use Rattle.typed_functions.specs.Spellings.{entries, mode_status_spelling};

use crate::arguments::Arguments;
use crate::mode_state::ModeState;
use crate::spelling::{Spelling, write_spelling};
use std::fmt;

/// A request or a report about a mode. Its number is that of a `Mode` or a `PrivateMode` of
/// `control_functions`, if it has a name.
#[derive(Clone, Copy, Debug)]
pub enum ModeStatus {
    /// `CSI .. $ p`, DECRQM: the state of this mode of ECMA-48 is asked for.
    QueryMode(u32),
    /// `CSI ? .. $ p`, DECRQM: that of this private mode.
    QueryDecPrivateMode(u32),
    /// `CSI .. $ y`, DECRPM: a report of the state of this mode of ECMA-48.
    ReportMode { mode: u32, state: ModeState },
    /// `CSI ? .. $ y`, DECRPM: that of this private mode.
    ReportDecPrivateMode { mode: u32, state: ModeState },
}

/// Writes the control sequence in its normal spelling. If it returns `Ok`, all of it was written.
impl fmt::Display for ModeStatus {
    ghost output = { λ c. let s = mode_status_spelling c in
        Some (csi_text (unspecified (entries s) false s.last)) };

    fn fmt<W: fmt::Write>(&self, f: &mut fmt::Formatter<W>) -> fmt::Result {
        write_spelling(mode_status_spelling(*self), f)
    }
}

// Returns its spelling.
fn mode_status_spelling(status: ModeStatus) -> Spelling
    ensures { result ≡ mode_status_spelling status }
{
    match status {
        ModeStatus::QueryMode(mode) => Spelling::between(
            Arguments::Numbers(mode, None, None),
            b'$',
            b'p',
        ),
        ModeStatus::QueryDecPrivateMode(mode) => Spelling::private_between(
            b'?',
            Arguments::Numbers(mode, None, None),
            b'$',
            b'p',
        ),
        ModeStatus::ReportMode { mode, state } => Spelling::between(
            Arguments::Numbers(mode, Some(state.number() as u32), None),
            b'$',
            b'y',
        ),
        ModeStatus::ReportDecPrivateMode { mode, state } => Spelling::private_between(
            b'?',
            Arguments::Numbers(mode, Some(state.number() as u32), None),
            b'$',
            b'y',
        ),
    }
}
