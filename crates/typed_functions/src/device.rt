//! Control sequences of the terminal itself (ECMA-48, 8.3.24 and 8.3.35; DEC's VT510; xterm's
//! list).
ghost use Rattle.std.specs.Prelude.{◌≡◌, Some, false};
ghost use Rattle.esc_sequences.specs.Csis.{csi_text, unspecified};
ghost use Rattle.typed_functions.specs.Spellings.{device_spelling, entries};

use crate::arguments::Arguments;
use crate::spelling::{Spelling, write_spelling};
use std::fmt;

/// A request to the terminal itself, by the names of termwiz.
#[derive(Clone, Copy, Debug)]
pub enum Device {
    /// `CSI .. c`, DA1: its kind, in its primary attributes.
    RequestPrimaryDeviceAttributes,
    /// `CSI > .. c`, DA2: the same, in its secondary attributes.
    RequestSecondaryDeviceAttributes,
    /// `CSI = .. c`, DA3: the same, in its tertiary attributes.
    RequestTertiaryDeviceAttributes,
    /// `CSI > .. q`, XTVERSION: its name and version.
    RequestTerminalNameAndVersion,
    /// `CSI .. n`, DSR: a report of its status, by 5.
    StatusReport,
    /// `CSI .. ! p`, DECSTR: a reset of the settings that applications change.
    SoftReset,
}

/// Writes the control sequence in its normal spelling, in which defaults are left out. If it
/// returns `Ok`, all of it was written.
impl fmt::Display for Device {
    ghost output = { λ c. let s = device_spelling c in
        Some (csi_text (unspecified (entries s) false s.last)) };

    fn fmt<W: fmt::Write>(&self, f: &mut fmt::Formatter<W>) -> fmt::Result {
        write_spelling(device_spelling(*self), f)
    }
}

// Returns its spelling.
fn device_spelling(device: Device) -> Spelling
    ensures { result ≡ device_spelling device }
{
    match device {
        Device::RequestPrimaryDeviceAttributes => Spelling::plain(Arguments::Nothing, b'c'),
        Device::RequestSecondaryDeviceAttributes => Spelling::private(
            b'>',
            Arguments::Nothing,
            b'c',
        ),
        Device::RequestTertiaryDeviceAttributes => Spelling::private(
            b'=',
            Arguments::Nothing,
            b'c',
        ),
        Device::RequestTerminalNameAndVersion => Spelling::private(b'>', Arguments::Nothing, b'q'),
        Device::StatusReport => Spelling::plain(Arguments::Selector(5), b'n'),
        Device::SoftReset => Spelling::between(Arguments::Nothing, b'!', b'p'),
    }
}
