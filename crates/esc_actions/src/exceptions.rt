//! Actions that a parser emits and that no text reads back as.
ghost use Rattle.std.specs.Prelude.{◌≡◌};
ghost use Rattle.std.specs.List.{list_any};
ghost use Rattle.esc_actions.specs.Values.{device_value, value_of};
ghost use Rattle.esc_actions.specs.Writable.{is_exception, is_opener, is_opening, is_truncated};
ghost use Rattle.esc_sequences.specs.Csis.{csi_value};
ghost use Rattle.esc_device.specs.Writable.{is_high_byte};

use crate::action::Action;
use esc_device::DeviceControlMode;
use esc_sequences::{CSI, Esc};
use std::alloc::Allocator;

/// Returns whether this is one of the actions that a parser may emit though no text reads back as
/// them.
pub fn is_exception<A: Allocator>(action: &Action<A>) -> bool
    ensures { result ≡ is_exception (value_of action.now) }
{
    match action {
        Action::Esc(esc) => is_opening(esc),
        Action::CSI(csi) => is_truncated(csi),
        Action::DeviceControl(mode) => is_incomplete(mode),
        Action::Print(_)
        | Action::PrintString(_)
        | Action::Control(_)
        | Action::OperatingSystemCommand(_)
        | Action::KittyImage(_)
        | Action::Sixel(_)
        | Action::XtGetTcap(_) => false,
    }
}

/// Returns whether the text of the escape sequence begins a string or a control sequence.
#[tactic(auto, using(crate::proofs::Values::LettersThatOpen::opens_by_letter))]
pub fn is_opening(esc: &Esc) -> bool
    ensures { result ≡ is_opening esc.now }
{
    match esc {
        Esc::Unspecified {
            intermediate: None,
            control,
        } => is_opener(*control),
        Esc::Unspecified { .. } | Esc::Code(_) => false,
    }
}

// Returns whether this letter, after ESC, opens a string or a control sequence.
fn is_opener(letter: u8) -> bool
    ensures { result ≡ is_opener letter }
{
    letter == b'['
        || letter == b']'
        || letter == b'P'
        || letter == b'X'
        || letter == b'^'
        || letter == b'_'
}

/// Returns whether parameters of the control sequence were left out.
pub fn is_truncated<A: Allocator>(csi: &CSI<A>) -> bool
    ensures { result ≡ is_truncated (csi_value csi.now) }
{
    match csi {
        CSI::Sgr(_) => false,
        CSI::Unspecified(sequence) => sequence.as_ref().parameters_truncated,
    }
}

// Returns whether intermediates of a header were left out, or a byte of data is A0 to FF.
fn is_incomplete<A: Allocator>(mode: &DeviceControlMode<A>) -> bool
    ensures { result ≡ is_exception (device_value mode.now) }
{
    match mode {
        DeviceControlMode::Enter(enter) => enter.as_ref().ignored_extra_intermediates,
        DeviceControlMode::Exit => false,
        DeviceControlMode::Data(byte) => 0xa0 <= *byte,
        DeviceControlMode::ShortDeviceControl(short) => has_high_byte(
            short.as_ref().content.as_slice(),
        ),
    }
}

/// Returns whether one of the bytes is A0 to FF, which a device control string cannot hold as data.
pub fn has_high_byte(bytes: &[u8]) -> bool
    ensures { result ≡ list_any is_high_byte bytes.now }
{
    bytes.iter().any(|byte| 0xa0 <= *byte)
}
