//! The actions of device control strings, but for images and termcap queries.
ghost use Rattle.std.specs.Prelude.{Some};
ghost use Rattle.esc_device.specs.Texts.{mode_text};

use crate::byte_names::ByteName;
use crate::enter::EnterDeviceControlMode;
use crate::short::ShortDeviceControl;
use esc_values::Boxed;
use std::alloc::{Allocator, Global};
use std::fmt;
use std::fmt::{Debug, Display};

/// A short device control, or a step of a device control string that enters a mode: its header,
/// each byte of its data, and its end.
#[derive(Drop)]
#[derive_where(PartialEq, Eq)]
pub enum DeviceControlMode<A: Allocator = Global> {
    /// A mode is entered, until `Exit`.
    Enter(Boxed<EnterDeviceControlMode<A>, A>),
    /// The mode that was entered ends.
    Exit,
    /// A byte of data for the mode that was entered.
    Data(u8),
    /// A short device control.
    ShortDeviceControl(Boxed<ShortDeviceControl<A>, A>),
}

/// Writes the header, the short control with its string terminator, or the character of the byte's
/// number; of `Exit` nothing.
///
/// Takes no memory, and errs only if the formatter's writer errs.
impl<A: Allocator> Display for DeviceControlMode<A> {
    ghost output = { λ m. Some (mode_text m) };

    fn fmt<W: fmt::Write>(&self, f: &mut fmt::Formatter<W>) -> fmt::Result {
        match self {
            DeviceControlMode::Enter(enter) => Display::fmt(enter.as_ref(), f),
            DeviceControlMode::Exit => Ok(()),
            DeviceControlMode::Data(byte) => {
                let byte = char::from(*byte);
                write!(f, "{byte}")
            }
            DeviceControlMode::ShortDeviceControl(short) => Display::fmt(short.as_ref(), f),
        }
    }
}

/// Writes the variant with its value, and a byte as its character and its hexadecimal number.
impl<A: Allocator> Debug for DeviceControlMode<A> {
    fn fmt<W: fmt::Write>(&self, f: &mut fmt::Formatter<W>) -> fmt::Result {
        match self {
            DeviceControlMode::Enter(enter) => write!(f, "Enter({enter:?})"),
            DeviceControlMode::Exit => f.write_str("Exit"),
            DeviceControlMode::Data(byte) => {
                let byte = ByteName(*byte);
                write!(f, "Data({byte:?})")
            }
            DeviceControlMode::ShortDeviceControl(short) => {
                write!(f, "ShortDeviceControl({short:?})")
            }
        }
    }
}
