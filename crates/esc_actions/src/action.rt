//! Actions.
ghost use Rattle.std.specs.Prelude.{◌≡◌};
ghost use Rattle.esc_actions.specs.Values.{value_of};
ghost use Rattle.esc_actions.specs.Texts.{has_text, is_left_open, is_string, is_terminator, value_output};

use crate::control_code::ControlCode;
use crate::images::are_sixels;
use esc_device::DeviceControlMode;
use esc_kitty::KittyImage;
use esc_osc::OperatingSystemCommand;
use esc_sequences::{CSI, Esc, EscCode};
use esc_sixel::Sixel;
use esc_values::{Boxed, Items, Text};
use std::alloc::{Allocator, Global};
use std::fmt;
use std::fmt::Display;
use xtgettcap::TcapQuery;

/// The request that a part of a stream makes to a terminal.
#[derive(Drop)]
#[derive_where(Debug, PartialEq)]
pub enum Action<A: Allocator = Global> {
    /// A character is shown. U+FFFD stands for bytes that are no UTF-8 (Unicode, Table 3-7).
    Print(char),
    /// Characters are shown, one after another. No parser hands it out; a list may hold it.
    PrintString(Text<A>),
    /// A control code (ECMA-48, 5.2 and 5.3).
    Control(ControlCode),
    /// An escape sequence (ECMA-48, 5.3).
    Esc(Esc),
    /// A control sequence, or an item of one that has several (ECMA-48, 5.4).
    CSI(CSI<A>),
    /// An operating system command (ECMA-48, 8.3.89; xterm's list of control sequences).
    OperatingSystemCommand(Boxed<OperatingSystemCommand<A>, A>),
    /// An application program command (ECMA-48, 8.3.2) that is one of kitty's graphics protocol
    /// (<https://sw.kovidgoyal.net/kitty/graphics-protocol/>).
    KittyImage(Boxed<KittyImage<A>, A>),
    /// A device control string (ECMA-48, 5.6) that is a sixel image
    /// (<https://vt100.net/docs/vt3xx-gp/chapter14.html>).
    Sixel(Boxed<Sixel<A>, A>),
    /// A device control string that asks for the capabilities of these names (xterm's XTGETTCAP).
    XtGetTcap(Items<Text<A>, A>),
    /// A short device control, or a step of a device control string that enters a mode: its header,
    /// a byte of its data, its end.
    DeviceControl(DeviceControlMode<A>),
}

impl<A: Allocator> Action<A> {
    /// Returns whether this is the escape sequence of a string terminator, `ESC \`.
    pub fn is_terminator(&self) -> bool
        ensures { result ≡ is_terminator (value_of self.now) }
    {
        match self {
            Action::Esc(Esc::Code(EscCode::StringTerminator)) => true,
            _ => false,
        }
    }

    /// Returns whether a string terminator ends its text.
    pub fn is_string(&self) -> bool
        ensures { result ≡ is_string (value_of self.now) }
    {
        match self {
            Action::OperatingSystemCommand(_)
            | Action::KittyImage(_)
            | Action::Sixel(_)
            | Action::XtGetTcap(_)
            | Action::DeviceControl(DeviceControlMode::Exit)
            | Action::DeviceControl(DeviceControlMode::ShortDeviceControl(_)) => true,
            Action::DeviceControl(DeviceControlMode::Enter(_))
            | Action::DeviceControl(DeviceControlMode::Data(_))
            | Action::Print(_)
            | Action::PrintString(_)
            | Action::Control(_)
            | Action::Esc(_)
            | Action::CSI(_) => false,
        }
    }

    /// Returns whether it can be written: a sixel image with a value over 63 cannot.
    pub fn has_text(&self) -> bool
        ensures { result ≡ has_text (value_of self.now) }
    {
        match self {
            Action::Sixel(sixel) => are_sixels(sixel.content.as_slice()),
            _ => true,
        }
    }

    /// Returns whether a string terminator ends its text and its own text does not have it: a list
    /// adds it.
    pub fn is_left_open(&self) -> bool
        ensures { result ≡ is_left_open (value_of self.now) }
    {
        match self {
            Action::KittyImage(_)
            | Action::Sixel(_)
            | Action::XtGetTcap(_)
            | Action::DeviceControl(DeviceControlMode::Exit) => true,
            Action::DeviceControl(DeviceControlMode::ShortDeviceControl(_))
            | Action::DeviceControl(DeviceControlMode::Enter(_))
            | Action::DeviceControl(DeviceControlMode::Data(_))
            | Action::Print(_)
            | Action::PrintString(_)
            | Action::Control(_)
            | Action::Esc(_)
            | Action::CSI(_)
            | Action::OperatingSystemCommand(_) => false,
        }
    }
}

/// Writes the action as a terminal reads it: a control as the character of its number, a command
/// with the string terminator that ends it, as a short device control too; an image, a query and
/// the end of a mode without it. It errs only if the formatter's writer errs, and at a sixel image
/// with a value over 63.
impl<A: Allocator> Display for Action<A> {
    ghost output = { λ a. value_output (value_of a) };

    fn fmt<W: fmt::Write>(&self, f: &mut fmt::Formatter<W>) -> fmt::Result {
        match self {
            Action::Print(c) => f.write_char(*c),
            Action::PrintString(text) => f.write_str(text.as_str()),
            Action::Control(code) => code.fmt(f),
            Action::Esc(esc) => esc.fmt(f),
            Action::CSI(csi) => csi.fmt(f),
            Action::OperatingSystemCommand(command) => command.as_ref().fmt(f),
            Action::KittyImage(image) => image.as_ref().fmt(f),
            Action::Sixel(sixel) => sixel.as_ref().fmt(f),
            Action::XtGetTcap(names) => TcapQuery(names.as_slice()).fmt(f),
            Action::DeviceControl(mode) => Display::fmt(mode, f),
        }
    }
}
