//! Keys that are sent as a control.

use crate::input::sent::{CONTROL, Sent};

/// Returns the key that is sent as this control, but for ESC.
pub fn control_key(code: u8) -> Option<Sent> {
    match code {
        0x00 => Some(Sent::Key("Space", CONTROL)),
        0x08 => Some(Sent::Key("Backspace, or H with Control", 0)),
        0x09 => Some(Sent::Key("Tab, or I with Control", 0)),
        0x0d => Some(Sent::Key("Enter, or M with Control", 0)),
        0x7f => Some(Sent::Key("Backspace, or Delete", 0)),
        0x1b => None,
        0x01..=0x1f => Some(Sent::Typed(char::from(code.saturating_add(0x40)), CONTROL)),
        _ => None,
    }
}
