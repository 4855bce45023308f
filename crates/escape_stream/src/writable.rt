//! This module says which actions and lists of actions read back from their text.
ghost use Rattle.std.specs.Prelude.{◌≡◌, ◌↔◌, IfOk, IsTrue, OnErr, map, true};
ghost use Rattle.esc_actions.specs.Values.{value_of};
ghost use Rattle.esc_actions.specs.Writable.{AreWritable, IsWritable, is_within, stays_within};
ghost use Rattle.escape_stream.specs.Asked.{wants_text};
ghost use Rattle.fallible_alloc.specs.Refusals.{Refused};

use crate::clear::{cut_alone, is_clear, is_clear_string, is_datum};
use crate::reading_back::reads_back;
use esc_actions::Action;
use esc_device::DeviceControlMode;
use std::alloc::{AllocError, Allocator};

/// Returns whether the action is writable: its text, whatever follows it, reads back as the action.
/// A `PrintString` reads back as its characters, and is writable if it has one or more and all are
/// clear. An `Enter`, a byte of data and an `Exit` read back in a group, and only there.
///
/// Takes time and memory in proportion to the action's text, and frees all the memory again. A
/// character, a string, a control, a byte and an `Exit` take no memory. The error is that memory
/// was refused.
pub fn is_writable<A: Allocator + Copy>(alloc: A, action: &Action<A>) -> Result<bool, AllocError>
    ensures ok { IfOk result (λ b. IsTrue b ↔ IsWritable (value_of action.now)) }
    ensures refused { OnErr result (Refused A) }
    ensures asks { OnErr result (wants_text (value_of action.now) ≡ true) }
{
    match action {
        Action::Print(c) => Ok(is_clear(*c)),
        Action::PrintString(text) => Ok(is_clear_string(text.as_str())),
        Action::Control(code) => Ok(cut_alone(*code)),
        Action::DeviceControl(DeviceControlMode::Data(byte)) => Ok(is_datum(*byte)),
        Action::DeviceControl(DeviceControlMode::Exit) => Ok(true),
        Action::Esc(_)
        | Action::CSI(_)
        | Action::OperatingSystemCommand(_)
        | Action::KittyImage(_)
        | Action::Sixel(_)
        | Action::XtGetTcap(_)
        | Action::DeviceControl(DeviceControlMode::Enter(_))
        | Action::DeviceControl(DeviceControlMode::ShortDeviceControl(_)) => {
            reads_back(alloc, action)
        }
    }
}

/// Returns whether the list is writable: [`encode`](crate::encode) writes a text of it that reads
/// back as its normal list. Each of its actions is writable, and `Enter`, bytes of data and `Exit`
/// come in this order, as a group, and only so. The empty list is writable.
///
/// Takes time in proportion to the list's text, and no more memory than one action of it. The error
/// is that memory was refused.
pub fn are_writable<A: Allocator + Copy>(
    alloc: A,
    actions: &[Action<A>],
) -> Result<bool, AllocError>
    ensures ok { IfOk result (λ b. IsTrue b ↔ AreWritable (map value_of actions.now)) }
    ensures refused { OnErr result (Refused A) }
{
    let mut within = false;
    for action in actions {
        if !is_in_place(action, within) {
            return Ok(false);
        }
        if !is_writable(alloc, action)? {
            return Ok(false);
        }
        within = stays_within(action);
    }
    Ok(!within)
}

// Returns whether the action may come here; `within` says whether a mode is entered.
fn is_in_place<A: Allocator>(action: &Action<A>, within: bool) -> bool
    ensures { IsTrue result ↔ (is_within (value_of action.now) ≡ within) }
{
    is_within(action) == within
}

// Returns whether the action comes inside a mode, and nowhere else.
fn is_within<A: Allocator>(action: &Action<A>) -> bool
    ensures { result ≡ is_within (value_of action.now) }
{
    match action {
        Action::DeviceControl(DeviceControlMode::Data(_))
        | Action::DeviceControl(DeviceControlMode::Exit) => true,
        Action::DeviceControl(DeviceControlMode::Enter(_))
        | Action::DeviceControl(DeviceControlMode::ShortDeviceControl(_))
        | Action::Print(_)
        | Action::PrintString(_)
        | Action::Control(_)
        | Action::Esc(_)
        | Action::CSI(_)
        | Action::OperatingSystemCommand(_)
        | Action::KittyImage(_)
        | Action::Sixel(_)
        | Action::XtGetTcap(_) => false,
    }
}

// Returns whether a mode is entered after the action.
fn stays_within<A: Allocator>(action: &Action<A>) -> bool
    ensures { result ≡ stays_within (value_of action.now) }
{
    match action {
        Action::DeviceControl(DeviceControlMode::Enter(_))
        | Action::DeviceControl(DeviceControlMode::Data(_)) => true,
        Action::DeviceControl(DeviceControlMode::Exit)
        | Action::DeviceControl(DeviceControlMode::ShortDeviceControl(_))
        | Action::Print(_)
        | Action::PrintString(_)
        | Action::Control(_)
        | Action::Esc(_)
        | Action::CSI(_)
        | Action::OperatingSystemCommand(_)
        | Action::KittyImage(_)
        | Action::Sixel(_)
        | Action::XtGetTcap(_) => false,
    }
}
