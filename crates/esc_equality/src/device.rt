//! Short controls and modes.
ghost use Rattle.std.specs.Prelude.{◌≡◌, ◌↔◌, IsTrue};
ghost use Rattle.esc_actions.specs.Values.{device_value};

use esc_device::{DeviceControlMode, EnterDeviceControlMode, ShortDeviceControl};
use std::alloc::Allocator;

/// Returns whether two headers of a mode are the same.
pub fn same_enter<A: Allocator>(
    a: &EnterDeviceControlMode<A>,
    b: &EnterDeviceControlMode<A>,
) -> bool
    ensures { IsTrue result ↔ (a.now ≡ b.now) }
{
    a == b
}

/// Returns whether two short controls are the same.
pub fn same_short<A: Allocator>(a: &ShortDeviceControl<A>, b: &ShortDeviceControl<A>) -> bool
    ensures { IsTrue result ↔ (a.now ≡ b.now) }
{
    a == b
}

/// Returns whether two short controls or steps of a mode are the same.
pub fn same_device<A: Allocator>(a: &DeviceControlMode<A>, b: &DeviceControlMode<A>) -> bool
    ensures { IsTrue result ↔ (device_value a.now ≡ device_value b.now) }
{
    a == b
}
