//! Operating system commands.
ghost use Rattle.std.specs.Prelude.{◌≡◌, ◌↔◌, IsTrue};

use esc_osc::{
    ChangeColorPair, Color16, ColorOrQuery, DynamicColorNumber, OperatingSystemCommand,
    OperatingSystemCommandCode, Progress, Selection,
};
use std::alloc::Allocator;

/// Returns whether two codes of commands are the same.
pub fn same_code(a: &OperatingSystemCommandCode, b: &OperatingSystemCommandCode) -> bool
    ensures { IsTrue result ↔ (a.now ≡ b.now) }
{
    a == b
}

/// Returns whether two sets of selections are the same.
pub fn same_selection(a: &Selection, b: &Selection) -> bool
    ensures { IsTrue result ↔ (a.now ≡ b.now) }
{
    a == b
}

/// Returns whether two colours of 16 bits a channel are the same.
pub fn same_color16(a: &Color16, b: &Color16) -> bool
    ensures { IsTrue result ↔ (a.now ≡ b.now) }
{
    a == b
}

/// Returns whether two colours or queries are the same.
pub fn same_color_or_query(a: &ColorOrQuery, b: &ColorOrQuery) -> bool
    ensures { IsTrue result ↔ (a.now ≡ b.now) }
{
    a == b
}

/// Returns whether two colours with their places in the palette are the same.
pub fn same_color_pair(a: &ChangeColorPair, b: &ChangeColorPair) -> bool
    ensures { IsTrue result ↔ (a.now ≡ b.now) }
{
    a == b
}

/// Returns whether two dynamic colours are the same.
pub fn same_dynamic_color_number(a: &DynamicColorNumber, b: &DynamicColorNumber) -> bool
    ensures { IsTrue result ↔ (a.now ≡ b.now) }
{
    a == b
}

/// Returns whether two states of progress are the same.
pub fn same_progress(a: &Progress, b: &Progress) -> bool
    ensures { IsTrue result ↔ (a.now ≡ b.now) }
{
    a == b
}

/// Returns whether two commands are the same.
pub fn same_command<A: Allocator>(
    a: &OperatingSystemCommand<A>,
    b: &OperatingSystemCommand<A>,
) -> bool
    ensures { IsTrue result ↔ (a.now ≡ b.now) }
{
    a == b
}
