//! Sixel images.
ghost use Rattle.std.specs.Prelude.{◌≡◌, ◌↔◌, IsTrue};

use esc_sixel::{Sixel, SixelData};
use std::alloc::Allocator;

/// Returns whether two parts of sixel data are the same.
pub fn same_sixel_data(a: &SixelData, b: &SixelData) -> bool
    ensures { IsTrue result ↔ (a.now ≡ b.now) }
{
    a == b
}

/// Returns whether two sixel images are the same.
pub fn same_sixel<A: Allocator>(a: &Sixel<A>, b: &Sixel<A>) -> bool
    ensures { IsTrue result ↔ (a.now ≡ b.now) }
{
    a == b
}
