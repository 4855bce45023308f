//! Kitty images.
ghost use Rattle.std.specs.Prelude.{◌≡◌, ◌↔◌, IsTrue};

use esc_kitty::{
    KittyFrameCompositionMode, KittyImage, KittyImageCompression, KittyImageData, KittyImageDelete,
    KittyImageFormat, KittyImageFrame, KittyImageFrameCompose, KittyImagePlacement,
    KittyImageTransmit, KittyImageVerbosity,
};
use std::alloc::Allocator;

/// Returns whether two ways to compose frames are the same.
pub fn same_composition_mode(a: &KittyFrameCompositionMode, b: &KittyFrameCompositionMode) -> bool
    ensures { IsTrue result ↔ (a.now ≡ b.now) }
{
    a == b
}

/// Returns whether two compressions are the same.
pub fn same_compression(a: &KittyImageCompression, b: &KittyImageCompression) -> bool
    ensures { IsTrue result ↔ (a.now ≡ b.now) }
{
    a == b
}

/// Returns whether two formats of pixels are the same.
pub fn same_format(a: &KittyImageFormat, b: &KittyImageFormat) -> bool
    ensures { IsTrue result ↔ (a.now ≡ b.now) }
{
    a == b
}

/// Returns whether two verbosities are the same.
pub fn same_verbosity(a: &KittyImageVerbosity, b: &KittyImageVerbosity) -> bool
    ensures { IsTrue result ↔ (a.now ≡ b.now) }
{
    a == b
}

/// Returns whether two contents of images are the same.
pub fn same_image_data<A: Allocator>(a: &KittyImageData<A>, b: &KittyImageData<A>) -> bool
    ensures { IsTrue result ↔ (a.now ≡ b.now) }
{
    a == b
}

/// Returns whether two deletions are the same.
pub fn same_delete(a: &KittyImageDelete, b: &KittyImageDelete) -> bool
    ensures { IsTrue result ↔ (a.now ≡ b.now) }
{
    a == b
}

/// Returns whether two frames are the same.
pub fn same_frame(a: &KittyImageFrame, b: &KittyImageFrame) -> bool
    ensures { IsTrue result ↔ (a.now ≡ b.now) }
{
    a == b
}

/// Returns whether two compositions of frames are the same.
pub fn same_compose(a: &KittyImageFrameCompose, b: &KittyImageFrameCompose) -> bool
    ensures { IsTrue result ↔ (a.now ≡ b.now) }
{
    a == b
}

/// Returns whether two placements are the same.
pub fn same_placement(a: &KittyImagePlacement, b: &KittyImagePlacement) -> bool
    ensures { IsTrue result ↔ (a.now ≡ b.now) }
{
    a == b
}

/// Returns whether two images on their way to the terminal are the same.
pub fn same_transmit<A: Allocator>(a: &KittyImageTransmit<A>, b: &KittyImageTransmit<A>) -> bool
    ensures { IsTrue result ↔ (a.now ≡ b.now) }
{
    a == b
}

/// Returns whether two commands of kitty's graphics protocol are the same.
pub fn same_kitty_image<A: Allocator>(a: &KittyImage<A>, b: &KittyImage<A>) -> bool
    ensures { IsTrue result ↔ (a.now ≡ b.now) }
{
    a == b
}
