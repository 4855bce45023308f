//! Laws of images say that a written image reads back, that a read image can be written, and that
//! keys are written in order.
ghost use Rattle.std.specs.Prelude.{◌≡◌, ℕ, true, List, Some};
ghost use Rattle.std.specs.List.{list_all};
ghost use Rattle.esc_values.specs.Fields.{ascends};
ghost use Rattle.esc_kitty.specs.Images.{image_of};
ghost use Rattle.esc_kitty.specs.Texts.{image_keys};
ghost use Rattle.esc_kitty.specs.Writable.{is_kept, IsWritableImage, ReadsBack};
ghost use Rattle.esc_kitty.specs.declared.image.KittyImage.{KittyImage};

use std::alloc::Allocator;

/// A writable image writes, after `ESC _`, bytes from space to U+007F alone, so nothing that ends
/// the command; and they are read as the image.
#[tactic(auto, using(crate::proofs::ImagesBack::reads_back))]
pub fn reads_back<A: Allocator>()
    ensures { (i : KittyImage A) → IsWritableImage i → ReadsBack i }
{}

/// An image that bytes from space to U+007F are read as is writable.
#[tactic(auto, using(crate::proofs::ImagesWritable::kept_is_writable))]
pub fn kept_is_writable<A: Allocator>()
    ensures { (bs : List ℕ) → list_all is_kept bs ≡ true → (i : KittyImage A) → image_of bs ≡ Some i
        → IsWritableImage i }
{}

/// The keys of an image are written in the order of their bytes, each once.
#[tactic(auto, using(crate::proofs::KeysAscend::keys_ascend))]
pub fn keys_ascend<A: Allocator>()
    ensures { (i : KittyImage A) → ascends (image_keys i) ≡ true }
{}
