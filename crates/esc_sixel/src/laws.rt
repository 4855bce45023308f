//! Laws of sixel images: the items of data are a cut of it, an image that is written reads back,
//! one that is read can be written, and the bytes that take memory.
ghost use Rattle.std.specs.Prelude.{ℕ, ℤ, List};
ghost use Rattle.esc_sixel.specs.Items.{IsCut, items};
ghost use Rattle.esc_sixel.specs.Meaning.{sixel_of};
ghost use Rattle.esc_sixel.specs.Steps.{Open, WantsForData};
ghost use Rattle.esc_sixel.specs.Writable.{AreNatural, IsWritable, WritesBack};
ghost use Rattle.esc_sixel.specs.declared.class.Class.{Class};
ghost use Rattle.esc_sixel.specs.declared.sixel.Sixel.{Sixel};

use std::alloc::Allocator;

/// The items of any data, joined, are the data.
#[tactic(auto, using(crate::proofs::Bytes::ItemsAreCut::is_cut))]
pub fn is_cut()
    ensures { (bs : List ℕ) → IsCut bs }
{}

/// A writable image is written as `ESC P`, parameters, `q` and data, which mean the same image.
pub fn writes_back<A: Allocator>()
    ensures { (s : Sixel A) → IsWritable s → WritesBack s }
{}

/// The meaning of any data after parameters that are not negative is writable.
pub fn data_is_writable<A: Allocator>()
    ensures { (ps : List ℤ) (bs : List ℕ) → AreNatural ps
        → IsWritable (sixel_of {A = A} ps (items bs)) }
{}

/// A byte takes memory exactly if the items that it closes give data.
#[tactic(auto, using(crate::proofs::Bytes::BytesThatTakeMemory::wants_for_data))]
pub fn wants_for_data()
    ensures { (o : Open) (c : Class) (b : ℕ) → WantsForData o c b }
{}
