//! The state that is kept of an unfinished sixel image. An error is that memory was refused.
ghost use Rattle.std.specs.Prelude.{◌≡◌, ℕ, ℤ, List, [], ◌∷◌, ◌++◌, IfOk, OnErr, OnOk};
ghost use Rattle.std.specs.List.{FoldsTo};
ghost use Rattle.esc_sixel.specs.Items.{items};
ghost use Rattle.esc_sixel.specs.Meaning.{sixel_of};
ghost use Rattle.esc_parse.specs.Sixels.{Holds, Pushes};
ghost use Rattle.fallible_alloc.specs.Refusals.{Refused};

use esc_sixel::{Sixel, SixelBuilder};
use esc_values::Items;
use std::alloc::{AllocError, Allocator, Global};
use std::mem;

/// The parameters of a sixel image and its data, as it came: the image is made at the end, and only
/// for a sink that takes images.
#[derive(Drop)]
pub struct SixelText<A: Allocator = Global> {
    alloc: A,
    // the parameters, before any data
    header: SixelBuilder<A>,
    data: Items<u8, A>,
}

impl<A: Allocator + Copy> SixelText<A> {
    /// Returns an image with these parameters, before any data. Takes no memory.
    #[tactic(auto, unfolding(crate::specs::Sixels::Holds))]
    pub fn new(alloc: A, params: &[i64]) -> SixelText<A>
        ensures { Holds params.now [] result }
    {
        SixelText {
            alloc,
            header: SixelBuilder::new(alloc, params),
            data: Items::new(alloc),
        }
    }

    /// Takes one more byte of the data.
    #[tactic(auto, unfolding(crate::specs::Sixels::Holds))]
    pub fn push(&mut self, byte: u8) -> Result<(), AllocError>
        ensures ok { (ps : List ℤ) (s : List ℕ) → Holds ps s self.old
            → OnOk result (Holds ps (s ++ byte ∷ []) self.new) }
        ensures refused { OnErr result (Refused A) }
    {
        self.data.push(byte)
    }

    /// More bytes of the data, with the effect of a `push` of each.
    #[tactic(auto, using(crate::proofs::Runs::RunsOfSixels::appended))]
    pub fn push_run(&mut self, bytes: &[u8]) -> Result<(), AllocError>
        ensures ok { OnOk result (FoldsTo Pushes self.old bytes.now self.new) }
        ensures refused { OnErr result (Refused A) }
    {
        let empty = Items::new(self.alloc);
        let mut all = mem::replace(&mut self.data, empty).into_vec();
        let result = fallible_alloc::extend(&mut all, bytes);
        self.data = Items::from_vec(all);
        result
    }

    /// Returns the image that the parameters and all bytes mean.
    #[tactic(auto, unfolding(crate::specs::Sixels::Holds))]
    pub fn finish(self) -> Result<Sixel<A>, AllocError>
        ensures ok { (ps : List ℤ) (s : List ℕ) → Holds ps s self
            → IfOk result (λ x. x ≡ sixel_of ps (items s)) }
        ensures refused { OnErr result (Refused A) }
    {
        let SixelText {
            alloc: _,
            header: mut builder,
            data,
        } = self;
        builder.push_run(data.as_slice())?;
        builder.finish()?;
        Ok(builder.sixel)
    }
}
