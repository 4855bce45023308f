//! This module says how a short device control is read, byte by byte.
ghost use Rattle.std.specs.Prelude.{◌≡◌, ◌<◌, ◌++◌, ◌∷◌, [], ℕ, ℤ, List, IfOk, OnOk, OnErr, length, take};
ghost use Rattle.std.specs.List.{FoldsTo};
ghost use Rattle.fallible_alloc.specs.Refusals.{Refused};
ghost use Rattle.esc_device.specs.Leads.{LeadsShort, Pushes};
ghost use Rattle.esc_device.specs.Values.{short_of};

use crate::short::ShortDeviceControl;
use esc_values::Items;
use std::alloc::{AllocError, Allocator, Global};

/// Reads a short device control: its header, and then its data byte by byte.
#[derive(Drop)]
pub struct ShortBuilder<A: Allocator = Global> {
    short: ShortDeviceControl<A>,
}

impl<A: Allocator + Copy> ShortBuilder<A> {
    /// Returns a builder of a control with copies of these parameters and intermediates and with
    /// this final byte, before any data. The error is that memory was refused.
    #[tactic(auto, unfolding(crate::specs::Leads::LeadsShort))]
    pub fn new(
        alloc: A,
        params: &[i64],
        intermediates: &[u8],
        byte: u8,
    ) -> Result<ShortBuilder<A>, AllocError>
        ensures ok { IfOk result (λ b. LeadsShort params.now intermediates.now byte [] b) }
        ensures refused { OnErr result (Refused A) }
    {
        Ok(ShortBuilder {
            short: ShortDeviceControl {
                params: Items::from_slice(alloc, params)?,
                intermediates: Items::from_slice(alloc, intermediates)?,
                byte,
                content: Items::new(alloc),
            },
        })
    }
}

impl<A: Allocator> ShortBuilder<A> {
    /// Takes one more byte of the data. The error is that memory was refused, and the builder stays
    /// as it was.
    #[tactic(auto, unfolding(crate::specs::Leads::LeadsShort))]
    pub fn push(&mut self, byte: u8) -> Result<(), AllocError>
        ensures ok { (ps : List ℤ) (is : List ℕ) (f : ℕ) (d : List ℕ)
            → LeadsShort ps is f d self.old
            → OnOk result (LeadsShort ps is f (d ++ byte ∷ []) self.new) }
        ensures err { OnErr result (self.new ≡ self.old) }
        ensures refused { OnErr result (Refused A) }
    {
        self.short.content.push(byte)
    }

    /// Takes these bytes of the data, with the effect of a `push` of each. The error is that memory
    /// was refused; the builder has then taken those before the byte that needed it, and no more.
    pub fn push_run(&mut self, bytes: &[u8]) -> Result<(), AllocError>
        ensures each { OnOk result (FoldsTo Pushes self.old bytes.now self.new) }
        ensures ok { (ps : List ℤ) (is : List ℕ) (f : ℕ) (d : List ℕ)
            → LeadsShort ps is f d self.old
            → OnOk result (LeadsShort ps is f (d ++ bytes.now) self.new) }
        ensures err { (ps : List ℤ) (is : List ℕ) (f : ℕ) (d : List ℕ)
            → LeadsShort ps is f d self.old
            → OnErr result ((n : ℕ) × (n < length bytes.now)
            × LeadsShort ps is f (d ++ take n bytes.now) self.new) }
        ensures refused { OnErr result (Refused A) }
    {
        for byte in bytes {
            self.push(*byte)?;
        }
        Ok(())
    }

    /// Returns the control of the header and all bytes. Takes no memory.
    #[tactic(auto, unfolding(crate::specs::Leads::LeadsShort))]
    pub fn finish(self) -> ShortDeviceControl<A>
        ensures { (ps : List ℤ) (is : List ℕ) (f : ℕ) (d : List ℕ) → LeadsShort ps is f d self
            → result ≡ short_of ps is f d }
    {
        let ShortBuilder { short } = self;
        short
    }
}
