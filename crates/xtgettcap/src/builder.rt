//! This module says how a termcap query is read, byte by byte.
ghost use Rattle.std.specs.Prelude.{◌≡◌, ◌<◌, length, ◌++◌, ◌∷◌, [], ℕ, List, OnOk, OnErr, IfOk, is_ok, if◌then◌else◌, map, ◌==◌};
ghost use Rattle.std.specs.List.{FoldsTo, slice_split};
ghost use Rattle.fallible_alloc.specs.Refusals.{Refused};
ghost use Rattle.xtgettcap.specs.Names.{HasConsumed, Pushes, names_of, name_of};

use crate::name::read_name;
use esc_values::{Items, Text};
use std::alloc::{AllocError, Allocator, Global};
use std::mem;

/// Reads the data of a termcap query: the names of capabilities, with `;` between them. No data is
/// one empty name.
///
/// A name that is hexadecimal with an even number of digits means the text of its bytes, any other
/// its own text; bytes in it that are not UTF-8 are read as U+FFFD.
#[derive(Drop)]
pub struct GetTcapBuilder<A: Allocator = Global> {
    alloc: A,
    bytes: Items<u8, A>,
}

impl<A: Allocator + Copy> GetTcapBuilder<A> {
    /// Returns a builder before any data. Takes no memory.
    #[tactic(auto, unfolding(crate::specs::Names::HasConsumed))]
    pub fn new(alloc: A) -> GetTcapBuilder<A>
        ensures { HasConsumed [] result }
    {
        GetTcapBuilder {
            alloc,
            bytes: Items::new(alloc),
        }
    }

    /// Takes one more byte of the data. The error is that memory was refused, and the builder stays
    /// as it was.
    #[tactic(auto, unfolding(crate::specs::Names::HasConsumed))]
    pub fn push(&mut self, byte: u8) -> Result<(), AllocError>
        ensures ok { (s : List ℕ) → HasConsumed s self.old
            → OnOk result (HasConsumed (s ++ byte ∷ []) self.new) }
        ensures err { OnErr result (self.new ≡ self.old) }
        ensures refused { OnErr result (Refused A) }
    {
        self.bytes.push(byte)
    }

    /// Takes these bytes of the data, with the effect of a `push` of each. The error is that memory
    /// was refused, and the builder stays as it was; it never comes for no bytes.
    #[tactic(auto, unfolding(crate::specs::Names::HasConsumed), using(crate::proofs::Runs::appended))]
    pub fn push_run(&mut self, bytes: &[u8]) -> Result<(), AllocError>
        ensures each { OnOk result (FoldsTo Pushes self.old bytes.now self.new) }
        ensures ok { (s : List ℕ) → HasConsumed s self.old
            → OnOk result (HasConsumed (s ++ bytes.now) self.new) }
        ensures err { OnErr result ((0 < length bytes.now) × (self.new ≡ self.old)) }
        ensures refused { OnErr result (Refused A) }
    {
        let empty = Items::new(self.alloc);
        let mut all = mem::replace(&mut self.bytes, empty).into_vec();
        let result = extend(&mut all, bytes);
        self.bytes = Items::from_vec(all);
        result
    }

    /// Returns the names that all bytes mean, at least one. The error is that memory was refused;
    /// then nothing is handed back.
    #[tactic(auto, unfolding(crate::specs::Names::HasConsumed))]
    pub fn finish(self) -> Result<Items<Text<A>, A>, AllocError>
        ensures ok { (s : List ℕ) → HasConsumed s self → IfOk result (λ ns. ns ≡ names_of s) }
        ensures refused { OnErr result (Refused A) }
    {
        let GetTcapBuilder { alloc, bytes } = self;
        let slices = split_at_separators(alloc, bytes.as_slice())?;
        read_names(alloc, slices.as_slice())
    }
}

// Appends bytes. For none it takes no memory.
fn extend<A: Allocator>(all: &mut Vec<u8, A>, bytes: &[u8]) -> Result<(), AllocError>
    ensures items { all.new.items
        ≡ (if is_ok result then all.old.items ++ bytes.now else all.old.items) }
    ensures some { OnErr result (0 < length bytes.now) }
    ensures refused { OnErr result (Refused A) }
{
    if bytes.is_empty() {
        return Ok(());
    }
    fallible_alloc::extend(all, bytes)
}

// Returns the slices between `;`.
fn split_at_separators<A: Allocator>(alloc: A, bytes: &[u8]) -> Result<Vec<&[u8], A>, AllocError>
    ensures ok { IfOk result (λ v.
        map (λ p. p.now) v.items ≡ slice_split (λ c. c == 0x3b) bytes.now) }
    ensures refused { OnErr result (Refused A) }
{
    fallible_alloc::collect(alloc, bytes.split(|b| *b == b';'))
}

// Returns the meaning of each slice.
fn read_names<A: Allocator + Copy>(
    alloc: A,
    slices: &[&[u8]],
) -> Result<Items<Text<A>, A>, AllocError>
    ensures ok { IfOk result (λ ns. ns ≡ map name_of (map (λ p. p.now) slices.now)) }
    ensures refused { OnErr result (Refused A) }
{
    let mut names = Vec::new(alloc);
    for slice in slices {
        let name = read_name(alloc, slice)?;
        fallible_alloc::push(&mut names, name)?;
    }
    Ok(Items::from_vec(names))
}
