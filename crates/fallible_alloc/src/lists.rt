//! Lists and boxes. An error is that memory was refused.
ghost use Rattle.std.specs.Prelude.{⊤, List, ◌≡◌, ◌+◌, ◌++◌, ◌∷◌, ◌≤◌, [], length, is_ok, if◌then◌else◌, IfOk, IfErr, OnOk, OnErr, vec_len, vec_capacity};
ghost use Rattle.std.specs.Iterator.{DrainsIf, IsFinite};
ghost use Rattle.std.specs.Iterator.Runs.{WholeRun};
ghost use Rattle.fallible_alloc.specs.Lists.{IsUnchanged};
ghost use Rattle.fallible_alloc.specs.Refusals.{Refused};

use crate::answered::answered;
use std::alloc::{AllocError, AllocFailed, Allocator};

/// Says how many bytes one read takes at most.
pub const READ_BUFFER: usize = 65_536;

/// Appends a value, or hands it back.
#[inline(always)]
pub fn push<T, A: Allocator>(vec: &mut Vec<T, A>, value: T) -> Result<(), AllocFailed<T>>
    ensures items { vec.new.items
        ≡ (if is_ok result then vec.old.items ++ value ∷ [] else vec.old.items) }
    ensures handed_back { IfErr result (λ failed. failed.value ≡ value) }
    ensures refused { OnErr result (Refused A) }
{
    answered::<_, _, A>(vec.push(value))
}

/// Appends a slice.
#[inline(always)]
pub fn extend<T: Copy, A: Allocator>(vec: &mut Vec<T, A>, more: &[T]) -> Result<(), AllocError>
    ensures items { vec.new.items
        ≡ (if is_ok result then vec.old.items ++ more.now else vec.old.items) }
    ensures refused { OnErr result (Refused A) }
{
    answered::<_, _, A>(vec.extend_from_slice(more))
}

/// Makes room for a few more values.
#[inline(always)]
pub fn reserve<T, A: Allocator>(vec: &mut Vec<T, A>, additional: usize) -> Result<(), AllocError>
    requires { additional ≤ 16 }
    ensures unchanged { IsUnchanged vec.old vec.new }
    ensures ok { OnOk result (vec_len vec.new + additional ≤ vec_capacity vec.new) }
    ensures refused { OnErr result (Refused A) }
{
    answered::<_, _, A>(vec.reserve(additional))
}

/// Makes room for as many more values as this slice has, and for a few others.
#[inline(always)]
pub fn reserve_for<T, U, A: Allocator>(
    vec: &mut Vec<T, A>,
    like: &[U],
    others: usize,
) -> Result<(), AllocError>
    requires few { others ≤ 16 }
    ensures unchanged { IsUnchanged vec.old vec.new }
    ensures ok { OnOk result (vec_len vec.new + (length like.now + others) ≤ vec_capacity vec.new) }
    ensures refused { OnErr result (Refused A) }
{
    answered::<_, _, A>(vec.reserve(like.len().saturating_add(others)))
}

/// Zeros to read into: as many as one read takes at most.
#[inline(always)]
pub fn read_buffer<A: Allocator>(alloc: A) -> Result<Vec<u8, A>, AllocError>
    ensures len { IfOk result (λ v. length v.items ≡ READ_BUFFER) }
    ensures refused { OnErr result (Refused A) }
{
    answered::<_, _, A>(vec![in alloc; 0u8; READ_BUFFER])
}

/// Returns a copy of a slice.
#[inline(always)]
pub fn copied<T: Copy, A: Allocator>(alloc: A, items: &[T]) -> Result<Vec<T, A>, AllocError>
    ensures ok { IfOk result (λ v. v.items ≡ items.now) }
    ensures refused { OnErr result (Refused A) }
{
    answered::<_, _, A>(Vec::from_slice(alloc, items))
}

/// Returns the items of an iterator.
#[inline(always)]
pub fn collect<I: Iterator + Drop, A: Allocator>(
    alloc: A,
    items: I,
) -> Result<Vec<I::Item, A>, AllocError>
where
    I::Item: Drop,
    requires { I.can_next items × IsFinite (I.remaining items) }
    ensures ran { IfOk result (λ v. (xs : List I.Item) × DrainsIf I.next_gives ⊤ items xs
        × ((v.items ≡ xs) × (vec_len v ≡ length xs))) }
    ensures runs { IfOk result (λ v. WholeRun I.next_gives items (λ p. (v.items ≡ p.items)
        × (vec_len v ≡ length p.items))) }
    ensures refused { OnErr result (Refused A) }
{
    answered::<_, _, A>(items.collect(alloc))
}

/// Returns a value in a box, or the value back.
#[inline(always)]
pub fn boxed<T, A: Allocator>(alloc: A, value: T) -> Result<Box<T, A>, AllocFailed<T>>
    ensures value { IfOk result (λ boxed. boxed.value ≡ value) }
    ensures handed_back { IfErr result (λ failed. failed.value ≡ value) }
    ensures refused { OnErr result (Refused A) }
{
    answered::<_, _, A>(Box::new(alloc, value))
}
