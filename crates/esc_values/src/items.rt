//! A list, which contracts see as the list of its items.
ghost use Rattle.std.specs.Prelude.{◌≡◌, ◌<◌, ◌^◌, List, [], ◌∷◌, ◌++◌, length, IfOk, IsTrue, true, ◌↔◌, OnOk, OnErr, option_to_list, slice_get, slice_index_or};
ghost use Rattle.std.specs.List.{AllZip};
ghost use Rattle.std.specs.Option.{is_some, option_map};
ghost use Rattle.std.specs.Slice.Iter.{iter_rest};
ghost use Rattle.std.specs.Iterator.Adapters.{IterYieldsInOrder};
ghost use Rattle.std.specs.Iterator.Runs.{EveryRun, ItemsAre};
ghost use Rattle.std.specs.Vec.Iter.{into_iter_items, into_iter_len, into_iter_steps};
ghost use Rattle.std.specs.Cmp.Lexicographic.{pointwise, lists_per, lists_equiv};
ghost use Rattle.fallible_alloc.specs.Refusals.{Refused};

use std::alloc::{AllocError, Allocator, Global};
use std::convert::AsSlice;
use std::marker::Model;
use std::ops::{AsDeref, DerefSlice, Index};
use std::{fmt, slice, vec};

/// A list. It is made from a `Vec`, and gives it back, without a copy. Contracts see its items.
#[derive(Drop)]
pub struct Items<T, A: Allocator = Global> {
    vec: Vec<T, A>,
}

impl<T, A: Allocator> Model for Items<T, A> {
    ghost use Rattle.std.specs.Prelude.{List};
    ghost use Rattle.std.specs.Coded.{coded_list};

    ghost Value = { List T };

    ghost coded = { coded_list T.code };

    ghost view = { λ v. v.vec.items };
}

impl<T, A: Allocator> Items<T, A> {
    /// Returns no items.
    pub fn new(alloc: A) -> Items<T, A>
        ensures { result ≡ [] }
    {
        Items {
            vec: Vec::new(alloc),
        }
    }

    /// Returns the items of a `Vec`, without a copy.
    pub fn from_vec(vec: Vec<T, A>) -> Items<T, A>
        ensures { result ≡ vec.items }
    {
        Items { vec }
    }

    /// Returns the `Vec` of these items, without a copy.
    pub fn into_vec(self) -> Vec<T, A>
        ensures { result.items ≡ self }
    {
        let Items { vec } = self;
        vec
    }

    /// Returns these items.
    pub fn as_slice(&self) -> &[T]
        ensures { result.now ≡ self.now }
    {
        self.vec.as_slice()
    }

    /// Returns how many items it has.
    pub fn len(&self) -> usize
        ensures { result ≡ length self.now }
    {
        self.vec.len()
    }

    /// Returns whether it has no items.
    pub fn is_empty(&self) -> bool
        ensures { IsTrue result ↔ (self.now ≡ []) }
    {
        self.vec.is_empty()
    }

    /// Returns its items one after another, from the first.
    pub fn iter(&self) -> slice::Iter<'_, T>
        ensures rest { iter_rest result ≡ self.now }
        ensures runs { IterYieldsInOrder T }
    {
        self.vec.as_slice().iter()
    }

    /// Appends an item. The error is that memory was refused, and the items stay as they were.
    #[inline(always)]
    pub fn push(&mut self, item: T) -> Result<(), AllocError>
    where
        T: Drop,
        ensures ok { OnOk result (self.new ≡ self.old ++ item ∷ []) }
        ensures err { OnErr result (self.new ≡ self.old) }
        ensures refused { OnErr result (Refused A) }
    {
        if self.vec.len() == self.vec.capacity() {
            fallible_alloc::reserve(&mut self.vec, 1)?;
        }
        self.vec.push_reserved(item);
        Ok(())
    }

    /// Appends an item, if there is one, and takes memory only then. The error is that it was
    /// refused, and the items stay as they were.
    pub fn push_optional(&mut self, item: Option<T>) -> Result<(), AllocError>
    where
        T: Drop,
        ensures ok { OnOk result (self.new ≡ self.old ++ option_to_list item) }
        ensures err { OnErr result (self.new ≡ self.old) }
        ensures refused { OnErr result (Refused A) }
        ensures asks { OnErr result (is_some item ≡ true) }
    {
        match item {
            Some(item) => self.push(item),
            None => Ok(()),
        }
    }

    /// Appends an item, and another, if there is one. Memory for both is taken first. The error is
    /// that it was refused, and the items stay as they were.
    pub fn push_two(&mut self, first: T, second: Option<T>) -> Result<(), AllocError>
    where
        T: Drop,
        ensures ok { OnOk result (self.new ≡ self.old ++ first ∷ option_to_list second) }
        ensures err { OnErr result (self.new ≡ self.old) }
        ensures refused { OnErr result (Refused A) }
    {
        let Some(second) = second else {
            return self.push(first);
        };
        fallible_alloc::reserve(&mut self.vec, 2)?;
        self.vec.push_reserved(first);
        self.vec.push_reserved(second);
        Ok(())
    }

    /// Drops all items, and then has the one that is given, if there is one. Memory for it is taken
    /// first, and none if there is none. The error is that it was refused, and the items stay as
    /// they were.
    pub fn restart(&mut self, item: Option<T>) -> Result<(), AllocError>
    where
        T: Drop,
        ensures ok { OnOk result (self.new ≡ option_to_list item) }
        ensures err { OnErr result (self.new ≡ self.old) }
        ensures refused { OnErr result (Refused A) }
        ensures asks { OnErr result (is_some item ≡ true) }
    {
        let Some(item) = item else {
            self.vec.clear();
            return Ok(());
        };
        fallible_alloc::reserve(&mut self.vec, 1)?;
        self.vec.clear();
        self.vec.push_reserved(item);
        Ok(())
    }
}

impl<T: Copy, A: Allocator> Items<T, A> {
    /// Returns a copy of `items`. The error is that memory was refused.
    pub fn from_slice(alloc: A, items: &[T]) -> Result<Items<T, A>, AllocError>
        ensures ok { IfOk result (λ v. v ≡ items.now) }
        ensures refused { OnErr result (Refused A) }
    {
        Ok(Items {
            vec: fallible_alloc::copied(alloc, items)?,
        })
    }
}

impl<T, A: Allocator> Items<T, A> {
    /// Returns the item at this place, counted from 0; none past the last.
    pub fn get(&self, index: usize) -> Option<&T>
        ensures { option_map (λ x. x.now) result ≡ slice_get self.now index }
    {
        self.as_slice().get(index)
    }
}

/// A list goes wherever a slice does, and has its methods.
impl<T, A: Allocator> DerefSlice for Items<T, A> {
    type Elem = T;

    ghost deref_gives = { λ v xs. xs ≡ v };

    fn deref(&self) -> &[T] {
        self.as_slice()
    }
}

impl<'a, T: 'a, A: Allocator + 'a> AsDeref<'a> for Items<T, A> {
    type Shown = &'a [T];

    ghost as_deref_gives = { λ v s. s.now ≡ v };

    ghost View = { List T };

    ghost view = { λ v. v };

    ghost output_view = { λ s. s.now };

    fn shown(&'a self) -> &'a [T] {
        self.as_slice()
    }
}

impl<T, A: Allocator> AsSlice<T> for Items<T, A> {
    ghost items = { λ v. v };

    fn as_slice(&self) -> &[T] {
        self.as_slice()
    }
}

/// The item at a place, counted from 0, which has to be there.
impl<T, A: Allocator> Index<usize> for Items<T, A> {
    type Output = T;

    ghost can_index = { λ v i. i < length v };

    ghost index_gives = { λ v i x. x ≡ slice_index_or v i x };

    fn index(&self, index: usize) -> &T {
        &self.as_slice()[index]
    }
}

/// A copy of each item, in memory of the same allocator. The error is that memory was refused.
impl<T: Clone, A: Allocator + Clone> Clone for Items<T, A> {
    ghost is_clone = { λ v copy. AllZip T.is_clone v copy };

    fn clone(&self) -> Result<Items<T, A>, AllocError> {
        Ok(Items {
            vec: self.vec.clone()?,
        })
    }
}

/// Gives the items themselves, from the first.
impl<T: Drop, A: Allocator> IntoIterator for Items<T, A> {
    type Item = T;

    type IntoIter = vec::IntoIter<T, A>;

    ghost into_iter_gives = { λ v r. (into_iter_items r ≡ v) × (into_iter_len r ≡ length v)
        × (into_iter_len r < 2 ^ 64)
        × EveryRun (into_iter_steps {X = T} {Z = A}) (λ p. ItemsAre p (into_iter_items p.from)) };

    fn into_iter(self) -> vec::IntoIter<T, A> {
        self.into_vec().into_iter()
    }
}

impl<'a, T, A: Allocator> IntoIterator for &'a Items<T, A> {
    type Item = &'a T;

    type IntoIter = slice::Iter<'a, T>;

    ghost into_iter_gives = { λ v it. (iter_rest it ≡ v.now) × (length (iter_rest it) < 2 ^ 64)
        × IterYieldsInOrder T };

    fn into_iter(self) -> slice::Iter<'a, T> {
        self.iter()
    }
}

impl<T, A: Allocator> From<Vec<T, A>> for Items<T, A> {
    ghost from_gives = { λ s t. t ≡ s.items };

    fn from(vec: Vec<T, A>) -> Items<T, A> {
        Items::from_vec(vec)
    }
}

impl<T, A: Allocator> From<Items<T, A>> for Vec<T, A> {
    ghost from_gives = { λ s t. t.items ≡ s };

    fn from(items: Items<T, A>) -> Vec<T, A> {
        items.into_vec()
    }
}

impl<T: PartialEq, A: Allocator> PartialEq for Items<T, A> {
    ghost eq = { pointwise T.eq };

    ghost laws = { lists_per T.laws };

    fn eq(&self, other: &Self) -> bool {
        self.as_slice() == other.as_slice()
    }
}

impl<T: Eq, A: Allocator> Eq for Items<T, A> {
    ghost laws = { lists_equiv T.Eq.laws };
}

/// Writes the items as the Debug of a slice does.
impl<T: fmt::Debug, A: Allocator> fmt::Debug for Items<T, A> {
    fn fmt<W: fmt::Write>(&self, f: &mut fmt::Formatter<W>) -> fmt::Result {
        fmt::Debug::fmt(&self.vec, f)
    }
}
