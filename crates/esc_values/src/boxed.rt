//! A value on the heap, which contracts see as the value itself.
ghost use Rattle.std.specs.Prelude.{◌≡◌, IfOk, OnErr};
ghost use Rattle.fallible_alloc.specs.Refusals.{Refused};

use std::alloc::{AllocError, Allocator, Global};
use std::convert::AsRef;
use std::fmt;
use std::marker::Model;
use std::ops::Deref;

/// A value that lies on the heap, so that an enum that holds it stays small. It is made from a
/// `Box`, and gives it back, without moving the value. Contracts see the value.
#[derive(Drop)]
pub struct Boxed<T, A: Allocator = Global> {
    held: Box<T, A>,
}

impl<T, A: Allocator> Model for Boxed<T, A> {
    ghost Value = { T };

    ghost coded = { T.code };

    ghost view = { λ b. b.held.value };
}

impl<T: Drop, A: Allocator> Boxed<T, A> {
    /// Puts the value on the heap. The error is that memory was refused, and the value is dropped.
    pub fn new(alloc: A, value: T) -> Result<Boxed<T, A>, AllocError>
        ensures ok { IfOk result (λ b. b ≡ value) }
        ensures refused { OnErr result (Refused A) }
    {
        Ok(Boxed {
            held: fallible_alloc::boxed(alloc, value)?,
        })
    }
}

impl<T, A: Allocator> Boxed<T, A> {
    /// Returns the value of a `Box`, which stays at its place.
    pub fn from_box(held: Box<T, A>) -> Boxed<T, A>
        ensures { result ≡ held.value }
    {
        Boxed { held }
    }

    /// Returns the `Box` of this value, which stays at its place.
    pub fn into_box(self) -> Box<T, A>
        ensures { result.value ≡ self }
    {
        let Boxed { held } = self;
        held
    }

    /// Returns the value itself, which no longer lies on the heap.
    pub fn into_inner(self) -> T
        ensures { result ≡ self }
    {
        Box::into_inner(self.into_box())
    }

    /// This value.
    pub fn as_ref(&self) -> &T
        ensures { result.now ≡ self.now }
    {
        &self.held
    }
}

/// A boxed value goes wherever a reference to the value does, and has its methods and fields.
impl<T, A: Allocator> Deref for Boxed<T, A> {
    type Target = T;

    ghost deref_gives = { λ b x. x ≡ b };

    fn deref(&self) -> &T {
        self.as_ref()
    }
}

impl<T, A: Allocator> AsRef<T> for Boxed<T, A> {
    fn as_ref(&self) -> &T
        ensures { result.now ≡ self.now }
    {
        self.as_ref()
    }
}

impl<T, A: Allocator> From<Box<T, A>> for Boxed<T, A> {
    ghost from_gives = { λ s t. t ≡ s.value };

    fn from(held: Box<T, A>) -> Boxed<T, A> {
        Boxed::from_box(held)
    }
}

impl<T, A: Allocator> From<Boxed<T, A>> for Box<T, A> {
    ghost from_gives = { λ s t. t.value ≡ s };

    fn from(boxed: Boxed<T, A>) -> Box<T, A> {
        boxed.into_box()
    }
}

impl<T: PartialEq, A: Allocator> PartialEq for Boxed<T, A> {
    ghost eq = { T.eq };

    ghost laws = { T.laws };

    fn eq(&self, other: &Self) -> bool {
        self.as_ref() == other.as_ref()
    }
}

impl<T: Eq, A: Allocator> Eq for Boxed<T, A> {
    ghost laws = { T.Eq.laws };
}

/// Writes the value as its own Debug does.
impl<T: fmt::Debug, A: Allocator> fmt::Debug for Boxed<T, A> {
    fn fmt<W: fmt::Write>(&self, f: &mut fmt::Formatter<W>) -> fmt::Result {
        fmt::Debug::fmt(self.as_ref(), f)
    }
}
