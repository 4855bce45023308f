//! A text, which contracts see as its UTF-8 bytes.
ghost use Rattle.std.specs.Prelude.{◌≡◌, ℕ, List, [], length, nat_eq, IfOk, IfSome, IsTrue, ◌↔◌, string_bytes, Some, ◌++◌, OnOk, OnErr, refl};
ghost use Rattle.std.specs.Char.{encode_utf8};
ghost use Rattle.std.specs.Cmp.Lexicographic.{pointwise, slice_cmp, nat_list_eq_equiv, nat_list_cmp_total, texts_po, texts_ties};
ghost use Rattle.std.specs.Cmp.{partial_equiv_from_equiv};
ghost use Rattle.std.specs.Cmp.Rules.{hashing};
ghost use Rattle.std.specs.Hash as fed;
ghost use Rattle.std.specs.Ordering.{nat_cmp};
ghost use Rattle.std.proofs.Common.{rules};
ghost use Rattle.fallible_alloc.specs.Refusals.{Refused};

use std::alloc::{AllocError, Allocator, Global};
use std::cmp::Ordering;
use std::convert::{AsSlice, AsStr};
use std::fmt;
use std::hash::{Hash, Hasher};
use std::marker::Model;
use std::ops::{AsDeref, DerefStr};

/// A text that is well-formed UTF-8 (Unicode, Table 3-7). It is made from a `String`, and gives it
/// back, without a copy. Contracts see its bytes.
#[derive(Drop)]
pub struct Text<A: Allocator = Global> {
    string: String<A>,
}

impl<A: Allocator> Model for Text<A> {
    ghost Value = { List ℕ };

    ghost view = { λ t. string_bytes t.string };
}

impl<A: Allocator> Text<A> {
    /// Returns the empty text.
    pub fn new(alloc: A) -> Text<A>
        ensures { result ≡ [] }
    {
        Text {
            string: String::new(alloc),
        }
    }

    /// Returns a copy of `s`. The error is that memory was refused.
    pub fn from_str(alloc: A, s: &str) -> Result<Text<A>, AllocError>
        ensures ok { IfOk result (λ t. t ≡ s.now) }
        ensures refused { OnErr result (Refused A) }
    {
        Ok(Text {
            string: fallible_alloc::text(alloc, s)?,
        })
    }

    /// Returns the text of a `String`, without a copy.
    pub fn from_string(string: String<A>) -> Text<A>
        ensures { result ≡ string_bytes string }
    {
        Text { string }
    }

    /// Returns the `String` of this text, without a copy.
    pub fn into_string(self) -> String<A>
        ensures { string_bytes result ≡ self }
    {
        let Text { string } = self;
        string
    }

    /// This text.
    pub fn as_str(&self) -> &str
        ensures { result.now ≡ self.now }
    {
        self.string.as_str()
    }

    /// Returns the bytes of this text.
    pub fn as_bytes(&self) -> &[u8]
        ensures { result.now ≡ self.now }
    {
        self.string.as_bytes()
    }

    /// Appends a character. The error is that memory was refused, and the text stays as it was.
    pub fn push(&mut self, c: char) -> Result<(), AllocError>
        ensures ok { OnOk result (self.new ≡ self.old ++ encode_utf8 c) }
        ensures err { OnErr result (self.new ≡ self.old) }
        ensures refused { OnErr result (Refused A) }
    {
        fallible_alloc::push_char(&mut self.string, c)
    }

    /// Appends a text. The error is that memory was refused, and the text stays as it was.
    pub fn push_str(&mut self, s: &str) -> Result<(), AllocError>
        ensures ok { OnOk result (self.new ≡ self.old ++ s.now) }
        ensures err { OnErr result (self.new ≡ self.old) }
        ensures refused { OnErr result (Refused A) }
    {
        fallible_alloc::push_str(&mut self.string, s)
    }

    /// Appends the text that Display writes for `value`. The error is that memory was refused, or
    /// that its Display erred; a part of its text may have been appended then.
    pub fn push_display<T: fmt::Display>(&mut self, value: &T) -> Result<(), AllocError>
        ensures text { IfSome (T.output value.now) (λ t. OnOk result (self.new ≡ self.old ++ t)) }
        ensures refused { OnErr result (Refused A) }
    {
        fallible_alloc::push_display(&mut self.string, value)
    }

    /// Returns how many bytes it has.
    pub fn len(&self) -> usize
        ensures { result ≡ length self.now }
    {
        self.string.as_str().len()
    }

    /// Returns whether it has no bytes.
    pub fn is_empty(&self) -> bool
        ensures { IsTrue result ↔ (self.now ≡ []) }
    {
        self.string.as_str().is_empty()
    }
}

/// A text goes wherever a `&str` does, and has its methods.
impl<A: Allocator> DerefStr for Text<A> {
    ghost deref_gives = { λ t bytes. bytes ≡ t };

    fn deref(&self) -> &str {
        self.as_str()
    }
}

impl<'a, A: Allocator + 'a> AsDeref<'a> for Text<A> {
    type Shown = &'a str;

    ghost as_deref_gives = { λ t s. s.now ≡ t };

    ghost View = { List ℕ };

    ghost view = { λ t. t };

    ghost output_view = { λ s. s.now };

    fn shown(&'a self) -> &'a str {
        self.as_str()
    }
}

impl<A: Allocator> AsStr for Text<A> {
    ghost text = { λ t. t };

    fn as_str(&self) -> &str {
        self.as_str()
    }
}

impl<A: Allocator> AsSlice<u8> for Text<A> {
    ghost items = { λ t. t };

    fn as_slice(&self) -> &[u8] {
        self.as_bytes()
    }
}

/// A copy in memory of the same allocator. The error is that memory was refused.
impl<A: Allocator + Clone> Clone for Text<A> {
    ghost is_clone = { λ t copy. copy ≡ t };

    fn clone(&self) -> Result<Text<A>, AllocError> {
        Ok(Text {
            string: self.string.clone()?,
        })
    }
}

impl<A: Allocator> From<String<A>> for Text<A> {
    ghost from_gives = { λ s t. t ≡ string_bytes s };

    fn from(string: String<A>) -> Text<A> {
        Text::from_string(string)
    }
}

impl<A: Allocator> From<Text<A>> for String<A> {
    ghost from_gives = { λ t s. string_bytes s ≡ t };

    fn from(text: Text<A>) -> String<A> {
        text.into_string()
    }
}

impl<A: Allocator> PartialEq for Text<A> {
    ghost eq = { pointwise nat_eq };

    ghost laws = { partial_equiv_from_equiv nat_list_eq_equiv };

    fn eq(&self, other: &Self) -> bool {
        self.as_str() == other.as_str()
    }
}

impl<A: Allocator> Eq for Text<A> {
    ghost laws = { nat_list_eq_equiv };
}

/// The order of the bytes, which is also the order of the characters.
impl<A: Allocator> PartialOrd for Text<A> {
    ghost partial_cmp = { λ x y. Some (slice_cmp nat_cmp x y) };

    ghost laws = { texts_po };

    fn partial_cmp(&self, other: &Self) -> Option<Ordering> {
        Some(self.cmp(other))
    }
}

impl<A: Allocator> Ord for Text<A> {
    ghost cmp = { slice_cmp nat_cmp };

    ghost total = { nat_list_cmp_total };

    ghost matches_partial_cmp = { λ x y. refl };

    ghost matches_eq = { texts_ties };

    fn cmp(&self, other: &Self) -> Ordering {
        self.as_str().cmp(other.as_str())
    }
}

/// Feeds the same as the `str`.
impl<A: Allocator> Hash for Text<A> {
    ghost hash_input = { fed.str };

    ghost respects_eq = { Prim.search (hashing, rules) };

    fn hash<H: Hasher>(&self, state: &mut H) {
        self.as_str().hash(state);
    }
}

/// Writes the text as the Debug of a `str` does.
impl<A: Allocator> fmt::Debug for Text<A> {
    fn fmt<W: fmt::Write>(&self, f: &mut fmt::Formatter<W>) -> fmt::Result {
        fmt::Debug::fmt(self.as_str(), f)
    }
}

/// Writes the text itself.
impl<A: Allocator> fmt::Display for Text<A> {
    ghost output = { λ t. Some t };

    fn fmt<W: fmt::Write>(&self, f: &mut fmt::Formatter<W>) -> fmt::Result {
        f.write_str(self.as_str())
    }
}
