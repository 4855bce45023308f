//! This module defines the parameters of a hyperlink.
ghost use Rattle.fallible_alloc.specs.Refusals.{Refused};
ghost use Rattle.std.specs.Prelude.{◌≡◌, ℕ, ◌<◌, ◌&&◌, List, [], length, map, nat_eq, IsTrue, ◌↔◌, string_bytes, OnOk, OnErr};
ghost use Rattle.std.specs.Cmp.Lexicographic.{pointwise, lists_per, nat_list_eq_equiv};
ghost use Rattle.std.specs.Cmp.{partial_equiv_from_equiv, on_per, and_per};
ghost use Rattle.std.specs.Iterator.{at_most};
ghost use Rattle.std.specs.Map.Iter.{TakesFirst};
ghost use Rattle.std.specs.Option.{option_map};
ghost use Rattle.esc_links.specs.Hyperlinks.{pairs_with, value_at};

use esc_values::Text;
use std::alloc::{AllocError, Allocator, Global};
use std::collections::{BTreeMap, btree_map};
use std::fmt;
use std::marker::Model;

/// The parameters are keys with their values, in the order of the keys' UTF-8 bytes, each key once.
/// Contracts see the pairs of their bytes.
///
/// Any texts may be keys and values. Those of a link that reads back are clear and have no `:` or
/// `;`, and its keys have no `=`.
#[derive(Drop)]
pub struct Params<A: Allocator = Global> {
    tree: BTreeMap<String<A>, String<A>, A>,
}

impl<A: Allocator> Model for Params<A> {
    ghost use Rattle.std.specs.Prelude.{ℕ, List, map, string_bytes};

    ghost Value = { List (List ℕ × List ℕ) };

    ghost view = { λ p. map (λ e. (string_bytes e.0, string_bytes e.1)) p.tree.entries };
}

impl<A: Allocator> Params<A> {
    /// Returns parameters without keys.
    pub fn new(alloc: A) -> Params<A>
        ensures { result ≡ [] }
    {
        Params {
            tree: BTreeMap::new(alloc),
        }
    }

    /// Returns the value of this key, if it is there.
    pub fn get(&self, key: &str) -> Option<&str>
        ensures { option_map (λ v. v.now) result ≡ value_at key.now self.now }
    {
        match self.tree.get(key) {
            Some(value) => Some(value.as_str()),
            None => None,
        }
    }

    /// Returns how many keys there are.
    pub fn len(&self) -> usize
        ensures { result ≡ length self.now }
    {
        self.tree.len()
    }

    /// Returns whether there are no keys.
    pub fn is_empty(&self) -> bool
        ensures { IsTrue result ↔ (self.now ≡ []) }
    {
        self.tree.is_empty()
    }

    /// Returns the keys with their values, in order.
    pub fn iter(&self) -> Iter<'_, A>
        ensures { result ≡ self.now }
    {
        Iter {
            entries: self.tree.iter(),
        }
    }
}

impl<A: Allocator + Copy> Params<A> {
    /// Puts a value at a key, in place of one that is there. The error is that memory was refused,
    /// and the parameters stay as they were.
    pub fn insert(&mut self, key: Text<A>, value: Text<A>) -> Result<(), AllocError>
        ensures ok { OnOk result (self.new ≡ pairs_with key value self.old) }
        ensures err { OnErr result (self.new ≡ self.old) }
        ensures refused { OnErr result (Refused A) }
    {
        match fallible_alloc::insert(&mut self.tree, key.into_string(), value.into_string()) {
            Ok(_) => Ok(()),
            Err(_) => Err(AllocError),
        }
    }
}

impl<'a, A: Allocator> IntoIterator for &'a Params<A> {
    type Item = (&'a str, &'a str);

    type IntoIter = Iter<'a, A>;

    ghost into_iter_gives = { λ p it. it ≡ p.now };

    fn into_iter(self) -> Iter<'a, A> {
        self.iter()
    }
}

impl<A: Allocator> PartialEq for Params<A> {
    ghost eq = { pointwise (λ p q. pointwise nat_eq p.0 q.0 && pointwise nat_eq p.1 q.1) };

    ghost laws = { lists_per
        (and_per (on_per (λ p. p.0) (partial_equiv_from_equiv nat_list_eq_equiv))
        (on_per (λ p. p.1) (partial_equiv_from_equiv nat_list_eq_equiv))) };

    fn eq(&self, other: &Self) -> bool {
        self.tree == other.tree
    }
}

/// Writes the pairs as the Debug of a map does.
impl<A: Allocator> fmt::Debug for Params<A> {
    fn fmt<W: fmt::Write>(&self, f: &mut fmt::Formatter<W>) -> fmt::Result {
        fmt::Debug::fmt(&self.tree, f)
    }
}

/// Gives keys with their values, one after another. Contracts see the rest of the pairs.
#[derive(Drop)]
pub struct Iter<'a, A: Allocator = Global> {
    entries: btree_map::Iter<'a, String<A>, String<A>>,
}

impl<'a, A: Allocator> Model for Iter<'a, A> {
    ghost use Rattle.std.specs.Prelude.{ℕ, List, map, string_bytes};

    ghost Value = { List (List ℕ × List ℕ) };

    ghost view = { λ p. map (λ e. (string_bytes e.0, string_bytes e.1)) p.entries };
}

impl<'a, A: Allocator> Iterator for Iter<'a, A> {
    type Item = (&'a str, &'a str);

    ghost next_gives = { TakesFirst (λ p. (p.0.now, p.1.now)) };

    ghost remaining = { λ s. at_most (length s) };

    fn next(&mut self) -> Option<(&'a str, &'a str)> {
        match self.entries.next() {
            Some((key, value)) => Some((key.as_str(), value.as_str())),
            None => None,
        }
    }
}
