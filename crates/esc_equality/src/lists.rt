//! Lists and boxed values, if `==` of their items is equality.
ghost use Rattle.std.specs.Prelude.{◌≡◌, ◌↔◌, IsTrue};

use esc_values::{Boxed, Items};
use std::alloc::Allocator;

/// Returns whether two lists are the same.
#[tactic(auto, using(crate::proofs::Same::lists))]
pub fn same_items<T: PartialEq, A: Allocator>(a: &Items<T, A>, b: &Items<T, A>) -> bool
    ensures { ((x y : T) → IsTrue (T.eq x y) ↔ (x ≡ y)) → IsTrue result ↔ (a.now ≡ b.now) }
{
    a == b
}

/// Returns whether two boxed values are the same.
pub fn same_boxed<T: PartialEq, A: Allocator>(a: &Boxed<T, A>, b: &Boxed<T, A>) -> bool
    ensures { ((x y : T) → IsTrue (T.eq x y) ↔ (x ≡ y)) → IsTrue result ↔ (a.now ≡ b.now) }
{
    a == b
}
