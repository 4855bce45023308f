//! Laws of iTerm2's proprietary commands say that a written command reads back, and that the
//! command of clear parts can be written.
ghost use Rattle.std.specs.Prelude.{◌≡◌, List, ℕ, Some};
ghost use Rattle.esc_values.specs.Clear.{AreClearParts};
ghost use Rattle.esc_iterm.specs.ITerms.{iterm_of};
ghost use Rattle.esc_iterm.specs.WritableITerms.{IsWritableITerm, WritesBack};
ghost use Rattle.esc_iterm.specs.declared.proprietary.ITermProprietary.{ITermProprietary};

use std::alloc::Allocator;

/// A writable command is written as the code `1337` and clear parts, with `;` between them, and
/// these parts mean it.
#[tactic(auto, using(crate::proofs::ITermsBack::writes_back))]
pub fn writes_back<A: Allocator>()
    ensures { (c : ITermProprietary A) → IsWritableITerm c → WritesBack c }
{}

/// A command that clear parts mean is writable.
#[tactic(auto, using(crate::proofs::ITermsClear::clear_is_writable))]
pub fn clear_is_writable<A: Allocator>()
    ensures { (args : List (List ℕ)) → AreClearParts args → (c : ITermProprietary A)
        → iterm_of args ≡ Some c → IsWritableITerm c }
{}
