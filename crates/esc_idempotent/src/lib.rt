// SPDX-License-Identifier: MIT
//! Laws of filters that read their own output: they write it again as it is. Each holds for every
//! allocator `A`, which the type of the actions names.
#![tactic(auto)]

ghost use Rattle.std.specs.Prelude.{◌≡◌, ℕ, Bool, List, Option, true};
ghost use Rattle.esc_actions.specs.Values.{Value};
ghost use Rattle.esc_filter.specs.Groups.{admits_groups, groups_of, has};
ghost use Rattle.esc_filter.specs.Known.{IsPassedText};
ghost use Rattle.esc_filter.specs.Lines.{closed_by_lines_as, lines};
ghost use Rattle.esc_filter.specs.Openings.{resumed_closed};
ghost use Rattle.esc_filter.specs.Passing.{closed_text_as, passed_text_as};
ghost use Rattle.esc_filter.specs.Tokens.{AdmitsAtMost};
ghost use Rattle.esc_filter.specs.declared.group.Group.{Group};
ghost use Rattle.esc_filter.specs.declared.group.Group.TheVariants as group;
ghost use Rattle.esc_filter.specs.declared.groups.Groups.{Groups};
ghost use Rattle.esc_filter.specs.declared.guard.Guard.{Guard};
ghost use Rattle.esc_filter.specs.declared.policy.Policy.{Policy};
ghost use Rattle.esc_filter.specs.declared.policy.Policy.TheVariants as policy;
ghost use Rattle.esc_idempotent.specs.Again.{AdmitsAs, AdmitsInstead, AdmitsItsClosing, AdmitsResets, AreKept, IsKept};

use esc_filter::{lines_written, written_reads_back};
use std::alloc::Allocator;

/// A filter writes its own output for a stream again as it is, whatever its policy admits, if that
/// is text or all is written as it is, and the limit of the second filter leaves nothing out. If
/// the stream has ended, the policy has to admit the values that undo the changes that admitted
/// values leave.
pub fn filters_twice<A: Allocator>()
    ensures goes_on { (u : Guard) (limit again : Option ℕ) (f : Value A → Bool)
        → AdmitsInstead u f → (s : List ℕ) → IsKept A again (passed_text_as u limit f s)
        → passed_text_as u again f (passed_text_as u limit f s) ≡ passed_text_as u limit f s }
    ensures ended { (u : Guard) (limit again : Option ℕ) (f : Value A → Bool)
        → AdmitsInstead u f → AdmitsItsClosing f
        → (s : List ℕ) → IsKept A again (closed_text_as u limit f s)
        → closed_text_as u again f (closed_text_as u limit f s) ≡ closed_text_as u limit f s }
{
    written_reads_back::<A>();
}

/// Does the same by lines, and if the renditions that go on are written again: none goes on over a
/// line feed that was written.
pub fn filters_lines_twice<A: Allocator>()
    ensures by_lines { (u : Guard) (limit again : ℕ) (f : Value A → Bool)
        → AdmitsInstead u f → AdmitsItsClosing f
        → (s : List ℕ) → AreKept A again (lines (closed_by_lines_as u limit f s))
        → closed_by_lines_as u again f (closed_by_lines_as u limit f s)
        ≡ closed_by_lines_as u limit f s }
    ensures resumed { (k : Bool) (u : Guard) (limit again : ℕ) (f : Value A → Bool)
        → AdmitsInstead u f → AdmitsItsClosing f
        → (s : List ℕ) → AreKept A again (lines (resumed_closed k u limit f s))
        → resumed_closed k u again f (resumed_closed k u limit f s)
        ≡ resumed_closed k u limit f s }
{
    written_reads_back::<A>();
    lines_written::<A>();
}

/// Each of the policies, and each filter that admits exactly the same, admits text, and the values
/// that undo the changes that admitted values leave.
pub fn policies_close<A: Allocator>()
    ensures texts { (p : Policy) (f : Value A → Bool) → AdmitsAs p f → IsPassedText f }
    ensures closes { (p : Policy) (f : Value A → Bool) → AdmitsAs p f → AdmitsItsClosing f }
{}

/// So does one that admits no more than `Policy::Color`, if it admits the reset of renditions and
/// the end of a link wherever it admits some.
pub fn colors_close<A: Allocator>()
    ensures { (f : Value A → Bool) → AdmitsAtMost policy.Color f → AdmitsResets f
        → AdmitsItsClosing f }
{}

/// So does a choice of groups of `Policy::Color`, if renditions that conceal text are in it only
/// with the others; and it admits text if characters and the controls that lay them out are in it.
pub fn choices_close<A: Allocator>()
    ensures texts { (g : Groups) → has g group.Characters ≡ true → has g group.Layout ≡ true
        → IsPassedText {A = A} (admits_groups g) }
    ensures closes { (g : Groups)
        → ((c : Group) → has g c ≡ true → has (groups_of policy.Color) c ≡ true)
        → (has g group.Hidden ≡ true → has g group.Sgr ≡ true)
        → AdmitsItsClosing {A = A} (admits_groups g) }
{}
