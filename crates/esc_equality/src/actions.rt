//! Control codes, control sequences and actions. A value in a box counts, and not its place.
ghost use Rattle.std.specs.Prelude.{◌≡◌, ◌↔◌, IsTrue};
ghost use Rattle.esc_sequences.specs.Csis.{csi_value};
ghost use Rattle.esc_actions.specs.Values.{value_of};

use esc_actions::{Action, ControlCode};
use esc_sequences::CSI;
use std::alloc::Allocator;

/// Returns whether two control codes are the same.
#[tactic(auto, using(crate::proofs::CsisSame::codes))]
pub fn same_control_code(a: &ControlCode, b: &ControlCode) -> bool
    ensures { IsTrue result ↔ (a.now ≡ b.now) }
{
    a == b
}

/// Returns whether two control sequences are the same.
pub fn same_csi<A: Allocator>(a: &CSI<A>, b: &CSI<A>) -> bool
    ensures { IsTrue result ↔ (csi_value a.now ≡ csi_value b.now) }
{
    a == b
}

/// Returns whether two actions are the same.
pub fn same_action<A: Allocator>(a: &Action<A>, b: &Action<A>) -> bool
    ensures { IsTrue result ↔ (value_of a.now ≡ value_of b.now) }
{
    a == b
}
