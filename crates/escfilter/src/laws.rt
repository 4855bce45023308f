//! A law of the values that pass.
ghost use Rattle.esc_filter.specs.Tokens.{AdmitsAtMost};
ghost use Rattle.esc_filter.specs.declared.policy.Policy.{Policy};
ghost use Rattle.escfilter.specs.Choices.{IsWithin, admits_choice};
ghost use Rattle.escfilter.specs.declared.named_groups.Choice.{Choice};

use esc_filter::{policies_are_groups, some_groups_admit_less};
use std::alloc::Allocator;

/// Groups that are some of those of a policy admit no more than the policy does. So by the law
/// `writes_chunks` of `esc_sanitize`, under some of the groups of `Policy::Text` the output is
/// plain text, if rows are not written again, and under some of those of `Policy::Color` it is text
/// of characters, renditions and links.
pub fn choices_admit_less<A: Allocator>()
    ensures { (p : Policy) (c : Choice) → IsWithin p c → AdmitsAtMost {A = A} p (admits_choice c) }
{
    some_groups_admit_less::<A>();
    policies_are_groups::<A>();
}
