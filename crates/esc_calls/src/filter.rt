//! The actions of a stream that a policy admits.
ghost use Rattle.std.specs.Prelude.{◌≡◌, ◌↔◌, IfOk, None, OnErr};
ghost use Rattle.esc_filter.specs.Fed.{added_by};
ghost use Rattle.esc_calls.specs.Filtered.{IsAdmitted, IsFilterRefusal, open_text};
ghost use Rattle.esc_calls.specs.Output.{LacksMemory, Writes};
ghost use Rattle.esc_calls.specs.Policies.{policy_numbered};
ghost use Rattle.fallible_alloc.specs.Refusals.{Refused};

use crate::output::put;
use crate::{DONE, NO_MEMORY, UNKNOWN_POLICY};
use esc_filter::{Filter, Policy, passed_reads_back};
use esc_frame::ParseError;
use std::alloc::Global;

/// Does the work of `escape_stream_filter` of `escape_c`.
pub fn filter(
    alloc: Global,
    policy: u32,
    limit: usize,
    bytes: &[u8],
    out: &mut [u8],
    needed: &mut usize,
) -> u32
    ensures written { Writes (IsAdmitted (policy_numbered policy) limit bytes.now) IsFilterRefusal
        result (out.old, needed.old) (out.new, needed.new) }
    ensures unknown { result ≡ UNKNOWN_POLICY ↔ (policy_numbered policy ≡ None) }
{
    passed_reads_back::<Global>();
    match policy_of(policy) {
        Some(known) => filter_by(alloc, known, limit, bytes, out, needed),
        None => UNKNOWN_POLICY,
    }
}

/// Returns the policy of this number.
pub(crate) fn policy_of(number: u32) -> Option<Policy>
    ensures { result ≡ policy_numbered number }
{
    match number {
        0 => Some(Policy::Text),
        1 => Some(Policy::Color),
        2 => Some(Policy::Screen),
        3 => Some(Policy::All),
        _ => None,
    }
}

// Does the same for a policy that there is.
fn filter_by(
    alloc: Global,
    policy: Policy,
    limit: usize,
    bytes: &[u8],
    out: &mut [u8],
    needed: &mut usize,
) -> u32
    ensures { Writes (λ t. t ≡ open_text limit policy bytes.now) LacksMemory result
        (out.old, needed.old) (out.new, needed.new) }
{
    match filtered(alloc, policy, limit, bytes) {
        Ok(filter) => {
            *needed = put(filter.output().as_bytes(), out);
            DONE
        }
        Err(_) => NO_MEMORY,
    }
}

// Returns a filter that was fed the bytes, and holds the text of the actions that pass.
fn filtered(
    alloc: Global,
    policy: Policy,
    limit: usize,
    bytes: &[u8],
) -> Result<Filter<Policy>, ParseError>
    ensures ok { IfOk result (λ f. added_by f ≡ open_text limit policy bytes.now) }
    ensures refused { OnErr result (Refused Global) }
{
    let mut filter = Filter::new(alloc, limit, policy);
    match filter.feed(bytes) {
        Ok(()) => Ok(filter),
        Err(error) => Err(error),
    }
}
