//! The actions of a stream that comes in chunks that a policy admits.
ghost use Rattle.std.specs.Prelude.{◌≡◌, ◌≢◌, ◌↔◌, ℕ, IfSome, List, None};
ghost use Rattle.esc_filter.specs.declared.policy.Policy.{Policy};
ghost use Rattle.esc_calls.specs.FilterChunks.{FinishesFilter, TakesFilter, FilterHasConsumed};
ghost use Rattle.esc_calls.specs.Filtered.{open_text};
ghost use Rattle.esc_calls.specs.InChunks.{Begins, Breaks, IsEnded, KeepsNone, Stays, text_of};
ghost use Rattle.esc_calls.specs.Kept.{filter_in};
ghost use Rattle.esc_calls.specs.Policies.{policy_numbered};
ghost use Rattle.esc_calls.specs.Output.{Copies};
ghost use Rattle.fallible_alloc.specs.Refusals.{Refused};

use crate::change_kept::change_kept;
use crate::common::{begin, copy_output};
use crate::filter::policy_of;
use crate::in_chunks::InChunks;
use crate::kept::Kept;
use crate::{DONE, NO_MEMORY, NOT_BEGUN, UNKNOWN_POLICY};
use esc_filter::{Filter, closing_comes_last, passed_reads_back};
use std::alloc::Global;

/// Does the work of `escape_stream_filter_begin` of `escape_c`.
pub fn filter_begin(alloc: Global, filter: &mut InChunks, policy: u32, limit: usize) -> u32
    ensures begun { result ≡ DONE → IfSome (policy_numbered policy) (λ p.
        Begins (FilterHasConsumed limit p) filter.new) }
    ensures unknown { result ≡ UNKNOWN_POLICY ↔ (policy_numbered policy ≡ None) }
    ensures refused { result ≢ DONE → (result ≢ NO_MEMORY → result ≡ UNKNOWN_POLICY)
        × IsEnded filter.new }
    ensures memory { result ≡ NO_MEMORY → Refused Global }
{
    let Some(policy) = policy_of(policy) else {
        drop(filter.take(alloc));
        return UNKNOWN_POLICY;
    };
    let kept = Kept::Filter(Filter::new(alloc, limit, policy));
    begin(alloc, filter, kept)
}

/// Does the work of `escape_stream_filter_feed` of `escape_c`.
pub fn filter_feed(alloc: Global, filter: &mut InChunks, bytes: &[u8]) -> u32
    ensures taken { (limit : ℕ) (p : Policy) (s : List ℕ) → FilterHasConsumed limit p s filter.old
        → result ≡ DONE → TakesFilter limit p s bytes.now filter.new }
    ensures memory { (limit : ℕ) (p : Policy) (s : List ℕ) → FilterHasConsumed limit p s filter.old
        → result ≢ DONE → (result ≡ NO_MEMORY) × Breaks (open_text limit p) s bytes.now filter.new
        × Refused Global }
    ensures refused { result ≢ DONE → (result ≢ NO_MEMORY → result ≡ NOT_BEGUN)
        × IsEnded filter.new }
    ensures ended { result ≡ NOT_BEGUN ↔ KeepsNone filter_in filter.old }
{
    passed_reads_back::<Global>();
    change_kept!(alloc, filter, Filter(inner), inner.feed(bytes))
}

/// Does the work of `escape_stream_filter_finish` of `escape_c`.
pub fn filter_finish(alloc: Global, filter: &mut InChunks) -> u32
    ensures finished { (limit : ℕ) (p : Policy) (s : List ℕ)
        → FilterHasConsumed limit p s filter.old
        → result ≡ DONE → FinishesFilter limit p s filter.new }
    ensures memory { result ≡ NO_MEMORY → Refused Global }
    ensures refused { result ≢ DONE → (result ≢ NO_MEMORY → result ≡ NOT_BEGUN)
        × IsEnded filter.new }
    ensures ended { result ≡ NOT_BEGUN ↔ KeepsNone filter_in filter.old }
{
    passed_reads_back::<Global>();
    closing_comes_last::<Global>();
    change_kept!(alloc, filter, Filter(inner), inner.finish())
}

/// Does the work of `escape_stream_filter_output` of `escape_c`.
pub fn filter_output(alloc: Global, filter: &mut InChunks, from: usize, out: &mut [u8]) -> usize
    ensures copied { Copies (text_of filter.old) from out.old out.new result }
    ensures kept { Stays filter.old filter.new }
{
    copy_output(alloc, filter, from, out)
}

/// Does the work of `escape_stream_filter_end` of `escape_c`.
pub fn filter_end(alloc: Global, filter: &mut InChunks)
    ensures { IsEnded filter.new }
{
    drop(filter.take(alloc));
}
