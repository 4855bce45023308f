//! The filter: of a stream that is there whole, and of one in chunks.
ghost use Rattle.std.specs.Prelude.{◌↔◌, ◌≡◌, ◌≢◌, IfSome, List, None, ℕ};
ghost use Rattle.esc_calls.specs.Filtered.{IsAdmitted, IsFilterRefusal, open_text};
ghost use Rattle.esc_calls.specs.Output.{Copies, Writes};
ghost use Rattle.esc_calls.specs.Policies.{policy_numbered};
ghost use Rattle.fallible_alloc.specs.Refusals.{Refused};
ghost use Rattle.esc_filter.specs.declared.policy.Policy.{Policy};
ghost use Rattle.esc_calls.specs.FilterChunks.{FinishesFilter, TakesFilter, FilterHasConsumed};
ghost use Rattle.esc_calls.specs.InChunks.{Begins, Breaks, IsEnded, KeepsNone, Stays, text_of};
ghost use Rattle.esc_calls.specs.Kept.{filter_in};

use esc_calls::in_chunks::InChunks;
use esc_calls::{DONE, NO_MEMORY, NOT_BEGUN, UNKNOWN_POLICY, filter, filter_chunks};
use std::alloc::Global;

/// Writes to `out` the text of those actions of the stream `bytes` that the policy admits, as much
/// of it as fits, and the length of all of it in bytes to `needed`. The whole text reads back as
/// these actions, and as nothing else; a part of it need not. The changes that the stream leaves at
/// a terminal, as a rendition, are not undone: a filter in chunks does that at its end.
///
/// The policies are 0 text, 1 color, 2 screen and 3 all, each as [`Policy`] says; any other number
/// is `UNKNOWN_POLICY`. For a string with more than `limit` bytes nothing is written, as with
/// [`Parser::with_limit`](esc_parse::Parser::with_limit). `NO_MEMORY` says that a request for
/// memory was refused.
#[unsafe(no_mangle)]
pub extern "C" fn escape_stream_filter(
    alloc: Global,
    policy: u32,
    limit: usize,
    bytes: &[u8],
    out: &mut [u8],
    needed: &mut usize,
) -> u32
    ensures written { Writes (IsAdmitted (policy_numbered policy) limit bytes.now) IsFilterRefusal
        result (out.old, needed.old) (out.new, needed.new) }
    ensures unknown { result ≡ UNKNOWN_POLICY ↔ (policy_numbered policy ≡ None) }
{
    filter::filter(alloc, policy, limit, bytes, out, needed)
}

/// Begins a stream, with a limit of `limit` bytes that are kept of a string, by the policy of this
/// number, as in [`escape_stream_filter`](crate::escape_stream_filter). A filter that was begun
/// before is ended first. After another status than `DONE` it is not begun.
#[unsafe(no_mangle)]
pub extern "C" fn escape_stream_filter_begin(
    alloc: Global,
    filter: &mut InChunks,
    policy: u32,
    limit: usize,
) -> u32
    ensures begun { result ≡ DONE → IfSome (policy_numbered policy) (λ p.
        Begins (FilterHasConsumed limit p) filter.new) }
    ensures unknown { result ≡ UNKNOWN_POLICY ↔ (policy_numbered policy ≡ None) }
    ensures refused { result ≢ DONE → (result ≢ NO_MEMORY → result ≡ UNKNOWN_POLICY)
        × IsEnded filter.new }
    ensures memory { result ≡ NO_MEMORY → Refused Global }
{
    filter_chunks::filter_begin(alloc, filter, policy, limit)
}

/// Takes the next chunk of the stream. The text that it adds to the text of the stream is then the
/// text that [`escape_stream_filter_output`] gives.
///
/// `NO_MEMORY` says that a request for memory was refused: the filter has ended, and its memory was
/// given back. `NOT_BEGUN` says that it had not begun, or had ended.
#[unsafe(no_mangle)]
pub extern "C" fn escape_stream_filter_feed(
    alloc: Global,
    filter: &mut InChunks,
    bytes: &[u8],
) -> u32
    ensures taken { (limit : ℕ) (p : Policy) (s : List ℕ) → FilterHasConsumed limit p s filter.old
        → result ≡ DONE → TakesFilter limit p s bytes.now filter.new }
    ensures memory { (limit : ℕ) (p : Policy) (s : List ℕ) → FilterHasConsumed limit p s filter.old
        → result ≢ DONE → (result ≡ NO_MEMORY) × Breaks (open_text limit p) s bytes.now filter.new
        × Refused Global }
    ensures refused { result ≢ DONE → (result ≢ NO_MEMORY → result ≡ NOT_BEGUN)
        × IsEnded filter.new }
    ensures ended { result ≡ NOT_BEGUN ↔ KeepsNone filter_in filter.old }
{
    filter_chunks::filter_feed(alloc, filter, bytes)
}

/// Ends the stream, and begins the next, within the same limit and by the same policy. The text
/// that undoes the changes that the stream left at a terminal, as [`Filter::finish`] says, is then
/// the text that [`escape_stream_filter_output`] gives. An unfinished segment is dropped.
///
/// `NO_MEMORY` says that a request for memory was refused: the filter has ended, and its memory was
/// given back. `NOT_BEGUN` says that it had not begun, or had ended.
#[unsafe(no_mangle)]
pub extern "C" fn escape_stream_filter_finish(alloc: Global, filter: &mut InChunks) -> u32
    ensures finished { (limit : ℕ) (p : Policy) (s : List ℕ)
        → FilterHasConsumed limit p s filter.old
        → result ≡ DONE → FinishesFilter limit p s filter.new }
    ensures memory { result ≡ NO_MEMORY → Refused Global }
    ensures refused { result ≢ DONE → (result ≢ NO_MEMORY → result ≡ NOT_BEGUN)
        × IsEnded filter.new }
    ensures ended { result ≡ NOT_BEGUN ↔ KeepsNone filter_in filter.old }
{
    filter_chunks::filter_finish(alloc, filter)
}

/// Copies the text that the last call added, from its byte `from` on, to the beginning of `out`,
/// as much as fits, and leaves the rest of `out` as it is. Returns how many bytes these are.
#[unsafe(no_mangle)]
pub extern "C" fn escape_stream_filter_output(
    alloc: Global,
    filter: &mut InChunks,
    from: usize,
    out: &mut [u8],
) -> usize
    ensures copied { Copies (text_of filter.old) from out.old out.new result }
    ensures kept { Stays filter.old filter.new }
{
    filter_chunks::filter_output(alloc, filter, from, out)
}

/// Ends a filter, and gives its memory back. One that is not begun stays so.
#[unsafe(no_mangle)]
pub extern "C" fn escape_stream_filter_end(alloc: Global, filter: &mut InChunks)
    ensures { IsEnded filter.new }
{
    filter_chunks::filter_end(alloc, filter);
}
