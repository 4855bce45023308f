//! The normal form of a stream that comes in chunks.
ghost use Rattle.std.specs.Prelude.{◌≡◌, ◌≢◌, ◌↔◌, ℕ, List};
ghost use Rattle.esc_calls.specs.InChunks.{Begins, Breaks, IsEnded, KeepsNone, Stays, Takes, text_of};
ghost use Rattle.esc_calls.specs.Kept.{normaliser_in};
ghost use Rattle.esc_calls.specs.NormalChunks.{FinishesNormal, NormaliserHasConsumed, normal_text};
ghost use Rattle.esc_calls.specs.Output.{Copies};
ghost use Rattle.fallible_alloc.specs.Refusals.{Refused};

use crate::change_kept::change_kept;
use crate::common::{begin, copy_output};
use crate::in_chunks::InChunks;
use crate::kept::Kept;
use crate::{DONE, NO_MEMORY, NOT_BEGUN};
use esc_actions::laws;
use esc_normal::Normaliser;
use std::alloc::Global;

/// Does the work of `escape_stream_normal_begin` of `escape_c`.
pub fn normal_begin(alloc: Global, normaliser: &mut InChunks, limit: usize) -> u32
    ensures begun { result ≡ DONE → Begins (NormaliserHasConsumed limit) normaliser.new }
    ensures refused { result ≢ DONE → (result ≡ NO_MEMORY) × IsEnded normaliser.new }
    ensures memory { result ≡ NO_MEMORY → Refused Global }
{
    let kept = Kept::Normal(Normaliser::new(alloc, Some(limit)));
    begin(alloc, normaliser, kept)
}

/// Does the work of `escape_stream_normal_feed` of `escape_c`.
pub fn normal_feed(alloc: Global, normaliser: &mut InChunks, bytes: &[u8]) -> u32
    ensures taken { (limit : ℕ) (s : List ℕ) → NormaliserHasConsumed limit s normaliser.old
        → result ≡ DONE
        → Takes (NormaliserHasConsumed limit) (normal_text limit) s bytes.now normaliser.new }
    ensures memory { (limit : ℕ) (s : List ℕ) → NormaliserHasConsumed limit s normaliser.old
        → result ≢ DONE → (result ≡ NO_MEMORY)
        × Breaks (normal_text limit) s bytes.now normaliser.new
        × Refused Global }
    ensures refused { result ≢ DONE → (result ≢ NO_MEMORY → result ≡ NOT_BEGUN)
        × IsEnded normaliser.new }
    ensures ended { result ≡ NOT_BEGUN ↔ KeepsNone normaliser_in normaliser.old }
{
    change_kept!(alloc, normaliser, Normal(inner), inner.feed(bytes))
}

/// Does the work of `escape_stream_normal_finish` of `escape_c`.
pub fn normal_finish(alloc: Global, normaliser: &mut InChunks) -> u32
    ensures finished { (limit : ℕ) (s : List ℕ) → NormaliserHasConsumed limit s normaliser.old
        → result ≡ DONE → FinishesNormal limit s normaliser.new }
    ensures refused { result ≢ DONE → (result ≡ NOT_BEGUN) × IsEnded normaliser.new }
    ensures ended { result ≡ NOT_BEGUN ↔ KeepsNone normaliser_in normaliser.old }
{
    laws::reads_back::<Global>();
    change_kept!(alloc, normaliser, Normal(inner), always inner.restart())
}

/// Does the work of `escape_stream_normal_output` of `escape_c`.
pub fn normal_output(alloc: Global, normaliser: &mut InChunks, from: usize, out: &mut [u8]) -> usize
    ensures copied { Copies (text_of normaliser.old) from out.old out.new result }
    ensures kept { Stays normaliser.old normaliser.new }
{
    copy_output(alloc, normaliser, from, out)
}

/// Does the work of `escape_stream_normal_end` of `escape_c`.
pub fn normal_end(alloc: Global, normaliser: &mut InChunks)
    ensures { IsEnded normaliser.new }
{
    drop(normaliser.take(alloc));
}
