//! The normal form: of a stream that is there whole, and of one in chunks.
ghost use Rattle.std.specs.Prelude.{◌↔◌, ◌≡◌, ◌≢◌, IsTrue, List, true, ℕ};
ghost use Rattle.esc_actions.specs.Meaning.{meaning};
ghost use Rattle.esc_actions.specs.Texts.{list_text};
ghost use Rattle.esc_calls.specs.Output.{Copies, LacksMemory, Writes};
ghost use Rattle.esc_actions.specs.Writable.{AreWritable};
ghost use Rattle.fallible_alloc.specs.Refusals.{Refused};
ghost use Rattle.esc_calls.specs.InChunks.{Begins, Breaks, IsEnded, KeepsNone, Stays, Takes, text_of};
ghost use Rattle.esc_calls.specs.Kept.{normaliser_in};
ghost use Rattle.esc_calls.specs.NormalChunks.{FinishesNormal, NormaliserHasConsumed, normal_text};

use esc_calls::in_chunks::InChunks;
use esc_calls::{DONE, NO_MEMORY, NOT_BEGUN, is_normal, normal, normal_chunks};
use std::alloc::Global;

/// Writes the normal form of the stream `bytes` to `out`, as much of it as fits, and its length in
/// bytes to `needed`.
///
/// `NO_MEMORY` is the only other status. A sixel value over 63, which has no text, does not come of
/// bytes.
#[unsafe(no_mangle)]
pub extern "C" fn escape_stream_normal(
    alloc: Global,
    bytes: &[u8],
    out: &mut [u8],
    needed: &mut usize,
) -> u32
    ensures { Writes (λ t. t ≡ list_text (meaning {A = Global} bytes.now)) LacksMemory result
        (out.old, needed.old) (out.new, needed.new) }
{
    normal::normal(alloc, bytes, out, needed)
}

/// Writes to `answer` whether the stream `bytes` is its own normal form: the text that
/// [`escape_stream_normal`](crate::escape_stream_normal) writes for it.
///
/// It is true for the normal form of a stream that means a writable list. `NO_MEMORY` is the only
/// other status.
#[unsafe(no_mangle)]
pub extern "C" fn escape_stream_is_normal(alloc: Global, bytes: &[u8], answer: &mut bool) -> u32
    ensures equal { result ≡ DONE
        → (IsTrue answer.new ↔ (list_text (meaning {A = Global} bytes.now) ≡ bytes.now)) }
    ensures normalised { (t : List ℕ) → AreWritable {A = Global} (meaning t)
        → bytes.now ≡ list_text (meaning {A = Global} t) → result ≡ DONE → answer.new ≡ true }
    ensures refused { result ≢ DONE → (result ≡ NO_MEMORY) × (answer.new ≡ answer.old) }
    ensures memory { result ≡ NO_MEMORY → Refused Global }
{
    is_normal::is_normal(alloc, bytes, answer)
}

/// Begins a stream, with a limit of `limit` bytes that are kept of a string. A normaliser that was
/// begun before is ended first. After `NO_MEMORY` it is not begun.
#[unsafe(no_mangle)]
pub extern "C" fn escape_stream_normal_begin(
    alloc: Global,
    normaliser: &mut InChunks,
    limit: usize,
) -> u32
    ensures begun { result ≡ DONE → Begins (NormaliserHasConsumed limit) normaliser.new }
    ensures refused { result ≢ DONE → (result ≡ NO_MEMORY) × IsEnded normaliser.new }
    ensures memory { result ≡ NO_MEMORY → Refused Global }
{
    normal_chunks::normal_begin(alloc, normaliser, limit)
}

/// Takes the next chunk of the stream. The text that it adds to the normal form of the stream is
/// then the text that [`escape_stream_normal_output`] gives.
///
/// `NO_MEMORY` says that a request for memory was refused: the normaliser has ended, and its memory
/// was given back. `NOT_BEGUN` says that it had not begun, or had ended.
#[unsafe(no_mangle)]
pub extern "C" fn escape_stream_normal_feed(
    alloc: Global,
    normaliser: &mut InChunks,
    bytes: &[u8],
) -> u32
    ensures taken { (limit : ℕ) (s : List ℕ) → NormaliserHasConsumed limit s normaliser.old
        → result ≡ DONE
        → Takes (NormaliserHasConsumed limit) (normal_text limit) s bytes.now normaliser.new }
    ensures memory { (limit : ℕ) (s : List ℕ) → NormaliserHasConsumed limit s normaliser.old
        → result ≢ DONE → (result ≡ NO_MEMORY)
        × Breaks (normal_text limit) s bytes.now normaliser.new
        × Refused Global }
    ensures refused { result ≢ DONE → (result ≢ NO_MEMORY → result ≡ NOT_BEGUN)
        × IsEnded normaliser.new }
    ensures ended { result ≡ NOT_BEGUN ↔ KeepsNone normaliser_in normaliser.old }
{
    normal_chunks::normal_feed(alloc, normaliser, bytes)
}

/// Ends the stream, and begins the next, within the same limit. The end adds nothing: the text that
/// [`escape_stream_normal_output`] gives is then empty. An unfinished segment is dropped. It takes
/// no memory. `NOT_BEGUN` says that the normaliser had not begun, or had ended.
#[unsafe(no_mangle)]
pub extern "C" fn escape_stream_normal_finish(alloc: Global, normaliser: &mut InChunks) -> u32
    ensures finished { (limit : ℕ) (s : List ℕ) → NormaliserHasConsumed limit s normaliser.old
        → result ≡ DONE → FinishesNormal limit s normaliser.new }
    ensures refused { result ≢ DONE → (result ≡ NOT_BEGUN) × IsEnded normaliser.new }
    ensures ended { result ≡ NOT_BEGUN ↔ KeepsNone normaliser_in normaliser.old }
{
    normal_chunks::normal_finish(alloc, normaliser)
}

/// Copies the text that the last call added, from its byte `from` on, to the beginning of `out`,
/// as much as fits, and leaves the rest of `out` as it is. Returns how many bytes these are.
#[unsafe(no_mangle)]
pub extern "C" fn escape_stream_normal_output(
    alloc: Global,
    normaliser: &mut InChunks,
    from: usize,
    out: &mut [u8],
) -> usize
    ensures copied { Copies (text_of normaliser.old) from out.old out.new result }
    ensures kept { Stays normaliser.old normaliser.new }
{
    normal_chunks::normal_output(alloc, normaliser, from, out)
}

/// Ends a normaliser, and gives its memory back. One that is not begun stays so.
#[unsafe(no_mangle)]
pub extern "C" fn escape_stream_normal_end(alloc: Global, normaliser: &mut InChunks)
    ensures { IsEnded normaliser.new }
{
    normal_chunks::normal_end(alloc, normaliser);
}
