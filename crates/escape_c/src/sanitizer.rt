//! A sanitizer of a stream in chunks: the filter of the program `escfilter`.
ghost use Rattle.std.specs.Prelude.{◌↔◌, ◌≡◌, ◌≢◌, IfSome, List, [], ℕ};
ghost use Rattle.esc_calls.specs.AccountRows.{row_of};
ghost use Rattle.esc_calls.specs.InChunks.{IsEnded, KeepsNone, Stays, Takes, text_of};
ghost use Rattle.esc_calls.specs.Kept.{sanitizer_in};
ghost use Rattle.esc_calls.specs.Output.{Copies};
ghost use Rattle.esc_calls.specs.SanitizerOptions.{IsSaid, SaysFault};
ghost use Rattle.esc_calls.specs.SanitizerChunks.{FinishesSanitizer, SanitizerHasConsumed};
ghost use Rattle.esc_calls.specs.SanitizerStates.{going};
ghost use Rattle.esc_calls.specs.Sanitizers.{Settings};
ghost use Rattle.esc_sanitize.specs.Sanitized.{account_in};
ghost use Rattle.fallible_alloc.specs.Refusals.{Refused};

use esc_calls::account_row::AccountRow;
use esc_calls::in_chunks::InChunks;
use esc_calls::sanitizer_options::SanitizerOptions;
use esc_calls::{DONE, NO_MEMORY, NOT_BEGUN, sanitizer_chunks};
use std::alloc::Global;

/// Begins a stream, which is filtered as these options say. A sanitizer that was begun before is
/// ended first. After another status than `DONE` it is not begun.
///
/// `NO_MEMORY` says that a request for memory was refused, and each other status which of the
/// options is none: `UNKNOWN_SIZE`, `UNKNOWN_POLICY` and so on.
#[unsafe(no_mangle)]
pub extern "C" fn escape_stream_sanitizer_begin(
    alloc: Global,
    sanitizer: &mut InChunks,
    options: &SanitizerOptions,
) -> u32
    ensures begun { result ≡ DONE → (o : Settings) × IsSaid options.now o
        × SanitizerHasConsumed o [] sanitizer.new }
    ensures wrong { result ≢ DONE → result ≢ NO_MEMORY → SaysFault options.now result }
    ensures refused { result ≢ DONE → IsEnded sanitizer.new }
    ensures memory { result ≡ NO_MEMORY → Refused Global }
{
    sanitizer_chunks::sanitizer_begin(alloc, sanitizer, options)
}

/// Takes the next chunk of the stream. The text that it adds to the text of the stream is then the
/// text that [`escape_stream_sanitizer_output`] gives.
///
/// `NO_MEMORY` says that a request for memory was refused: the sanitizer has ended, and its memory
/// was given back. `NOT_BEGUN` says that it had not begun, or that its stream had ended; it was
/// given back too.
#[unsafe(no_mangle)]
pub extern "C" fn escape_stream_sanitizer_feed(
    alloc: Global,
    sanitizer: &mut InChunks,
    bytes: &[u8],
) -> u32
    ensures taken { (o : Settings) (s : List ℕ) → SanitizerHasConsumed o s sanitizer.old
        → result ≡ DONE → Takes (SanitizerHasConsumed o) (going o) s bytes.now sanitizer.new }
    ensures memory { (o : Settings) (s : List ℕ) → SanitizerHasConsumed o s sanitizer.old
        → result ≢ DONE → (result ≡ NO_MEMORY) × Refused Global }
    ensures refused { result ≢ DONE → (result ≢ NO_MEMORY → result ≡ NOT_BEGUN)
        × IsEnded sanitizer.new }
{
    sanitizer_chunks::sanitizer_feed(alloc, sanitizer, bytes)
}

/// Ends the stream. The text that this adds is then the text that
/// [`escape_stream_sanitizer_output`] gives, and the account is that of the whole stream.
///
/// The statuses are those of [`escape_stream_sanitizer_feed`].
#[unsafe(no_mangle)]
pub extern "C" fn escape_stream_sanitizer_finish(alloc: Global, sanitizer: &mut InChunks) -> u32
    ensures finished { (o : Settings) (s : List ℕ) → SanitizerHasConsumed o s sanitizer.old
        → result ≡ DONE → FinishesSanitizer o s sanitizer.new }
    ensures memory { (o : Settings) (s : List ℕ) → SanitizerHasConsumed o s sanitizer.old
        → result ≢ DONE → (result ≡ NO_MEMORY) × Refused Global }
    ensures refused { result ≢ DONE → (result ≢ NO_MEMORY → result ≡ NOT_BEGUN)
        × IsEnded sanitizer.new }
{
    sanitizer_chunks::sanitizer_finish(alloc, sanitizer)
}

/// Copies the text that the last call added, from its byte `from` on, to the beginning of `out`,
/// as much as fits, and leaves the rest of `out` as it is. Returns how many bytes these are.
#[unsafe(no_mangle)]
pub extern "C" fn escape_stream_sanitizer_output(
    alloc: Global,
    sanitizer: &mut InChunks,
    from: usize,
    out: &mut [u8],
) -> usize
    ensures copied { Copies (text_of sanitizer.old) from out.old out.new result }
    ensures kept { Stays sanitizer.old sanitizer.new }
{
    sanitizer_chunks::sanitizer_output(alloc, sanitizer, from, out)
}

/// Writes to `account` the account of the bytes of the stream: of those of the lines, or of the
/// segments, that have ended, and of all, once the stream has ended. Zeros, if the options ask for
/// no account.
///
/// `NOT_BEGUN` is the only other status: the sanitizer had not begun, or was given back.
#[unsafe(no_mangle)]
pub extern "C" fn escape_stream_sanitizer_account(
    alloc: Global,
    sanitizer: &mut InChunks,
    account: &mut AccountRow,
) -> u32
    ensures told { result ≡ DONE → IfSome (sanitizer_in sanitizer.old.held.kept)
        (λ z. account.new ≡ row_of (account_in z)) × Stays sanitizer.old sanitizer.new }
    ensures refused { result ≢ DONE → (result ≡ NOT_BEGUN) × IsEnded sanitizer.new
        × (account.new ≡ account.old) }
    ensures ended { result ≡ NOT_BEGUN ↔ KeepsNone sanitizer_in sanitizer.old }
{
    sanitizer_chunks::sanitizer_account(alloc, sanitizer, account)
}

/// Ends a sanitizer, and gives its memory back. One that is not begun stays so.
#[unsafe(no_mangle)]
pub extern "C" fn escape_stream_sanitizer_end(alloc: Global, sanitizer: &mut InChunks)
    ensures { IsEnded sanitizer.new }
{
    sanitizer_chunks::sanitizer_end(alloc, sanitizer);
}
