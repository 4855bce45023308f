//! A stream that comes in chunks, filtered as the program `escfilter` does.
ghost use Rattle.std.specs.Prelude.{◌≡◌, ◌≢◌, ◌↔◌, IfSome, List, [], ℕ};
ghost use Rattle.esc_calls.specs.AccountRows.{row_of};
ghost use Rattle.esc_calls.specs.InChunks.{IsEnded, KeepsNone, Stays, Takes, text_of};
ghost use Rattle.esc_calls.specs.Kept.{sanitizer_in};
ghost use Rattle.esc_calls.specs.Output.{Copies};
ghost use Rattle.esc_calls.specs.SanitizerOptions.{IsSaid, SaysFault};
ghost use Rattle.esc_calls.specs.SanitizerChunks.{FinishesSanitizer, SanitizerHasConsumed, error_status};
ghost use Rattle.esc_calls.specs.SanitizerStates.{going};
ghost use Rattle.esc_calls.specs.Sanitizers.{Settings};
ghost use Rattle.esc_sanitize.specs.Sanitized.{account_in};
ghost use Rattle.fallible_alloc.specs.Refusals.{Refused};

use crate::account_row::AccountRow;
use crate::change_kept::change_kept;
use crate::common::{begin, copy_output};
use crate::in_chunks::InChunks;
use crate::kept::Kept;
use crate::sanitizer_options::SanitizerOptions;
use crate::sanitizer_state::SanitizerState;
use crate::{DONE, NO_MEMORY, NOT_BEGUN};
use esc_filter::Groups;
use esc_frame::ParseError;
use esc_sanitize::writes_chunks;
use std::alloc::Global;

/// Does the work of `escape_stream_sanitizer_begin` of `escape_c`.
pub fn sanitizer_begin(alloc: Global, sanitizer: &mut InChunks, options: &SanitizerOptions) -> u32
    ensures begun { result ≡ DONE → (o : Settings) × IsSaid options.now o
        × SanitizerHasConsumed o [] sanitizer.new }
    ensures wrong { result ≢ DONE → result ≢ NO_MEMORY → SaysFault options.now result }
    ensures refused { result ≢ DONE → IsEnded sanitizer.new }
    ensures memory { result ≡ NO_MEMORY → Refused Global }
{
    match options.read() {
        Ok(settings) => begin(
            alloc,
            sanitizer,
            Kept::Sanitizer(SanitizerState::new(alloc, settings)),
        ),
        Err(fault) => {
            drop(sanitizer.take(alloc));
            fault.status()
        }
    }
}

/// Does the work of `escape_stream_sanitizer_feed` of `escape_c`.
pub fn sanitizer_feed(alloc: Global, sanitizer: &mut InChunks, bytes: &[u8]) -> u32
    ensures taken { (o : Settings) (s : List ℕ) → SanitizerHasConsumed o s sanitizer.old
        → result ≡ DONE → Takes (SanitizerHasConsumed o) (going o) s bytes.now sanitizer.new }
    ensures memory { (o : Settings) (s : List ℕ) → SanitizerHasConsumed o s sanitizer.old
        → result ≢ DONE → (result ≡ NO_MEMORY) × Refused Global }
    ensures refused { result ≢ DONE → (result ≢ NO_MEMORY → result ≡ NOT_BEGUN)
        × IsEnded sanitizer.new }
{
    let Some(mut kept) = sanitizer.take(alloc) else {
        return NOT_BEGUN;
    };
    let Kept::Sanitizer(state) = &mut *kept else {
        return NOT_BEGUN;
    };
    match state.feed(bytes) {
        Ok(()) => {
            *sanitizer = InChunks::of(kept);
            DONE
        }
        Err(error) => status_of(error),
    }
}

/// Does the work of `escape_stream_sanitizer_finish` of `escape_c`.
pub fn sanitizer_finish(alloc: Global, sanitizer: &mut InChunks) -> u32
    ensures finished { (o : Settings) (s : List ℕ) → SanitizerHasConsumed o s sanitizer.old
        → result ≡ DONE → FinishesSanitizer o s sanitizer.new }
    ensures memory { (o : Settings) (s : List ℕ) → SanitizerHasConsumed o s sanitizer.old
        → result ≢ DONE → (result ≡ NO_MEMORY) × Refused Global }
    ensures refused { result ≢ DONE → (result ≢ NO_MEMORY → result ≡ NOT_BEGUN)
        × IsEnded sanitizer.new }
{
    writes_chunks::<Groups<'static>, Global>();
    let Some(mut kept) = sanitizer.take(alloc) else {
        return NOT_BEGUN;
    };
    let Kept::Sanitizer(state) = &mut *kept else {
        return NOT_BEGUN;
    };
    match state.finish() {
        Ok(()) => {
            *sanitizer = InChunks::of(kept);
            DONE
        }
        Err(error) => status_of(error),
    }
}

/// Does the work of `escape_stream_sanitizer_output` of `escape_c`.
pub fn sanitizer_output(
    alloc: Global,
    sanitizer: &mut InChunks,
    from: usize,
    out: &mut [u8],
) -> usize
    ensures copied { Copies (text_of sanitizer.old) from out.old out.new result }
    ensures kept { Stays sanitizer.old sanitizer.new }
{
    copy_output(alloc, sanitizer, from, out)
}

/// Does the work of `escape_stream_sanitizer_account` of `escape_c`.
pub fn sanitizer_account(alloc: Global, sanitizer: &mut InChunks, account: &mut AccountRow) -> u32
    ensures told { result ≡ DONE → IfSome (sanitizer_in sanitizer.old.held.kept)
        (λ z. account.new ≡ row_of (account_in z)) × Stays sanitizer.old sanitizer.new }
    ensures refused { result ≢ DONE → (result ≡ NOT_BEGUN) × IsEnded sanitizer.new
        × (account.new ≡ account.old) }
    ensures ended { result ≡ NOT_BEGUN ↔ KeepsNone sanitizer_in sanitizer.old }
{
    change_kept!(alloc, sanitizer, Sanitizer(state), always {
        *account = AccountRow::from_account(state.sanitizer.account());
    })
}

/// Does the work of `escape_stream_sanitizer_end` of `escape_c`.
pub fn sanitizer_end(alloc: Global, sanitizer: &mut InChunks)
    ensures { IsEnded sanitizer.new }
{
    drop(sanitizer.take(alloc));
}

// Returns the status that says an error.
fn status_of(error: ParseError) -> u32
    ensures { result ≡ error_status error }
{
    match error {
        ParseError::Memory => NO_MEMORY,
        ParseError::Failed => NOT_BEGUN,
    }
}
