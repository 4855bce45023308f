//! A filter of a stream that comes in chunks, with its account.
ghost use Rattle.std.specs.Prelude.{◌≡◌, ◌++◌, Err, ℕ, List, [], OnErr, OnOk};
ghost use Rattle.fallible_alloc.specs.Refusals.{Refused};

use crate::chain::{Chain, Sanitizing, sanitizing};
use crate::options::FilterOptions;
use esc_account::{Account, NoBook};
use esc_filter::{Admit, StreamFilter};
use esc_frame::ParseError;
use std::alloc::{Allocator, Global};

/// Takes a stream in whatever chunks it comes, and has for each the text that it adds, as the
/// program `escfilter` writes it under these options; and keeps the account of the stream.
///
/// It keeps as much as its filter of an unfinished sequence or line, at most a few times the limit
/// of the options, the text of the last chunk, and for the account the line that is unfinished with
/// its text, or the unfinished segment; and the rows that may be written again.
#[derive(Drop)]
pub struct Sanitizer<P, A: Allocator = Global> {
    staged: Sanitizing<P, NoBook, A>,
    // nothing failed, and the stream has not ended
    is_open: bool,
    has_failed: bool,
}

impl<P: Admit<A> + Drop, A: Allocator + Copy> Sanitizer<P, A> {
    ghost use Rattle.esc_sanitize.specs.Sanitized.{HasEnded, IsClosed, HasConsumed, account_in, added_by, options_of};
    ghost use Rattle.esc_sanitize.specs.Written.{going_of, text_of};

    /// A sanitizer at the beginning of a stream. It takes no memory, but for rows that may be
    /// written again: if that is refused, the first call says so.
    pub fn new(alloc: A, options: FilterOptions<P>) -> Sanitizer<P, A>
    where
        P: Copy,
        ensures fed { HasConsumed ⟦<Chain<P, A> as StreamFilter<A>>⟧ P.Admit [] result }
        ensures options { options_of result ≡ options }
    {
        Sanitizer {
            staged: sanitizing(alloc, options, NoBook),
            is_open: true,
            has_failed: false,
        }
    }

    /// Takes `bytes`. Their addition to the text of the stream so far is then the
    /// [`output`](Self::output).
    ///
    /// `ParseError::Memory` says that a request for memory was refused, and `ParseError::Failed`
    /// that an earlier call failed, or that the stream has ended. After an error the text is empty,
    /// and every call returns `Failed`.
    pub fn feed(&mut self, bytes: &[u8]) -> Result<(), ParseError>
        ensures given { (s : List ℕ) → HasConsumed ⟦<Chain<P, A> as StreamFilter<A>>⟧ P.Admit s
            self.old
            → OnOk result (HasConsumed ⟦<Chain<P, A> as StreamFilter<A>>⟧ P.Admit (s ++ bytes.now)
            self.new
            × (going_of P.Admit (options_of self.old) (s ++ bytes.now)
            ≡ going_of P.Admit (options_of self.old) s
            ++ added_by ⟦<Chain<P, A> as StreamFilter<A>>⟧ self.new)) }
        ensures refused { (s : List ℕ) → HasConsumed ⟦<Chain<P, A> as StreamFilter<A>>⟧ P.Admit s
            self.old
            → OnErr result ((result ≡ Err ParseError.Memory) × Refused A) }
        ensures failed { IsClosed self.old → result ≡ Err ParseError.Failed }
        ensures after { OnErr result (IsClosed self.new
            × (added_by ⟦<Chain<P, A> as StreamFilter<A>>⟧ self.new ≡ []))
            × (options_of self.new ≡ options_of self.old) }
    {
        if !self.is_open {
            return self.fail(ParseError::Failed);
        }
        match self.staged.feed(bytes) {
            Ok(()) => Ok(()),
            Err(_) => self.fail(ParseError::Memory),
        }
    }

    /// Ends the stream. The addition of the end to its text is then the [`output`](Self::output):
    /// the unfinished rest, as far as it is shown, the resets of the state that the stream left
    /// changed at a terminal, and the rows that are left.
    ///
    /// The errors are those of [`feed`](Self::feed). After `Ok` too every call returns `Failed`.
    pub fn finish(&mut self) -> Result<(), ParseError>
        ensures ended { (s : List ℕ) → HasConsumed ⟦<Chain<P, A> as StreamFilter<A>>⟧ P.Admit s
            self.old
            → OnOk result (HasEnded P.Admit s self.new
            × (text_of P.Admit (options_of self.old) s
            ≡ going_of P.Admit (options_of self.old) s
            ++ added_by ⟦<Chain<P, A> as StreamFilter<A>>⟧ self.new)) }
        ensures refused { (s : List ℕ) → HasConsumed ⟦<Chain<P, A> as StreamFilter<A>>⟧ P.Admit s
            self.old
            → OnErr result ((result ≡ Err ParseError.Memory) × Refused A) }
        ensures failed { IsClosed self.old → result ≡ Err ParseError.Failed }
        ensures after { OnErr result (added_by ⟦<Chain<P, A> as StreamFilter<A>>⟧ self.new ≡ [])
            × IsClosed self.new × (options_of self.new ≡ options_of self.old) }
    {
        if !self.is_open {
            return self.fail(ParseError::Failed);
        }
        self.is_open = false;
        match self.staged.finish() {
            Ok(()) => Ok(()),
            Err(_) => self.fail(ParseError::Memory),
        }
    }

    /// The text that the last call added; empty after an error.
    pub fn output(&self) -> &str
        ensures { result.now ≡ added_by ⟦<Chain<P, A> as StreamFilter<A>>⟧ self.now }
    {
        if self.has_failed {
            ""
        } else {
            self.staged.output()
        }
    }

    /// Returns the account of the lines, or of the segments, that have ended; and of all bytes,
    /// once [`finish`](Self::finish) has returned `Ok`. Its sums then add up to the length of the
    /// decoded stream, if that is less than 2^62. It is the account of no byte if the options ask
    /// for none.
    pub fn account(&self) -> Account
        ensures { result ≡ account_in self.now }
    {
        match self.staged.auditor().account() {
            Some((account, _)) => account,
            None => Account::new(),
        }
    }

    /// How the stream is filtered.
    pub fn options(&self) -> &FilterOptions<P>
        ensures { result.now ≡ options_of self.now }
    {
        self.staged.options()
    }

    // Fails with this error.
    fn fail(&mut self, error: ParseError) -> Result<(), ParseError>
        ensures result { result ≡ Err error }
        ensures closed { IsClosed self.new
            × (added_by ⟦<Chain<P, A> as StreamFilter<A>>⟧ self.new ≡ []) }
        ensures options { options_of self.new ≡ options_of self.old }
    {
        self.is_open = false;
        self.has_failed = true;
        Err(error)
    }
}
