//! The keeper of the account of a stream, if there is one.
ghost use Rattle.std.specs.Prelude.{◌≡◌, ℕ, List, IfSome, MatchOption, None, Some, []};
ghost use Rattle.esc_sanitize.specs.Overwritten.{sums_with_overwritten, with_overwritten};

use crate::judging::Judging;
use crate::options::FilterOptions;
use esc_account::{Account, Book, Ledger, LineLedger, Sums, Tap};
use esc_filter::Admit;
use std::alloc::{AllocError, Allocator, Global};

/// Keeps the account of a stream that is filtered by options, or none.
#[derive(Drop)]
pub enum Auditor<P, B, A: Allocator = Global> {
    /// None.
    Nobody,
    /// The account by lines, each a stream of its own, and the number of bytes overwritten.
    Lines(LineLedger<Judging<P, A>, B, A>, u64),
    /// The account of the stream as a whole, and the number of bytes overwritten.
    Whole(Ledger<Judging<P, A>, B, A>, u64),
}

impl<P: Admit<A> + Drop, B: Book<A> + Drop, A: Allocator + Copy> Auditor<P, B, A> {
    ghost use Rattle.esc_sanitize.specs.Audits.{Heard, account_of, book_of, way_by, way_of};

    /// Makes the auditor of no byte yet of a stream that is filtered by these options; bytes that
    /// did not pass are written into this book. Takes no memory.
    pub fn new(alloc: A, options: FilterOptions<P>, book: B) -> Auditor<P, B, A>
        ensures heard { B.was_given book [] → Heard P.Admit B.Book result [] [] }
        ensures way { way_of P.Admit result ≡ way_by P.Admit options }
    {
        let by_lines = options.by_lines;
        if !options.audits {
            return Auditor::Nobody;
        }
        let judge = Judging::new(alloc, options);
        if by_lines {
            Auditor::Lines(LineLedger::new(alloc, judge, book), 0)
        } else {
            Auditor::Whole(Ledger::new(alloc, judge, book), 0)
        }
    }

    /// Returns the account, and the book of the bytes that did not pass.
    pub fn account(&self) -> Option<(Account, &B)>
        ensures account { MatchOption result (account_of self.now ≡ None)
            (λ r. account_of self.now ≡ Some r.0) }
        ensures book { IfSome result (λ r. book_of self.now ≡ Some r.1.now) }
    {
        match self {
            Auditor::Nobody => None,
            Auditor::Lines(ledger, count) => {
                Some((with_overwritten(ledger.account(), *count), ledger.book()))
            }
            Auditor::Whole(ledger, count) => {
                Some((with_overwritten(ledger.account(), *count), ledger.book()))
            }
        }
    }

    /// The book of the whole stream.
    pub fn into_book(self) -> Option<B> {
        match self {
            Auditor::Nobody => None,
            Auditor::Lines(ledger, _) => Some(ledger.into_book()),
            Auditor::Whole(ledger, _) => Some(ledger.into_book()),
        }
    }
}

impl<P: Admit<A>, B: Book<A>, A: Allocator + Copy> Auditor<P, B, A> {
    ghost use Rattle.esc_sanitize.specs.Audits.{HeardAll, HasNoted, way_of};

    /// So many bytes are overwritten.
    pub fn note(&mut self, count: u64)
        ensures noted { HasNoted count self.new }
        ensures heard { (s t : List ℕ) → HeardAll P.Admit B.Book self.old s t
            → HeardAll P.Admit B.Book self.new s t }
        ensures way { way_of P.Admit self.new ≡ way_of P.Admit self.old }
    {
        match self {
            Auditor::Nobody => {}
            Auditor::Lines(_, noted) => *noted = count,
            Auditor::Whole(_, noted) => *noted = count,
        }
    }
}

impl<P: Admit<A>, B: Book<A>, A: Allocator + Copy> Tap<A> for Auditor<P, B, A> {
    ghost use Rattle.esc_sanitize.specs.Audits.{Heard, HeardAll, way_of};

    ghost heard = { λ k s t. Heard P.Admit B.Book k s t };

    ghost heard_all = { λ k s t. HeardAll P.Admit B.Book k s t };

    ghost goes_by = { λ k. way_of P.Admit k };

    fn hear(&mut self, bytes: &[u8], text: &str) -> Result<(), AllocError> {
        match self {
            Auditor::Nobody => Ok(()),
            Auditor::Lines(ledger, _) => ledger.hear(bytes, text),
            Auditor::Whole(ledger, _) => ledger.hear(bytes, text),
        }
    }

    fn hear_end(&mut self, text: &str) -> Result<(), AllocError> {
        match self {
            Auditor::Nobody => Ok(()),
            Auditor::Lines(ledger, _) => ledger.hear_end(text),
            Auditor::Whole(ledger, _) => ledger.hear_end(text),
        }
    }
}

// This account, where so many bytes are overwritten.
fn with_overwritten(account: Account, count: u64) -> Account
    ensures { result ≡ with_overwritten count account }
{
    Account {
        sums: moved(account.sums, count),
        ..account
    }
}

// So many bytes are overwritten: of those that passed, that are shown, and that are replaced.
fn moved(sums: Sums, count: u64) -> Sums
    ensures { result ≡ sums_with_overwritten count sums }
{
    let past_passed = count.saturating_sub(sums.passed);
    let past_shown = past_passed.saturating_sub(sums.shown);
    let past_replaced = past_shown.saturating_sub(sums.replaced);
    let moved = count.saturating_sub(past_replaced);
    Sums {
        passed: sums.passed.saturating_sub(count),
        shown: sums.shown.saturating_sub(past_passed),
        replaced: sums.replaced.saturating_sub(past_shown),
        overwritten: sums.overwritten.saturating_add(moved),
        ..sums
    }
}
