//! The account of lines, each with its text.
#![tactic(auto)]

ghost use Rattle.std.specs.Prelude.{◌≡◌, ◌++◌, ◌<◌, ◌≤◌, IfOk, IfSome, List, OnErr, drop, length, take, ℕ};
ghost use Rattle.fallible_alloc.specs.Refusals.{Refused};
ghost use Rattle.esc_filter.specs.Lines.{IsLine, lines};
ghost use Rattle.esc_account.specs.Accounts.{Counts, HasRoom};
ghost use Rattle.esc_account.specs.Entries.{Entry as Told};
ghost use Rattle.esc_account.specs.Ledgers.{LinesRun, PassesSame, Stands, first, others};

use crate::account::Account;
use crate::book::Book;
use crate::judge::Judge;
use crate::same_lines::same_lines;
use esc_filter::line_length;
use std::alloc::{AllocError, Allocator};

/// An account of lines too.
#[derive(Clone, Copy)]
pub(crate) struct Found {
    pub account: Account,
    /// How many bytes these lines are.
    pub at: usize,
    /// How many bytes were written of them.
    pub to: usize,
}

/// Enters the first whole lines too, for which whole lines of the text were written.
/// `AllocError` says that a request for memory was refused.
pub(crate) fn lines_entered<A: Allocator, J: Judge<A>, B: Book<A>>(
    account: Account,
    judge: &J,
    book: &mut B,
    line: &[u8],
    text: &[u8],
) -> Result<Found, AllocError>
    requires room { HasRoom account (length line.now) }
    ensures stands { (s t : List ℕ)
        → Stands (J.rule judge.now) (B.was_given book.old) account line.now text.now s t
        → IfOk result (λ f. Stands (J.rule judge.now) (B.was_given book.new) f.account
        (drop f.at line.now) (drop f.to text.now) s t) }
    ensures counts { IfOk result (λ f. (f.at ≤ length line.now) × (f.to ≤ length text.now)
        × Counts account f.at f.account) }
    ensures refused { OnErr result (Refused A) }
{
    let mut found = Found {
        account,
        at: 0,
        to: 0,
    };
    while let Some((n, m)) = next_line(&line[found.at..], &text[found.to..]) {
        let (at, to) = (found.at + n, found.to + m);
        let entered = found
            .account
            .line_entered(judge, book, &line[found.at..at], &text[found.to..to])?;
        let (passed, same) = same_passed(entered, &line[at..], &text[to..]);
        found = Found {
            account: passed,
            at: at + same,
            to: to + same,
        };
    }
    Ok(found)
}

// The length of the line that comes first, and of what was written of it, where both come whole.
fn next_line(line: &[u8], text: &[u8]) -> Option<(usize, usize)>
    ensures few { IfSome result (λ r. (0 < r.0) × (r.0 ≤ length line.now)
        × (r.1 ≤ length text.now)) }
    ensures lines { IfSome result (λ r. IsLine (take r.0 line.now) × IsLine (take r.1 text.now)) }
{
    match line_length(line) {
        Some(n) => match line_length(text) {
            Some(m) => Some((n, m)),
            None => None,
        },
        None => None,
    }
}

// The account of the lines too that come first, and were written as they came; and how many bytes
// these are.
fn same_passed(account: Account, line: &[u8], text: &[u8]) -> (Account, usize)
    requires room { HasRoom account (length line.now) }
    ensures passed { PassesSame account line.now text.now result.1 result.0 }
    ensures counts { (result.1 ≤ length line.now) × (result.1 ≤ length text.now)
        × Counts account result.1 result.0 }
{
    let same = same_lines(line, text);
    if same == 0 {
        return (account, 0);
    }
    (account.passed(&line[..same]), same)
}

/// Enters all these lines too, each with the line of the text in the same place, or nothing if
/// there is none. `AllocError` says that a request for memory was refused.
pub(crate) fn rest_entered<A: Allocator, J: Judge<A>, B: Book<A>>(
    account: Account,
    judge: &J,
    book: &mut B,
    line: &[u8],
    text: &[u8],
) -> Result<Account, AllocError>
    requires room { HasRoom account (length line.now) }
    ensures run { (es : List Told) → B.was_given book.old es → IfOk result (λ x.
        (fs : List Told) × LinesRun (J.rule judge.now) account (lines line.now) (lines text.now) x
        fs × B.was_given book.new (es ++ fs)) }
    ensures counts { IfOk result (Counts account (length line.now)) }
    ensures refused { OnErr result (Refused A) }
{
    let mut account = account;
    let mut at = 0;
    let mut to = 0;
    while at < line.len() {
        let n = first_line(&line[at..]);
        let m = first_line(&text[to..]);
        account = account.line_entered(judge, book, &line[at..at + n], &text[to..to + m])?;
        at += n;
        to += m;
    }
    Ok(account)
}

// The length of the line that comes first, with its line feed or without.
fn first_line(bytes: &[u8]) -> usize
    ensures few { (result ≤ length bytes.now) × (0 < length bytes.now → 0 < result) }
    ensures first { first (lines bytes.now) ≡ take result bytes.now }
    ensures others { others (lines bytes.now) ≡ lines (drop result bytes.now) }
{
    match line_length(bytes) {
        Some(n) => n,
        None => bytes.len(),
    }
}
