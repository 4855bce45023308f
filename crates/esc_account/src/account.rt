//! The account of a stream.
#![tactic(auto)]

ghost use Rattle.std.specs.Prelude.{◌≡◌, ◌++◌, ◌∷◌, ◌<◌, ◌^◌, ◌↔◌, IfOk, IsTrue, List, [], OnErr, OnOk, length};
ghost use Rattle.esc_frame.specs.Segments.{AreSegments, Segment as Shape, IsCut, is_finished, joined_bytes};
ghost use Rattle.esc_segments.specs.Items.{IsItem};
ghost use Rattle.fallible_alloc.specs.Refusals.{Refused};
ghost use Rattle.esc_account.specs.Accounts.{Counts, Enters, HasRoom, all_passed, begun, terminator_fate, entered_as, run, total};
ghost use Rattle.esc_account.specs.Entries.{Entry as Told, ends_string, entries, entry_as, entry_of, is_passed, noted_entries};
ghost use Rattle.esc_account.specs.Ledgers.{LineEnters, LineGives};

use crate::book::Book;
use crate::entry::Entry;
use crate::fate::Fate;
use crate::feeds::feeds;
use crate::first::ends_so;
use crate::judge::Judge;
use crate::sums::Sums;
use crate::terminator::{awaits_terminator, fate_after, is_terminator};
use crate::verdict::Verdict;
use esc_frame::laws;
use esc_segments::{Segment, SegmentKind};
use std::alloc::{AllocError, Allocator};

/// The fates of the bytes of a stream so far.
///
/// ```
/// let judge = PolicyJudge::by_lines(alloc, 65_536, Policy::Color, Unicode::Keep);
/// let account = Account::new().line_entered(&judge, b"a\x1b]0;t\x07b\n", b"ab\n")?;
/// account.sums.passed       // 3
/// account.sums.left_out     // 6
/// ```
#[derive(Clone, Copy, PartialEq, Eq, Debug)]
pub struct Account {
    /// How many had each fate.
    pub sums: Sums,
    /// The fate of the string that came last, if nothing came after it: the terminator that ends it
    /// goes the same way.
    pub string: Option<Fate>,
    /// The character that was written last, if it comes before the next text.
    pub before: Option<char>,
    /// How many line feeds they have.
    pub lines: u64,
}

impl Account {
    /// Makes the account of no byte.
    pub fn new() -> Account
        ensures { result ≡ begun }
    {
        Account {
            sums: Sums::new(),
            string: None,
            before: None,
            lines: 0,
        }
    }

    /// The account of these bytes too, which are in the output as they came. No string is
    /// unfinished after them.
    #[tactic(auto, using(crate::proofs::Counts::TotalIsLength::total_added, crate::proofs::Counts::FeedsAddUp::few_feeds))]
    #[inline]
    pub fn passed(self, bytes: &[u8]) -> Account
        requires room { HasRoom self (length bytes.now) }
        ensures passed { result ≡ all_passed bytes.now self }
        ensures counts { Counts self (length bytes.now) result }
    {
        Account {
            sums: self.sums.with(Fate::Passed, bytes.len() as u64),
            string: None,
            before: None,
            lines: self.lines + feeds(bytes),
        }
    }

    /// Enters these bytes too: each of their segments has the fate that the judge says, and those
    /// that did not pass are written into the book. The bytes go on from a place without an
    /// unfinished segment. `AllocError` says that a request for memory was refused.
    pub fn entered<A: Allocator, J: Judge<A>, B: Book<A>>(
        self,
        judge: &J,
        book: &mut B,
        bytes: &[u8],
    ) -> Result<Account, AllocError>
        requires room { HasRoom self (length bytes.now) }
        ensures entered { (gs : List Shape) → IsCut bytes.now gs
            → IfOk result (λ x. x ≡ run (J.rule judge.now) self gs) }
        ensures counts { IfOk result (Counts self (length bytes.now)) × OnErr result (Refused A) }
        ensures given { (gs : List Shape) (es : List Told) → IsCut bytes.now gs
            → B.was_given book.old es → OnOk result (B.was_given book.new
            (es ++ noted_entries (entries (J.rule judge.now) self gs))) }
    {
        self.line_run(judge, book, bytes, false)
    }

    /// Enters a line too, which is a stream of its own: if it was written as it came, all of it
    /// passed; else each of its segments has the fate that the judge says, but for a carriage
    /// return and the line feed that end both the line and its text: these passed. `AllocError`
    /// says that a request for memory was refused.
    pub fn line_entered<A: Allocator, J: Judge<A>, B: Book<A>>(
        self,
        judge: &J,
        book: &mut B,
        line: &[u8],
        written: &[u8],
    ) -> Result<Account, AllocError>
        requires room { HasRoom self (length line.now) }
        ensures entered { IfOk result
            (LineEnters (J.rule judge.now) self line.now written.now) }
        ensures counts { IfOk result (Counts self (length line.now)) × OnErr result (Refused A) }
        ensures given { (es : List Told) → B.was_given book.old es → OnOk result
            ((fs : List Told) × LineGives (J.rule judge.now) self line.now written.now fs
            × B.was_given book.new (es ++ fs)) }
    {
        laws::has_cut();
        laws::one_cut();
        if is_same(written, line) {
            Ok(self.passed(line))
        } else {
            let begun = Account {
                sums: self.sums,
                string: None,
                before: None,
                lines: self.lines,
            };
            begun.line_run(judge, book, line, ends_so(written))
        }
    }

    // The account of a segment too.
    pub(crate) fn segment_entered<A: Allocator, J: Judge<A>, B: Book<A>>(
        self,
        judge: &J,
        book: &mut B,
        segment: Segment<'_>,
    ) -> Result<Account, AllocError>
        requires room { HasRoom self (length segment.bytes.now) }
        ensures entered { IfOk result (Enters (J.rule judge.now) self segment.entry) }
        ensures counts { IfOk result (Counts self (length segment.entry.bytes.now))
            × OnErr result (Refused A) }
        ensures given { (g : Shape) (gs : List Shape) (es : List Told) → AreSegments (g ∷ gs)
            → IsItem segment.entry g (joined_bytes gs) → B.was_given book.old es
            → OnOk result (B.was_given book.new (es ++ noted_entries
            (entry_of (J.rule judge.now) self g (is_finished g (joined_bytes gs)) ∷ []))) }
    {
        match judge.verdict(self.before, segment) {
            Ok(own) => self.written(book, segment, own),
            Err(error) => Err(error),
        }
    }

    // The account of a segment too, of which by itself this becomes: it is written into the book,
    // unless it passed.
    pub(crate) fn written<A: Allocator, B: Book<A>>(
        self,
        book: &mut B,
        segment: Segment<'_>,
        own: Verdict,
    ) -> Result<Account, AllocError>
        requires room { HasRoom self (length segment.bytes.now) }
        ensures entered { IfOk result (λ x. x ≡ entered_as self segment.entry.kind
            segment.entry.bytes.now own) }
        ensures counts { IfOk result (Counts self (length segment.entry.bytes.now))
            × OnErr result (Refused A) }
        ensures given { (es : List Told) → B.was_given book.old es
            → OnOk result (B.was_given book.new
            (es ++ noted_entries (entry_as self segment.entry.kind
            segment.entry.bytes.now segment.entry.finished own.fate ∷ []))) }
    {
        match self.note(book, segment, own.fate) {
            Ok(()) => Ok(self.after(segment.kind, segment.bytes, own)),
            Err(error) => Err(error),
        }
    }

    // Writes a segment into the book, unless it passed.
    fn note<A: Allocator, B: Book<A>>(
        self,
        book: &mut B,
        segment: Segment<'_>,
        own: Fate,
    ) -> Result<(), AllocError>
        requires room { HasRoom self (length segment.bytes.now) }
        ensures given { (es : List Told) → B.was_given book.old es
            → OnOk result (B.was_given book.new
            (es ++ noted_entries (entry_as self segment.entry.kind
            segment.entry.bytes.now segment.entry.finished own ∷ []))) }
        ensures refused { OnErr result (Refused A) }
    {
        let fate = fate_after(self.string, segment.kind, segment.bytes, own);
        if is_passed(fate) {
            return Ok(());
        }
        book.enter(Entry {
            segment,
            fate,
            place: self.place(),
            line: self.lines,
            is_end: ends_string(self.string, segment.kind, segment.bytes),
        })
    }

    // How many bytes it is of.
    #[inline]
    pub(crate) fn place(self) -> u64
        requires { total self.sums < 2 ^ 64 }
        ensures { result ≡ total self.sums }
    {
        self.sums.total() as u64
    }

    // After a segment of this kind and these bytes, of which by itself this becomes.
    #[tactic(auto, using(crate::proofs::Counts::TotalIsLength::total_added, crate::proofs::Counts::FeedsAddUp::few_feeds))]
    fn after(self, kind: SegmentKind, bytes: &[u8], own: Verdict) -> Account
        requires room { HasRoom self (length bytes.now) }
        ensures entered { result ≡ entered_as self kind bytes.now own }
        ensures counts { Counts self (length bytes.now) result }
    {
        let fate = fate_after(self.string, kind, bytes, own.fate);
        let sums = self.sums.with(fate, bytes.len() as u64);
        Account {
            sums,
            string: carried(kind, bytes, fate),
            before: own.before,
            lines: self.lines + feeds(bytes),
        }
    }
}

// Whether the bytes are the same.
#[inline]
pub(crate) fn is_same(written: &[u8], line: &[u8]) -> bool
    ensures { IsTrue result ↔ (written.now ≡ line.now) }
{
    written == line
}

// Whether it is the fate of what passed.
fn is_passed(fate: Fate) -> bool
    ensures { result ≡ is_passed fate }
{
    matches!(fate, Fate::Passed)
}

// Whether the segment is a terminator directly after a string.
fn ends_string(string: Option<Fate>, kind: SegmentKind, bytes: &[u8]) -> bool
    ensures { result ≡ ends_string string kind bytes.now }
{
    match string {
        None => false,
        Some(_) => is_terminator(kind, bytes),
    }
}

// Returns the fate that decides on a terminator after the segment.
fn carried(kind: SegmentKind, bytes: &[u8], fate: Fate) -> Option<Fate>
    ensures { result ≡ terminator_fate kind bytes.now fate }
{
    if awaits_terminator(kind, bytes) {
        Some(fate)
    } else {
        None
    }
}
