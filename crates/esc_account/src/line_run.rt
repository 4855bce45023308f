//! The account of a line, whose end is apart from its segments.
#![tactic(auto)]

ghost use Rattle.std.specs.Prelude.{◌≡◌, ◌≤◌, ◌++◌, ◌∷◌, IfOk, List, OnErr, OnOk, [], drop, length};
ghost use Rattle.esc_frame.specs.Segments.{Segment as Shape, IsCut};
ghost use Rattle.fallible_alloc.specs.Refusals.{Refused};
ghost use Rattle.esc_account.specs.Accounts.{Counts, HasRoom};
ghost use Rattle.esc_account.specs.Entries.{Entry as Told, noted_entries};
ghost use Rattle.esc_account.specs.Finished.{Finishes, IsLast, Takes};
ghost use Rattle.esc_account.specs.Leaving.{all_left, left_entry};
ghost use Rattle.esc_account.specs.LineEnds.{line_entries, run_line};
ghost use Rattle.esc_account.specs.Passing.{Passes, sequence_passed};

use crate::account::Account;
use crate::book::Book;
use crate::entry::Entry;
use crate::fate::Fate;
use crate::first::{after, first_segment, is_end, segment_ahead};
use crate::judge::Judge;
use crate::terminator::leaves_end;
use crate::verdict::Verdict;
use esc_frame::laws;
use esc_segments::{Segment, SegmentKind};
use std::alloc::{AllocError, Allocator};

impl Account {
    /// Enters a line too; the judge says the fate of each segment. If `ends`, a carriage return and
    /// a line feed end its text: they passed once nothing else of the line is left.
    pub(crate) fn line_run<A: Allocator, J: Judge<A>, B: Book<A>>(
        self,
        judge: &J,
        book: &mut B,
        line: &[u8],
        ends: bool,
    ) -> Result<Account, AllocError>
        requires room { HasRoom self (length line.now) }
        ensures entered { (gs : List Shape) → IsCut line.now gs
            → IfOk result (λ x. x ≡ run_line ends (J.rule judge.now) self gs) }
        ensures counts { IfOk result (Counts self (length line.now)) × OnErr result (Refused A) }
        ensures given { (gs : List Shape) (es : List Told) → IsCut line.now gs
            → B.was_given book.old es → OnOk result (B.was_given book.new
            (es ++ noted_entries (line_entries ends (J.rule judge.now) self gs))) }
    {
        laws::one_cut();
        laws::has_cut();
        match self.finished_entered(judge, book, line, ends) {
            Ok((account, count)) => account.last_run(judge, book, after(line, count), ends),
            Err(error) => Err(error),
        }
    }

    // The same of the end, or of the one segment that is left.
    fn last_run<A: Allocator, J: Judge<A>, B: Book<A>>(
        self,
        judge: &J,
        book: &mut B,
        rest: &[u8],
        ends: bool,
    ) -> Result<Account, AllocError>
        requires room { HasRoom self (length rest.now) × IsLast ends rest.now }
        ensures entered { (gs : List Shape) → IsCut rest.now gs
            → IfOk result (λ x. x ≡ run_line ends (J.rule judge.now) self gs) }
        ensures counts { IfOk result (Counts self (length rest.now)) × OnErr result (Refused A) }
        ensures given { (gs : List Shape) (es : List Told) → IsCut rest.now gs
            → B.was_given book.old es → OnOk result (B.was_given book.new
            (es ++ noted_entries (line_entries ends (J.rule judge.now) self gs))) }
    {
        laws::has_cut();
        if is_end(ends, rest) {
            return Ok(self.passed(rest));
        }
        match first_segment(rest) {
            None => Ok(self),
            Some(segment) => self.segment_entered(judge, book, segment),
        }
    }

    /// The account of the segments of these bytes that are finished, and how many bytes these are.
    /// If `ends`, a carriage return and a line feed that end the bytes are not entered.
    pub(crate) fn finished_entered<A: Allocator, J: Judge<A>, B: Book<A>>(
        self,
        judge: &J,
        book: &mut B,
        bytes: &[u8],
        ends: bool,
    ) -> Result<(Account, usize), AllocError>
        requires room { HasRoom self (length bytes.now) }
        ensures finishes { IfOk result (λ r. (fs : List Told)
            × Finishes ends (J.rule judge.now) self bytes.now (drop r.1 bytes.now) r.0 fs
            × Takes B.Book book.old fs book.new) }
        ensures counts { IfOk result (λ r. (r.1 ≤ length bytes.now) × Counts self r.1 r.0)
            × OnErr result (Refused A) }
        ensures last { IfOk result (λ r. IsLast ends (drop r.1 bytes.now)) }
    {
        let mut account = self;
        let mut rest = bytes;
        loop {
            let (longer, count) = account.next_entered(judge, book, rest, ends)?;
            account = longer;
            rest = after(rest, count);
            if count == 0 {
                return Ok((account, bytes.len() - rest.len()));
            }
        }
    }

    // Enters a sequence that is left out, characters that pass, a sequence that passes, or another
    // finished segment, and returns the account with it and its length. The first two are most of a
    // line, and the code for them is in the loop.
    #[inline(always)]
    fn next_entered<A: Allocator, J: Judge<A>, B: Book<A>>(
        self,
        judge: &J,
        book: &mut B,
        bytes: &[u8],
        ends: bool,
    ) -> Result<(Account, usize), AllocError>
        requires room { HasRoom self (length bytes.now) }
        ensures finishes { IfOk result (λ r. (fs : List Told)
            × Finishes ends (J.rule judge.now) self bytes.now (drop r.1 bytes.now) r.0 fs
            × Takes B.Book book.old fs book.new) }
        ensures counts { IfOk result (λ r. (r.1 ≤ length bytes.now) × Counts self r.1 r.0)
            × OnErr result (Refused A) }
        ensures last { IfOk result (λ r. r.1 ≡ 0 → IsLast ends bytes.now) }
    {
        let left = judge.left_ahead(bytes);
        if left > 0 {
            return match self.left_entered(book, &bytes[..left]) {
                Ok(longer) => Ok((longer, left)),
                Err(error) => Err(error),
            };
        }
        let (account, run) = self.text_passed(judge, bytes);
        if run > 0 {
            return Ok((account, run));
        }
        let passed = judge.passed_ahead(bytes);
        if passed > 0 {
            return Ok((self.sequence_passed(&bytes[..passed]), passed));
        }
        self.end_entered(judge, book, bytes, ends)
    }

    // Does the same for a finished segment, most often `ESC \` after a string.
    #[inline(never)]
    fn end_entered<A: Allocator, J: Judge<A>, B: Book<A>>(
        self,
        judge: &J,
        book: &mut B,
        bytes: &[u8],
        ends: bool,
    ) -> Result<(Account, usize), AllocError>
        requires room { HasRoom self (length bytes.now) }
        ensures finishes { IfOk result (λ r. (fs : List Told)
            × Finishes ends (J.rule judge.now) self bytes.now (drop r.1 bytes.now) r.0 fs
            × Takes B.Book book.old fs book.new) }
        ensures counts { IfOk result (λ r. (r.1 ≤ length bytes.now) × Counts self r.1 r.0)
            × OnErr result (Refused A) }
        ensures last { IfOk result (λ r. r.1 ≡ 0 → IsLast ends bytes.now) }
    {
        if !leaves_end(judge, bytes) {
            return self.other_entered(judge, book, bytes, ends);
        }
        let segment = Segment {
            kind: SegmentKind::Escape,
            bytes: &bytes[..2],
            finished: true,
        };
        let own = Verdict {
            fate: Fate::LeftOut,
            before: self.before,
        };
        match self.written(book, segment, own) {
            Ok(longer) => Ok((longer, 2)),
            Err(error) => Err(error),
        }
    }

    // Does the same for any finished segment.
    fn other_entered<A: Allocator, J: Judge<A>, B: Book<A>>(
        self,
        judge: &J,
        book: &mut B,
        bytes: &[u8],
        ends: bool,
    ) -> Result<(Account, usize), AllocError>
        requires room { HasRoom self (length bytes.now) }
        ensures finishes { IfOk result (λ r. (fs : List Told)
            × Finishes ends (J.rule judge.now) self bytes.now (drop r.1 bytes.now) r.0 fs
            × Takes B.Book book.old fs book.new) }
        ensures counts { IfOk result (λ r. (r.1 ≤ length bytes.now) × Counts self r.1 r.0)
            × OnErr result (Refused A) }
        ensures last { IfOk result (λ r. r.1 ≡ 0 → IsLast ends bytes.now) }
    {
        laws::has_cut();
        match segment_ahead(bytes, ends) {
            None => Ok((self, 0)),
            Some(segment) => match self.segment_entered(judge, book, segment) {
                Ok(longer) => Ok((longer, segment.bytes.len())),
                Err(error) => Err(error),
            },
        }
    }

    // The account of the bytes too of a control sequence that is left out by itself.
    #[inline(always)]
    fn left_entered<A: Allocator, B: Book<A>>(
        self,
        book: &mut B,
        bytes: &[u8],
    ) -> Result<Account, AllocError>
        requires room { HasRoom self (length bytes.now) }
        ensures entered { IfOk result (λ x. x ≡ all_left bytes.now self) }
        ensures counts { IfOk result (Counts self (length bytes.now)) × OnErr result (Refused A) }
        ensures given { (es : List Told) → B.was_given book.old es → OnOk result
            (B.was_given book.new (es ++ left_entry self bytes.now ∷ [])) }
    {
        let segment = Segment {
            kind: SegmentKind::Csi,
            bytes,
            finished: true,
        };
        book.enter(Entry {
            segment,
            fate: Fate::LeftOut,
            place: self.place(),
            line: self.lines,
            is_end: false,
        })?;
        Ok(Account {
            sums: self.sums.with(Fate::LeftOut, bytes.len() as u64),
            string: None,
            ..self
        })
    }

    // Returns the account with the bytes of a control sequence that passes by itself.
    #[inline(always)]
    fn sequence_passed(self, bytes: &[u8]) -> Account
        requires room { HasRoom self (length bytes.now) }
        ensures entered { result ≡ sequence_passed bytes.now self }
        ensures counts { Counts self (length bytes.now) result }
    {
        Account {
            sums: self.sums.with(Fate::Passed, bytes.len() as u64),
            string: None,
            before: None,
            ..self
        }
    }

    // The account of the characters too that come first, of which the judge says at once that they
    // pass; and how many bytes these are.
    #[inline(always)]
    fn text_passed<A: Allocator, J: Judge<A>>(self, judge: &J, bytes: &[u8]) -> (Account, usize)
        requires room { HasRoom self (length bytes.now) }
        ensures passes { Passes (J.rule judge.now) self bytes.now (drop result.1 bytes.now)
            result.0 }
        ensures counts { (result.1 ≤ length bytes.now) × Counts self result.1 result.0 }
    {
        let (count, before) = judge.passing(self.before, bytes);
        if count == 0 {
            return (self, 0);
        }
        let account = Account {
            before,
            ..self.passed(&bytes[..count])
        };
        (account, count)
    }
}
