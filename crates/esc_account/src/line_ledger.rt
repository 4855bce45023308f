//! The account of a stream whose lines are streams of their own, as the stream comes.
#![tactic(auto)]

ghost use Rattle.std.specs.Prelude.{◌≡◌, ◌+◌, ◌++◌, ◌≤◌, List, OnErr, OnOk, [], length, take, true, ℕ};
ghost use Rattle.fallible_alloc.specs.Refusals.{Refused};
ghost use Rattle.esc_filter.specs.Lines.{IsLine, lines};
ghost use Rattle.esc_account.specs.Accounts.{Counts, HasRoom};
ghost use Rattle.esc_account.specs.Ways.{by_lines};
ghost use Rattle.esc_account.specs.Entries.{Entry as Told};
ghost use Rattle.esc_account.specs.Ledgers.{AreOpen, IsCounted, Keeps, Leaves, LineEnters, LineGives, LinesRun, Tells};

use crate::account::Account;
use crate::audience::Tap;
use crate::book::Book;
use crate::judge::Judge;
use crate::kept::{extend_both, leave_out_first};
use crate::room::has_room;
use crate::whole_lines::{lines_entered, rest_entered};
use esc_filter::line_length;
use std::alloc::{AllocError, Allocator, Global};

/// Keeps the account of a stream whose lines are streams of their own: it hears the bytes of the
/// stream as they come, each time with the text that was written of them, as by a
/// [`LineFilter`](esc_filter::LineFilter). The lines of the text are those that were written of the
/// lines of the stream, one for each. It keeps the bytes of the last line, and the text that was
/// written of it: lines that lie in a chunk are entered there. After 2^62 bytes nothing is said of
/// it.
#[derive(Drop)]
pub struct LineLedger<J, B, A: Allocator = Global> {
    judge: J,
    book: B,
    account: Account,
    // the bytes of the last line
    line: Vec<u8, A>,
    // the text that was written of it
    text: Vec<u8, A>,
    // whether neither is known to have a line feed
    is_open: bool,
}

impl<J: Judge<A>, B: Book<A>, A: Allocator> LineLedger<J, B, A> {
    /// A ledger to which nothing came yet; this judge says the fate of a segment, and the bytes
    /// that did not pass are written into this book. Takes no memory.
    pub fn new(alloc: A, judge: J, book: B) -> Self
    where
        A: Copy,
        ensures keeps { B.was_given book [] → Keeps J.Judge B.Book result [] [] }
        ensures judge { result.judge ≡ judge }
    {
        LineLedger {
            judge,
            book,
            account: Account::new(),
            line: Vec::new(alloc),
            text: Vec::new(alloc),
            is_open: true,
        }
    }

    /// Returns the account of the lines that have ended, and of all bytes once the stream has.
    pub fn account(&self) -> Account
        ensures { result ≡ self.now.account }
    {
        self.account
    }

    /// Returns the book of the bytes that did not pass.
    pub fn book(&self) -> &B
        ensures { result.now ≡ self.now.book }
    {
        &self.book
    }

    /// Returns the book of the bytes that did not pass. Nothing more may come of the stream.
    pub fn into_book(self) -> B
    where
        J: Drop,
        ensures { result ≡ self.book }
    {
        self.book
    }

    // Takes bytes more, and the text that was written of them.
    fn take(&mut self, bytes: &[u8], text: &[u8]) -> Result<(), AllocError>
        requires { HasRoom self.old.account (length self.old.line.items + length bytes.now) }
        ensures keeps { (s t : List ℕ) → Keeps J.Judge B.Book self.old s t
            → OnOk result (Keeps J.Judge B.Book self.new (s ++ bytes.now) (t ++ text.now)) }
        ensures judge { self.new.judge ≡ self.old.judge }
        ensures refused { OnErr result (Refused A) }
    {
        if !self.is_open {
            return self.take_more(bytes, text);
        }
        match (line_length(bytes), line_length(text)) {
            (Some(n), Some(m)) => self.take_lines(bytes, n, text, m),
            _ => self.take_more(bytes, text),
        }
    }

    // The same, where the line that is kept ends after n of the bytes, and its text after m.
    fn take_lines(
        &mut self,
        bytes: &[u8],
        n: usize,
        text: &[u8],
        m: usize,
    ) -> Result<(), AllocError>
        requires { (n ≤ length bytes.now) × (m ≤ length text.now)
            × HasRoom self.old.account (length self.old.line.items + length bytes.now) }
        ensures keeps { (s t : List ℕ) → Keeps J.Judge B.Book self.old s t
            → self.old.is_open ≡ true → IsLine (take n bytes.now) → IsLine (take m text.now)
            → OnOk result (Keeps J.Judge B.Book self.new (s ++ bytes.now) (t ++ text.now)) }
        ensures judge { self.new.judge ≡ self.old.judge }
        ensures refused { OnErr result (Refused A) }
    {
        match self.end_line(&bytes[..n], &text[..m]) {
            Ok(()) => self.take_after(&bytes[n..], &text[m..]),
            Err(error) => Err(error),
        }
    }

    // Takes bytes more, and the text that was written of them, where nothing is kept.
    fn take_after(&mut self, bytes: &[u8], text: &[u8]) -> Result<(), AllocError>
        requires { HasRoom self.old.account (length bytes.now) }
        ensures keeps { (s t : List ℕ) → self.old.line.items ≡ [] → self.old.text.items ≡ []
            → Leaves J.Judge B.Book self.old bytes.now text.now s t
            → OnOk result (Keeps J.Judge B.Book self.new s t) }
        ensures judge { self.new.judge ≡ self.old.judge }
        ensures refused { OnErr result (Refused A) }
    {
        match lines_entered(self.account, &self.judge, &mut self.book, bytes, text) {
            Ok(found) => {
                self.account = found.account;
                self.keep(&bytes[found.at..], &text[found.to..])
            }
            Err(error) => Err(error),
        }
    }

    // Enters the line that is kept and ends with these bytes, of which this was written.
    fn end_line(&mut self, bytes: &[u8], text: &[u8]) -> Result<(), AllocError>
        requires { HasRoom self.old.account (length self.old.line.items + length bytes.now) }
        ensures leaves { (b u s t : List ℕ) → AreOpen self.old.line.items self.old.text.items
            → IsLine bytes.now → IsLine text.now → Leaves J.Judge B.Book self.old
            (self.old.line.items ++ (bytes.now ++ b)) (self.old.text.items ++ (text.now ++ u)) s t
            → OnOk result (Leaves J.Judge B.Book self.new b u s t) }
        ensures after { OnOk result (Counts self.old.account
            (length self.old.line.items + length bytes.now) self.new.account
            × (self.new.line.items ≡ []) × (self.new.text.items ≡ [])) }
        ensures same { (self.new.judge ≡ self.old.judge) × OnErr result (Refused A) }
    {
        match extend_both(&mut self.line, bytes, &mut self.text, text) {
            Ok(()) => self.enter_line(),
            Err(error) => Err(error),
        }
    }

    // Enters the kept bytes as one line.
    fn enter_line(&mut self) -> Result<(), AllocError>
        requires { HasRoom self.old.account (length self.old.line.items) }
        ensures enters { OnOk result (LineEnters (J.rule self.old.judge) self.old.account
            self.old.line.items self.old.text.items self.new.account
            × Counts self.old.account (length self.old.line.items) self.new.account
            × (self.new.line.items ≡ []) × (self.new.text.items ≡ [])) }
        ensures given { (es : List Told) → B.was_given self.old.book es → OnOk result
            ((fs : List Told) × LineGives (J.rule self.old.judge) self.old.account
            self.old.line.items self.old.text.items fs × B.was_given self.new.book (es ++ fs)) }
        ensures same { (self.new.judge ≡ self.old.judge) × OnErr result (Refused A) }
    {
        let book = &mut self.book;
        match self
            .account
            .line_entered(&self.judge, book, &self.line, &self.text)
        {
            Ok(account) => {
                self.account = account;
                self.line.clear();
                self.text.clear();
                Ok(())
            }
            Err(error) => Err(error),
        }
    }

    // Keeps these, after what is kept.
    fn keep(&mut self, line: &[u8], text: &[u8]) -> Result<(), AllocError>
        ensures kept { OnOk result ((self.new.line.items ≡ self.old.line.items ++ line.now)
            × (self.new.text.items ≡ self.old.text.items ++ text.now)
            × (self.new.is_open ≡ true
            → (self.old.is_open ≡ true) × AreOpen line.now text.now)) }
        ensures same { (self.new.account ≡ self.old.account) × (self.new.book ≡ self.old.book)
            × (self.new.judge ≡ self.old.judge) }
        ensures refused { OnErr result (Refused A) }
    {
        match extend_both(&mut self.line, line, &mut self.text, text) {
            Ok(()) => {
                self.is_open = self.is_open && are_open(line, text);
                Ok(())
            }
            Err(error) => Err(error),
        }
    }

    // Takes bytes more into what is kept, and enters the lines that come whole there.
    fn take_more(&mut self, bytes: &[u8], text: &[u8]) -> Result<(), AllocError>
        requires { HasRoom self.old.account (length self.old.line.items + length bytes.now) }
        ensures keeps { (s t : List ℕ) → Keeps J.Judge B.Book self.old s t
            → OnOk result (Keeps J.Judge B.Book self.new (s ++ bytes.now) (t ++ text.now)) }
        ensures judge { self.new.judge ≡ self.old.judge }
        ensures refused { OnErr result (Refused A) }
    {
        let was_open = self.is_open;
        match self.keep(bytes, text) {
            Ok(()) => { if was_open { Ok(()) } else { self.enter_kept() } }
            Err(error) => Err(error),
        }
    }

    // Enters the whole lines of the kept bytes.
    fn enter_kept(&mut self) -> Result<(), AllocError>
        requires { HasRoom self.old.account (length self.old.line.items) }
        ensures keeps { (s t : List ℕ) → Leaves J.Judge B.Book self.old self.old.line.items
            self.old.text.items s t → OnOk result (Keeps J.Judge B.Book self.new s t) }
        ensures judge { self.new.judge ≡ self.old.judge }
        ensures refused { OnErr result (Refused A) }
    {
        let book = &mut self.book;
        match lines_entered(self.account, &self.judge, book, &self.line, &self.text) {
            Ok(found) => {
                self.account = found.account;
                leave_out_first(&mut self.line, found.at);
                leave_out_first(&mut self.text, found.to);
                self.is_open = are_open(&self.line, &self.text);
                Ok(())
            }
            Err(error) => Err(error),
        }
    }

    // Enters all lines of the kept bytes.
    fn enter_rest(&mut self) -> Result<(), AllocError>
        requires { HasRoom self.old.account (length self.old.line.items) }
        ensures run { (es : List Told) → B.was_given self.old.book es → OnOk result
            ((fs : List Told) × LinesRun (J.rule self.old.judge) self.old.account
            (lines self.old.line.items) (lines self.old.text.items) self.new.account fs
            × B.was_given self.new.book (es ++ fs)) }
        ensures counts { OnOk result (Counts self.old.account (length self.old.line.items)
            self.new.account) }
        ensures same { (self.new.judge ≡ self.old.judge) × OnErr result (Refused A) }
    {
        let book = &mut self.book;
        match rest_entered(self.account, &self.judge, book, &self.line, &self.text) {
            Ok(account) => {
                self.account = account;
                Ok(())
            }
            Err(error) => Err(error),
        }
    }
}

// Whether neither has a line feed.
fn are_open(line: &[u8], text: &[u8]) -> bool
    ensures { result ≡ true → AreOpen line.now text.now }
{
    line_length(line).is_none() && line_length(text).is_none()
}

impl<J: Judge<A>, B: Book<A>, A: Allocator> Tap<A> for LineLedger<J, B, A> {
    ghost heard = { λ k s t. IsCounted s → Keeps J.Judge B.Book k s t };

    ghost heard_all = { λ k s t. IsCounted s → Tells J.Judge B.Book k s t };

    ghost goes_by = { λ k. by_lines (J.rule k.judge) };

    fn hear(&mut self, bytes: &[u8], text: &str) -> Result<(), AllocError> {
        if !has_room(self.account, self.line.len(), bytes.len()) {
            return Ok(());
        }
        self.take(bytes, text.as_bytes())
    }

    fn hear_end(&mut self, text: &str) -> Result<(), AllocError> {
        if !has_room(self.account, self.line.len(), 0) {
            return Ok(());
        }
        match fallible_alloc::extend(&mut self.text, text.as_bytes()) {
            Ok(()) => self.enter_rest(),
            Err(error) => Err(error),
        }
    }
}
