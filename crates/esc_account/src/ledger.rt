//! The account of a stream that is one, as it comes.
#![tactic(auto)]

ghost use Rattle.std.specs.Prelude.{◌≡◌, List, OnErr, OnOk, [], length, ℕ};
ghost use Rattle.esc_account.specs.Accounts.{HasRoom};
ghost use Rattle.esc_account.specs.Ledgers.{IsCounted};
ghost use Rattle.esc_account.specs.Wholes.{Closes, Hears};
ghost use Rattle.esc_account.specs.Ways.{whole_way};
ghost use Rattle.fallible_alloc.specs.Refusals.{Refused};

use crate::account::Account;
use crate::audience::Tap;
use crate::book::Book;
use crate::judge::Judge;
use crate::kept::leave_out_first;
use crate::room::has_room;
use esc_frame::laws;
use std::alloc::{AllocError, Allocator, Global};

/// Keeps the account of a stream: it hears the bytes as they come. It keeps those of the segment
/// that is unfinished, and cuts it again once it has twice as many bytes, so that a long one costs
/// no more for each of its bytes. After 2^62 bytes nothing is said of it.
#[derive(Drop)]
pub struct Ledger<J, B, A: Allocator = Global> {
    judge: J,
    book: B,
    account: Account,
    // the unfinished segment
    rest: Vec<u8, A>,
    // how many bytes are kept before these are cut again
    next: usize,
}

impl<J: Judge<A>, B: Book<A>, A: Allocator> Ledger<J, B, A> {
    /// A ledger to which nothing came yet; this judge says the fate of a segment, and the bytes
    /// that did not pass are written into this book. Takes no memory.
    pub fn new(alloc: A, judge: J, book: B) -> Self
    where
        A: Copy,
        ensures hears { B.was_given book [] → Hears J.Judge B.Book result [] }
        ensures judge { result.judge ≡ judge }
    {
        Ledger {
            judge,
            book,
            account: Account::new(),
            rest: Vec::new(alloc),
            next: 0,
        }
    }

    /// Returns the account of the segments that are finished, and of all bytes once the stream has
    /// ended.
    pub fn account(&self) -> Account
        ensures { result ≡ self.now.account }
    {
        self.account
    }

    /// Returns the book of the bytes that did not pass.
    pub fn book(&self) -> &B
        ensures { result.now ≡ self.now.book }
    {
        &self.book
    }

    /// Returns the book of the bytes that did not pass. Nothing more may come of the stream.
    pub fn into_book(self) -> B
    where
        J: Drop,
        ensures { result ≡ self.book }
    {
        self.book
    }

    // Whether what is kept is to be cut later.
    fn waits(&self) -> bool {
        self.rest.len() < self.next
    }

    // Enters the segments that are finished, unless what is kept is to be cut later.
    fn look_in_time(&mut self) -> Result<(), AllocError>
        requires { HasRoom self.old.account (length self.old.rest.items) }
        ensures hears { (s : List ℕ) → Hears J.Judge B.Book self.old s
            → OnOk result (Hears J.Judge B.Book self.new s) }
        ensures judge { self.new.judge ≡ self.old.judge }
        ensures refused { OnErr result (Refused A) }
    {
        if self.waits() { Ok(()) } else { self.look() }
    }

    // Enters the segments that are finished, and says when to look again.
    fn look(&mut self) -> Result<(), AllocError>
        requires { HasRoom self.old.account (length self.old.rest.items) }
        ensures hears { (s : List ℕ) → Hears J.Judge B.Book self.old s
            → OnOk result (Hears J.Judge B.Book self.new s) }
        ensures judge { self.new.judge ≡ self.old.judge }
        ensures refused { OnErr result (Refused A) }
    {
        match self.enter_finished() {
            Ok(()) => {
                self.next = self.rest.len().saturating_mul(2);
                Ok(())
            }
            Err(error) => Err(error),
        }
    }

    // Enters the segments that are finished, and keeps what is not.
    fn enter_finished(&mut self) -> Result<(), AllocError>
        requires { HasRoom self.old.account (length self.old.rest.items) }
        ensures hears { (s : List ℕ) → Hears J.Judge B.Book self.old s
            → OnOk result (Hears J.Judge B.Book self.new s) }
        ensures judge { self.new.judge ≡ self.old.judge }
        ensures refused { OnErr result (Refused A) }
    {
        let book = &mut self.book;
        match self
            .account
            .finished_entered(&self.judge, book, &self.rest, false)
        {
            Ok((account, count)) => {
                self.account = account;
                leave_out_first(&mut self.rest, count);
                Ok(())
            }
            Err(error) => Err(error),
        }
    }
}

impl<J: Judge<A>, B: Book<A>, A: Allocator> Tap<A> for Ledger<J, B, A> {
    ghost heard = { λ k s _. IsCounted s → Hears J.Judge B.Book k s };

    ghost heard_all = { λ k s _. IsCounted s → Closes J.Judge B.Book k s };

    ghost goes_by = { λ k. whole_way (J.rule k.judge) };

    fn hear(&mut self, bytes: &[u8], _text: &str) -> Result<(), AllocError> {
        if !has_room(self.account, self.rest.len(), bytes.len()) {
            return Ok(());
        }
        match fallible_alloc::extend(&mut self.rest, bytes) {
            Ok(()) => self.look_in_time(),
            Err(error) => Err(error),
        }
    }

    fn hear_end(&mut self, _text: &str) -> Result<(), AllocError> {
        laws::has_cut();
        if !has_room(self.account, self.rest.len(), 0) {
            return Ok(());
        }
        match self
            .account
            .entered(&self.judge, &mut self.book, &self.rest)
        {
            Ok(account) => {
                self.account = account;
                self.rest.clear();
                Ok(())
            }
            Err(error) => Err(error),
        }
    }
}
