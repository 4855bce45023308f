//! A table of the bytes of a stream that did not pass.
#![tactic(auto)]

ghost use Rattle.std.specs.Prelude.{◌≡◌, ◌++◌, ◌∷◌, ◌<◌, ◌==◌, ℕ, IfOk, IfSome, List, None, OnErr, OnOk, [], false, if◌then◌else◌, length, true};
ghost use Rattle.fallible_alloc.specs.Refusals.{Refused};
ghost use Rattle.esc_account.specs.Entries.{Entry as Told, as_entry, order};
ghost use Rattle.esc_account.specs.Rows.{BeginsOne, GoesTo, HasRowsOf, IsOther, IsRowOf, Named, after_these, has_row, is_row, under};
ghost use Rattle.esc_account.specs.Tables.{HasAll, HasAllRows, IsRow, SameRows, row_plus};
ghost use Rattle.esc_account.specs.declared.row.Row.{Row as Line};

use crate::entry::Entry;
use crate::fate::Fate;
use crate::place::Place;
use crate::row::Row;
use std::alloc::{AllocError, Allocator, Global};

/// A table of the bytes of a stream that did not pass: a row for each fate and name, in the order
/// in which the first of each came.
#[derive(Drop)]
pub struct Table<N, A: Allocator = Global> {
    rows: Vec<Row<N>, A>,
    // the row of the entry that came last
    last: usize,
}

impl<N: Copy + Eq, A: Allocator> Table<N, A> {
    /// No rows. Takes no memory.
    pub fn new(alloc: A) -> Self
        ensures all { HasAll result [] }
        ensures rows { HasRowsOf N.eq result [] }
    {
        Table {
            rows: Vec::new(alloc),
            last: 0,
        }
    }

    /// The rows.
    pub fn rows(&self) -> &[Row<N>]
        ensures { result.now ≡ self.now.rows.items }
    {
        self.rows.as_slice()
    }

    /// Whether there is a row of this fate and name.
    pub fn has_row(&self, fate: Fate, name: N) -> bool
        ensures { result ≡ has_row N.eq self.now.rows.items fate name }
    {
        match find(self.rows.as_slice(), fate, name) {
            Some(_) => true,
            None => false,
        }
    }

    /// Adds an entry under this name: to the row of its fate and name, which is new if there is
    /// none. The terminator of a string is added to the row of the string, and is no thing more.
    pub fn add(&mut self, name: N, made: Entry<'_>) -> Result<(), AllocError>
        ensures all { (es : List Told) → HasAll self.old es
            → OnOk result (HasAll self.new (es ++ as_entry made.entry ∷ [])) }
        ensures rows { (es : List (Named N)) → HasRowsOf N.eq self.old es
            → OnOk result (HasRowsOf N.eq self.new (es ++ under name (as_entry made.entry) ∷ [])) }
        ensures begins { (es : List (Named N)) → HasRowsOf N.eq self.old es
            → OnOk result (BeginsOne N.eq self.old.rows.items self.new.rows.items made.entry.fate
            name) }
        ensures refused { OnErr result (Refused A) }
    {
        let at = self.row_of(name, made)?;
        self.grow(at, things(made.is_end), made.segment.bytes.len() as u64);
        self.last = at;
        Ok(())
    }

    // The row that an entry under this name goes to, which is new where there is none.
    fn row_of(&mut self, name: N, made: Entry<'_>) -> Result<usize, AllocError>
        ensures found { IfOk result (λ at. IsRow self.new.rows.items at made.entry.fate) }
        ensures same { OnOk result (SameRows self.old.rows.items self.new.rows.items) }
        ensures goes { (es : List (Named N)) → HasRowsOf N.eq self.old es → IfOk result (λ at.
            GoesTo N.eq self.old.rows.items self.new.rows.items at
            (after_these es (under name (as_entry made.entry)))) }
        ensures refused { OnErr result (Refused A) }
    {
        if self.goes_on(made) {
            return Ok(self.last);
        }
        self.row_named(name, made)
    }

    // Whether it is a terminator that goes to the row of the entry before it.
    fn goes_on(&self, made: Entry<'_>) -> bool
        ensures fate { result ≡ true → IsRow self.now.rows.items self.now.last made.entry.fate }
        ensures end { result ≡ true → made.entry.is_end ≡ true }
        ensures other { result ≡ false → made.entry.is_end ≡ true
            → IsOther self.now.rows.items self.now.last made.entry.fate }
    {
        if made.is_end {
            has_fate(self.rows.as_slice(), self.last, made.fate)
        } else {
            false
        }
    }

    // The row of this fate and name, which is new where there is none.
    fn row_named(&mut self, name: N, made: Entry<'_>) -> Result<usize, AllocError>
        ensures found { IfOk result (λ at. IsRow self.new.rows.items at made.entry.fate) }
        ensures same { OnOk result (SameRows self.old.rows.items self.new.rows.items) }
        ensures goes { IfOk result (λ at. GoesTo N.eq self.old.rows.items self.new.rows.items at
            (under name (as_entry made.entry))) }
        ensures refused { OnErr result (Refused A) }
    {
        match find(self.rows.as_slice(), made.fate, name) {
            Some(at) => Ok(at),
            None => self.begin(name, made),
        }
    }

    // Begins a row of nothing, at the end.
    fn begin(&mut self, name: N, made: Entry<'_>) -> Result<usize, AllocError>
        ensures found { IfOk result (λ at. IsRow self.new.rows.items at made.entry.fate) }
        ensures same { OnOk result (SameRows self.old.rows.items self.new.rows.items) }
        ensures goes { has_row N.eq self.old.rows.items made.entry.fate name ≡ false
            → IfOk result (λ at. GoesTo N.eq self.old.rows.items self.new.rows.items at
            (under name (as_entry made.entry))) }
        ensures refused { OnErr result (Refused A) }
    {
        let at = self.rows.len();
        let row = Row {
            fate: made.fate,
            name,
            count: 0,
            bytes: 0,
            first: Place {
                byte: made.place,
                line: made.line,
            },
        };
        fallible_alloc::push(&mut self.rows, row)?;
        Ok(at)
    }

    // Adds so much to the row here.
    fn grow(&mut self, at: usize, count: u64, bytes: u64)
        requires { at < length self.old.rows.items }
        ensures { (p q : List (Line N)) (r : Line N) → self.old.rows.items ≡ p ++ r ∷ q
            → length p ≡ at → self.new.rows.items ≡ p ++ row_plus r count bytes ∷ q }
    {
        let row = &mut self.rows[at];
        row.count = row.count.saturating_add(count);
        row.bytes = row.bytes.saturating_add(bytes);
    }
}

// Whether there is a row here, and it has this fate.
fn has_fate<N>(rows: &[Row<N>], at: usize, fate: Fate) -> bool
    ensures one { result ≡ true → IsRow rows.now at fate }
    ensures other { result ≡ false → IsOther rows.now at fate }
{
    if at < rows.len() {
        are_one(rows[at].fate, fate)
    } else {
        false
    }
}

// Whether they are one.
fn are_one(own: Fate, other: Fate) -> bool
    ensures { result ≡ (order own == order other) }
{
    order(own) == order(other)
}

// The place of a fate in reports.
fn order(fate: Fate) -> u8
    ensures { result ≡ order fate }
{
    match fate {
        Fate::Passed => 0,
        Fate::Respelled => 1,
        Fate::Shown => 2,
        Fate::Replaced => 3,
        Fate::LeftOut => 4,
        Fate::Swallowed => 5,
        Fate::Overwritten => 6,
    }
}

// How many things an entry is.
fn things(is_end: bool) -> u64
    ensures { result ≡ (if is_end then 0 else 1) }
{
    if is_end { 0 } else { 1 }
}

// The first row of this fate and name.
fn find<N: Copy + Eq>(rows: &[Row<N>], fate: Fate, name: N) -> Option<usize>
    ensures found { IfSome result (λ at. IsRowOf N.eq rows.now at fate name) }
    ensures some { IfSome result (λ at. has_row N.eq rows.now fate name ≡ true) }
    ensures none { result ≡ None → has_row N.eq rows.now fate name ≡ false }
{
    let mut at = 0;
    while at < rows.len() {
        if is_row(&rows[at], fate, name) {
            return Some(at);
        }
        at += 1;
    }
    None
}

// Whether the row has this fate and name.
fn is_row<N: Copy + Eq>(row: &Row<N>, fate: Fate, name: N) -> bool
    ensures { result ≡ is_row N.eq row.now fate name }
{
    are_one(row.fate, fate) && row.name == name
}
