//! The losses of a stream, by name.
ghost use Rattle.std.specs.Prelude.{◌≡◌, ◌≤◌, ◌++◌, ◌∷◌, IfOk, List, [], OnErr, OnOk, Some, ◌&&◌, false, is_some, map, nat_le, not, true};
ghost use Rattle.std.specs.Global.{Global};
ghost use Rattle.esc_account.specs.Brief.{brief};
ghost use Rattle.esc_account.specs.Entries.{Entry as Told, as_entry};
ghost use Rattle.esc_account.specs.Rows.{has_row, under};
ghost use Rattle.esc_account.specs.Tables.{HasAllRows};
ghost use Rattle.esc_actions.specs.Readings.{reading_within};
ghost use Rattle.esc_actions.specs.Values.{value_of};
ghost use Rattle.esc_frame.specs.Segments.{AreSegments, Segment as Shape, is_finished, joined_bytes};
ghost use Rattle.esc_segments.specs.Items.{IsItem};
ghost use Rattle.escfilter.specs.Names.{kind_title, title_of};
ghost use Rattle.escfilter.specs.Rows.{AreRowsOf, HasRows, IsCalled, IsJudge, are_one_name, first_out, is_meant, is_respelled, kept_name, keys_count, title_by, title_or, entries_with_row, writes};
ghost use Rattle.fallible_alloc.specs.Refusals.{Refused};

use crate::at_once::name_at_once;
use crate::events::Events;
use crate::name::{Name, kind_name, name_of};
use crate::named_groups::Choice;
use crate::options::Options;
use crate::report::bytes_of;
use esc_account::{Account, Book, Entry, Fate, Place, Row, Table, read_segment, read_short};
use esc_actions::Action;
use esc_sanitize::Judging;
use esc_segments::Segment;
use std::alloc::{AllocError, Global};

// How many rows there are at most of things that keys tell apart.
const KEYS: usize = 64;

/// The sequence or string that the end of a stream leaves unfinished.
#[derive(Clone, Copy)]
pub struct Open {
    pub name: Name,
    pub bytes: u64,
    pub first: Place,
    // how many bytes come before its end
    end: u64,
}

/// The losses of a stream: a row for each fate and name, in the order in which the first of each
/// came; none if the options ask for no report. Each loss is told as it comes, if that is asked
/// for.
#[derive(Drop)]
pub struct Rows<'a> {
    alloc: Global,
    options: Options<'a>,
    events: Option<Events>,
    judge: Judging<Choice<'a>>,
    table: Table<Name>,
    open: Option<Open>,
}

impl<'a> Rows<'a> {
    /// None yet. Takes no memory.
    pub fn new(alloc: Global, options: Options<'a>, events: Option<Events>) -> Rows<'a>
        ensures { HasRows result [] }
    {
        let judge = Judging::new(alloc, options.filter);
        let table = Table::new(alloc);
        Rows {
            alloc,
            options,
            events,
            judge,
            table,
            open: None,
        }
    }

    /// The rows: if a report is asked for, they have all that the entries have of each fate, but
    /// for respelled bytes; one for each fate and name, in the order of the first of each, under
    /// the names that the segments tell.
    pub fn rows(&self) -> &[Row<Name>]
        ensures all { (es : List Told) → HasRows self.now es
            → is_some self.now.options.report ≡ true → HasAllRows result.now (entries_with_row es) }
        ensures names { (es : List Told) → HasRows self.now es
            → is_some self.now.options.report ≡ true
            → AreRowsOf self.now.options.filter result.now (entries_with_row es) }
        ensures few { (es : List Told) → HasRows self.now es
            → is_some self.now.options.report ≡ true → keys_count result.now ≤ 64 }
    {
        self.table.rows()
    }

    /// Returns the lines in which the losses are told.
    pub fn into_events(self) -> Option<Events> {
        self.events
    }

    /// Returns the sequence or string that the end of the stream leaves unfinished; this is the
    /// stream's account.
    pub fn open(&self, account: Account) -> Option<Open> {
        match self.open {
            Some(open) if open.end == bytes_of(account.sums) => Some(open),
            _ => None,
        }
    }

    // Notes and tells an entry, where losses get names. It is out of the way of the code that
    // counts bytes.
    #[inline(never)]
    fn enter_named(&mut self, made: Entry<'_>) -> Result<(), AllocError>
        requires { is_respelled made.fate ≡ false }
        ensures noted { (es : List Told) → HasRows self.old es
            → OnOk result (HasRows self.new (es ++ as_entry made.entry ∷ [])) }
        ensures refused { OnErr result (Refused Global) }
    {
        if made.is_end {
            self.end(made)
        } else {
            let name = self.name(made.segment, made.fate)?;
            self.begin(made, name)
        }
    }

    // Notes and tells an entry under this name.
    fn begin(&mut self, made: Entry<'_>, name: Name) -> Result<(), AllocError>
        requires { is_respelled made.fate ≡ false }
        ensures noted { (es : List Told) → HasRows self.old es
            → IsCalled self.old.options.filter (under name (as_entry made.entry))
            → OnOk result (HasRows self.new (es ++ as_entry made.entry ∷ [])) }
        ensures refused { OnErr result (Refused Global) }
    {
        self.note(made, name)?;
        let first = Place {
            byte: made.place,
            line: made.line,
        };
        self.open = self.open_of(made.segment, name, first);
        match &mut self.events {
            Some(events) => events.begin(made, name),
            None => Ok(()),
        }
    }

    // Notes and tells the terminator of the string that came last.
    fn end(&mut self, made: Entry<'_>) -> Result<(), AllocError>
        requires fate { is_respelled made.fate ≡ false }
        requires end { made.is_end ≡ true }
        ensures noted { (es : List Told) → HasRows self.old es
            → OnOk result (HasRows self.new (es ++ as_entry made.entry ∷ [])) }
        ensures refused { OnErr result (Refused Global) }
    {
        self.note(made, kind_name(made.segment.kind, made.segment.bytes))?;
        match &mut self.events {
            Some(events) => events.go_on(made.segment.bytes),
            None => Ok(()),
        }
    }

    // Notes an entry under this name, where a report is asked for.
    fn note(&mut self, made: Entry<'_>, name: Name) -> Result<(), AllocError>
        requires { is_respelled made.fate ≡ false }
        ensures noted { (es : List Told) → HasRows self.old es
            → IsCalled self.old.options.filter (under name (as_entry made.entry))
            → OnOk result (HasRows self.new (es ++ as_entry made.entry ∷ [])) }
        ensures refused { OnErr result (Refused Global) }
    {
        if self.options.report.is_some() {
            let name = kept_name(&self.table, made.fate, name);
            self.table.add(name, made)
        } else {
            Ok(())
        }
    }

    // Returns the sequence or string that the segment, which has this name and place, would leave
    // unfinished at the end of the stream: by lines a line feed ends it.
    fn open_of(&self, segment: Segment<'_>, name: Name, first: Place) -> Option<Open> {
        let ends = self.options.filter.by_lines && segment.bytes.last() == Some(&b'\n');
        if segment.finished || ends {
            return None;
        }
        let bytes = segment.bytes.len() as u64;
        Some(Open {
            name,
            bytes,
            first,
            end: first.byte.saturating_add(bytes),
        })
    }

    // The name of what did not pass of a segment: of the first action of which nothing is written,
    // and else of what the segment is.
    fn name(&self, segment: Segment<'_>, fate: Fate) -> Result<Name, AllocError>
        ensures given { (g : Shape) (gs : List Shape) → AreSegments (g ∷ gs)
            → IsItem segment.entry g (joined_bytes gs)
            → IsJudge self.now.options.filter self.now.judge
            → IfOk result (λ n. title_of n ≡ title_by (writes self.now.options.filter) fate
            segment.entry.kind segment.entry.bytes.now
            (brief (reading_within (Some self.now.options.filter.limit) g
            (is_finished g (joined_bytes gs))))) }
        ensures refused { OnErr result (Refused Global) }
    {
        if !is_meant(fate) {
            return Ok(kind_name(segment.kind, segment.bytes));
        }
        match name_at_once(&self.options.filter, segment) {
            Some(name) => Ok(name),
            None => self.name_by_actions(segment),
        }
    }

    // The name of the first action of the segment of which nothing is written, and else of what the
    // segment is.
    fn name_by_actions(&self, segment: Segment<'_>) -> Result<Name, AllocError>
        ensures given { (g : Shape) (gs : List Shape) → AreSegments (g ∷ gs)
            → IsItem segment.entry g (joined_bytes gs)
            → IsJudge self.now.options.filter self.now.judge → IfOk result (λ n. title_of n
            ≡ title_or (kind_title segment.entry.kind segment.entry.bytes.now)
            (first_out (writes self.now.options.filter)
            (brief (reading_within (Some self.now.options.filter.limit) g
            (is_finished g (joined_bytes gs)))))) }
        ensures refused { OnErr result (Refused Global) }
    {
        let actions = read(self.alloc, self.options.filter.limit, segment)?;
        Ok(self.name_among(&actions, kind_name(segment.kind, segment.bytes)))
    }

    // The name of the first of these actions of which nothing is written; else this one.
    fn name_among(&self, actions: &[Action], otherwise: Name) -> Name
        ensures { IsJudge self.now.options.filter self.now.judge → title_of result
            ≡ title_or (title_of otherwise)
            (first_out (writes self.now.options.filter) (map value_of actions.now)) }
    {
        let mut at = 0;
        while at < actions.len() {
            let action = &actions[at];
            if !self.judge.writes(action) {
                return name_of(action);
            }
            at += 1;
        }
        otherwise
    }
}

// Whether it means something that is not in the output as itself.
fn is_meant(fate: Fate) -> bool
    ensures { result ≡ is_meant fate }
{
    match fate {
        Fate::LeftOut | Fate::Shown => true,
        _ => false,
    }
}

// The name of the row for this fate and name: without its key, where no row has it and there are
// enough rows with keys.
fn kept_name(table: &Table<Name>, fate: Fate, name: Name) -> Name
    ensures { result ≡ kept_name table.now.rows.items fate name }
{
    if name.has_key() && is_past(table, fate, name) {
        name.without_key()
    } else {
        name
    }
}

// Whether no row has this fate and name, and there are enough rows with keys.
fn is_past(table: &Table<Name>, fate: Fate, name: Name) -> bool
    ensures { result ≡ (not (has_row are_one_name table.now.rows.items fate name)
        && nat_le 64 (keys_count table.now.rows.items)) }
{
    !table.has_row(fate, name) && KEYS <= keyed(table.rows())
}

// How many rows have a key.
fn keyed(rows: &[Row<Name>]) -> usize
    ensures { result ≡ keys_count rows.now }
{
    let mut count: usize = 0;
    let mut at = rows.len();
    while at > 0 {
        at -= 1;
        if rows[at].name.has_key() {
            count += 1;
        }
    }
    count
}

// The actions of a segment, by splitting its bytes where that can be.
fn read(alloc: Global, limit: usize, segment: Segment<'_>) -> Result<Vec<Action>, AllocError>
    ensures given { (g : Shape) (gs : List Shape) → AreSegments (g ∷ gs)
        → IsItem segment.entry g (joined_bytes gs) → IfOk result (λ v. map value_of v.items
        ≡ brief (reading_within (Some limit) g (is_finished g (joined_bytes gs)))) }
    ensures refused { OnErr result (Refused Global) }
{
    match read_short(alloc, limit, segment) {
        Some(actions) => Ok(actions),
        None => read_segment(alloc, limit, segment),
    }
}

// Whether what became of bytes is that they are in the output in another spelling.
fn is_respelled(fate: Fate) -> bool
    ensures { result ≡ is_respelled fate }
{
    match fate {
        Fate::Respelled => true,
        _ => false,
    }
}

impl<'a> Book<Global> for Rows<'a> {
    ghost was_given = { HasRows };

    #[inline(always)]
    fn enter(&mut self, made: Entry<'_>) -> Result<(), AllocError> {
        if is_respelled(made.fate) || !self.options.has_names() {
            return Ok(());
        }
        self.enter_named(made)
    }
}
