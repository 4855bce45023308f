//! Rows that are written.
ghost use Rattle.std.specs.Prelude.{◌≡◌, ◌+◌, ◌<◌, ◌≤◌, ◌^◌, IfOk, OnErr, OnOk, Some, drop, length, replicate};
ghost use Rattle.esc_screen.specs.Used.{IsUnusedFrom};
ghost use Rattle.esc_terminal.specs.Links.{Known, known_of};
ghost use Rattle.fallible_alloc.specs.Refusals.{Refused};
ghost use Rattle.screen_lines.specs.Written.{WritesRow, out_of};
ghost use Rattle.screen_lines.specs.Parts.{out_from};
ghost use Rattle.screen_lines.specs.Parts.Part.{Character};
ghost use Rattle.screen_lines.specs.Rows.{blanks_held, blanks_parts, cell_parts, cells_parts, change_parts, content_parts, ended_parts, first_going, gap_parts, going_by, held_link, held_look, is_same_number, leads_parts, mark_parts, marked_parts, out_by_row, plain_parts, seen_parts};

use crate::going::Going;
use crate::hidden::{is_hidden, written};
use crate::lines::Lines;
use crate::run::Run;
use esc_screen::{Cell, Content, Marks, is_joined};
use esc_style::Look;
use esc_terminal::{Rows, Styles};
use std::alloc::{AllocError, Allocator};

// Whether two numbers are the same, or neither is one.
#[inline]
fn is_same_number(one: Option<u16>, other: Option<u16>) -> bool
    ensures { result ≡ is_same_number one other }
{
    match (one, other) {
        (Some(one), Some(other)) => one == other,
        (None, None) => true,
        (Some(_), None) | (None, Some(_)) => false,
    }
}

// The look of this number, or the plain one if there is none.
fn held_look<A: Allocator + Copy>(styles: &Styles<A>, held: Option<u16>) -> Look
    ensures { result ≡ held_look (known_of styles.now) held }
{
    match held {
        Some(number) => styles.look_at(number),
        None => Look::plain(),
    }
}

// The number of the link that is open.
fn held_link<A: Allocator + Copy>(styles: &Styles<A>, held: Option<u16>) -> Option<u16>
    ensures { result ≡ held_link (known_of styles.now) held }
{
    match held {
        Some(number) => styles.link_number(number),
        None => None,
    }
}

// The number that holds after so many hidden cells.
#[inline]
fn blanks_held(held: Option<u16>, count: usize) -> Option<u16>
    ensures { result ≡ blanks_held held count }
{
    if count == 0 { held } else { None }
}

impl<A: Allocator> Lines<A> {
    // Makes the plain look, and ends a link, after characters of this number.
    #[inline]
    fn push_plain<B: Allocator + Copy>(
        &mut self,
        styles: &Styles<B>,
        held: Option<u16>,
    ) -> Result<(), AllocError>
        ensures ok { OnOk result (out_of self.new
            ≡ out_from (out_of self.old) (plain_parts (known_of styles.now) held)) }
        ensures refused { OnErr result (Refused A) }
    {
        match held {
            Some(number) => self.push_plain_after(styles, number),
            None => Ok(()),
        }
    }

    #[tactic(auto, using(crate::proofs::Growing::from_more))]
    fn push_plain_after<B: Allocator + Copy>(
        &mut self,
        styles: &Styles<B>,
        number: u16,
    ) -> Result<(), AllocError>
        ensures ok { OnOk result (out_of self.new
            ≡ out_from (out_of self.old) (plain_parts (known_of styles.now) (Some number))) }
        ensures refused { OnErr result (Refused A) }
    {
        self.push_end(styles.link_number(number).is_some())?;
        self.push_change(&styles.look_at(number), &Look::plain())
    }

    // Ends a link, if there is one.
    fn push_end(&mut self, is_there: bool) -> Result<(), AllocError>
        ensures ok { OnOk result (out_of self.new
            ≡ out_from (out_of self.old) (ended_parts is_there)) }
        ensures refused { OnErr result (Refused A) }
    {
        if is_there { self.end_link() } else { Ok(()) }
    }

    // Adds so many hidden cells.
    #[inline]
    #[tactic(auto, using(crate::proofs::Growing::from_more))]
    fn push_blanks<B: Allocator + Copy>(
        &mut self,
        styles: &Styles<B>,
        held: Option<u16>,
        count: usize,
    ) -> Result<(), AllocError>
        ensures ok { OnOk result (out_of self.new
            ≡ out_from (out_of self.old) (blanks_parts (known_of styles.now) held count)) }
        ensures refused { OnErr result (Refused A) }
    {
        if count == 0 {
            return Ok(());
        }
        self.push_plain(styles, held)?;
        self.push_spaces(count)
    }

    fn push_spaces(&mut self, count: usize) -> Result<(), AllocError>
        ensures ok { OnOk result (out_of self.new
            ≡ out_from (out_of self.old) (replicate count (Character 0x20))) }
        ensures refused { OnErr result (Refused A) }
    {
        for _ in 0..count {
            self.push(' ')?;
        }
        Ok(())
    }

    // Makes the look of a number and begins its link, after characters of another.
    #[inline]
    #[tactic(auto, using(crate::proofs::Growing::from_more))]
    fn push_number<B: Allocator + Copy>(
        &mut self,
        styles: &Styles<B>,
        held: Option<u16>,
        number: u16,
    ) -> Result<(), AllocError>
        ensures ok { OnOk result (out_of self.new
            ≡ out_from (out_of self.old) (change_parts (known_of styles.now) held number)) }
        ensures refused { OnErr result (Refused A) }
    {
        if is_same_number(held, Some(number)) {
            return Ok(());
        }
        self.push_link(styles, held, number)?;
        self.push_change(&held_look(styles, held), &styles.look_at(number))
    }

    fn push_link<B: Allocator + Copy>(
        &mut self,
        styles: &Styles<B>,
        held: Option<u16>,
        number: u16,
    ) -> Result<(), AllocError>
        ensures ok { OnOk result (out_of self.new
            ≡ out_from (out_of self.old) (leads_parts (known_of styles.now) held number)) }
        ensures refused { OnErr result (Refused A) }
    {
        if is_same_number(held_link(styles, held), styles.link_number(number)) {
            return Ok(());
        }
        self.push_lead(styles.link_at(number))
    }

    #[inline]
    fn push_mark(&mut self, mark: Option<char>) -> Result<(), AllocError>
        ensures ok { OnOk result (out_of self.new
            ≡ out_from (out_of self.old) (mark_parts mark)) }
        ensures refused { OnErr result (Refused A) }
    {
        match mark {
            Some(c) => self.push(c),
            None => Ok(()),
        }
    }

    // Adds a character with its marks.
    #[inline]
    #[tactic(auto, using(crate::proofs::Growing::from_more))]
    fn push_marked(&mut self, c: char, marks: Marks) -> Result<(), AllocError>
        ensures ok { OnOk result (out_of self.new
            ≡ out_from (out_of self.old) (marked_parts c marks)) }
        ensures refused { OnErr result (Refused A) }
    {
        self.push(c)?;
        self.push_mark(marks.first)?;
        self.push_mark(marks.second)
    }

    // Adds what stands in a cell.
    #[inline]
    fn push_content(&mut self, content: Content) -> Result<(), AllocError>
        ensures ok { OnOk result (out_of self.new
            ≡ out_from (out_of self.old) (content_parts content)) }
        ensures refused { OnErr result (Refused A) }
    {
        match content {
            Content::Blank => self.push(' '),
            Content::Rest => Ok(()),
            Content::Narrow(c, marks) | Content::Wide(c, marks) => self.push_marked(c, marks),
        }
    }

    // Adds a cell that is not hidden.
    #[inline]
    #[tactic(auto, using(crate::proofs::Growing::from_more))]
    fn push_seen<B: Allocator + Copy>(
        &mut self,
        styles: &Styles<B>,
        going: Going,
        cell: Cell,
    ) -> Result<(), AllocError>
        ensures ok { OnOk result (out_of self.new
            ≡ out_from (out_of self.old) (seen_parts (known_of styles.now) going cell)) }
        ensures refused { OnErr result (Refused A) }
    {
        self.push_blanks(styles, going.held, going.blanks)?;
        let held = blanks_held(going.held, going.blanks);
        self.push_number(styles, held, cell.look)?;
        self.push_content(cell.content)
    }

    // Adds a cell, and returns the place after it.
    #[inline]
    fn push_cell<B: Allocator + Copy>(
        &mut self,
        styles: &Styles<B>,
        going: Going,
        cell: Cell,
    ) -> Result<Going, AllocError>
        requires { going.blanks < 2 ^ 63 }
        ensures ok { IfOk result (λ w. (out_of self.new
            ≡ out_from (out_of self.old) (cell_parts (known_of styles.now) going cell))
            × (w ≡ going_by (known_of styles.now) going cell)) }
        ensures refused { OnErr result (Refused A) }
    {
        if is_hidden(styles, &cell) {
            return Ok(Going {
                held: going.held,
                blanks: going.blanks + 1,
            });
        }
        if cell.content.is_rest() {
            return Ok(going);
        }
        self.push_seen(styles, going, cell)?;
        Ok(Going {
            held: Some(cell.look),
            blanks: 0,
        })
    }

    // Adds cells, of which so many are used at most: those at their end that are as at first add
    // nothing.
    fn push_cells<B: Allocator + Copy>(
        &mut self,
        styles: &Styles<B>,
        cells: &[Cell],
        used: usize,
    ) -> Result<(), AllocError>
        requires { IsUnusedFrom used cells.now }
        ensures ok { OnOk result (out_of self.new
            ≡ out_from (out_of self.old)
            (cells_parts (known_of styles.now) first_going cells.now)) }
        ensures refused { OnErr result (Refused A) }
    {
        self.push_written(styles, written(cells, used))
    }

    #[tactic(auto, using(crate::proofs::Growing::cells_end))]
    fn push_written<B: Allocator + Copy>(
        &mut self,
        styles: &Styles<B>,
        cells: &[Cell],
    ) -> Result<(), AllocError>
        ensures ok { OnOk result (out_of self.new
            ≡ out_from (out_of self.old)
            (cells_parts (known_of styles.now) first_going cells.now)) }
        ensures refused { OnErr result (Refused A) }
    {
        let mut going = Going {
            held: None,
            blanks: 0,
        };
        let mut at = 0;
        while at < cells.len() {
            let (next, count) = self.push_some(styles, going, &cells[at..])?;
            going = next;
            at += count;
        }
        self.push_plain(styles, going.held)
    }

    // Adds a cell and those of a run after it; returns the place after them, and how many they are.
    #[inline]
    fn push_some<B: Allocator + Copy>(
        &mut self,
        styles: &Styles<B>,
        going: Going,
        cells: &[Cell],
    ) -> Result<(Going, usize), AllocError>
        requires { (0 < length cells.now) × (going.blanks < 2 ^ 63) }
        ensures count { IfOk result (λ r. (0 < r.1) × (r.1 ≤ length cells.now)
            × (r.0.blanks ≤ going.blanks + 1)) }
        ensures ok { IfOk result (λ r. out_from (out_of self.new)
            (cells_parts (known_of styles.now) r.0 (drop r.1 cells.now))
            ≡ out_from (out_of self.old) (cells_parts (known_of styles.now) going cells.now)) }
        ensures refused { OnErr result (Refused A) }
    {
        let next = self.push_cell(styles, going, cells[0])?;
        let count = self.push_run(next, &cells[1..])?;
        Ok((next, count + 1))
    }

    // Adds the characters of the cells that come first and go on the run before them; returns how
    // many they are.
    #[inline]
    #[tactic(auto, using(crate::proofs::Runs::run_added, crate::proofs::Runs::begin_plain, crate::proofs::Runs::begin_few))]
    fn push_run(&mut self, going: Going, cells: &[Cell]) -> Result<usize, AllocError>
        ensures count { IfOk result (λ n. n ≤ length cells.now) }
        ensures ok { IfOk result (λ n. (k : Known)
            → out_from (out_of self.new) (cells_parts k going (drop n cells.now))
            ≡ out_from (out_of self.old) (cells_parts k going cells.now)) }
        ensures refused { OnErr result (Refused A) }
    {
        let Some(look) = going.look() else {
            return Ok(0);
        };
        let run = Run::of(look, cells);
        self.push_plain_text(run.as_str())?;
        Ok(run.len())
    }

    // Ends the line before a row, if it has no end.
    fn push_gap(&mut self) -> Result<(), AllocError>
        ensures ok { OnOk result (out_of self.new
            ≡ out_from (out_of self.old) (gap_parts self.old.gap)) }
        ensures refused { OnErr result (Refused A) }
    {
        if self.gap { self.end_line() } else { Ok(()) }
    }

    // Adds a row, of which so many cells are used at most.
    #[tactic(auto, using(crate::proofs::Growing::from_more))]
    fn push_row<B: Allocator + Copy>(
        &mut self,
        styles: &Styles<B>,
        cells: &[Cell],
        used: usize,
    ) -> Result<(), AllocError>
        requires { IsUnusedFrom used cells.now }
        ensures ok { OnOk result (out_of self.new
            ≡ out_by_row (out_of self.old) (cells.now, known_of styles.now)) }
        ensures refused { OnErr result (Refused A) }
    {
        self.push_gap()?;
        self.push_cells(styles, cells, used)?;
        self.gap = !is_joined(cells);
        Ok(())
    }
}

/// Adds each row.
impl<A: Allocator> Rows for Lines<A> {
    ghost takes = { WritesRow };

    ghost fails = { Refused A };

    #[tactic(auto, using(crate::proofs::Growing::all_used))]
    fn take_row<B: Allocator + Copy>(
        &mut self,
        cells: &[Cell],
        styles: &Styles<B>,
    ) -> Result<(), AllocError> {
        self.push_row(styles, cells, cells.len())
    }

    fn take_used<B: Allocator + Copy>(
        &mut self,
        cells: &[Cell],
        used: usize,
        styles: &Styles<B>,
    ) -> Result<(), AllocError> {
        self.push_row(styles, cells, used)
    }
}
