//! The state that a screen in chunks keeps.
ghost use Rattle.std.specs.Prelude.{◌≡◌, [], ℕ, IfOk, List, OnErr, OnOk, map};
ghost use Rattle.esc_calls.specs.CellRows.{request_row};
ghost use Rattle.esc_calls.specs.Output.{Puts};
ghost use Rattle.esc_calls.specs.Screens.{Tells, cells_shown, icon_name_shown, shown_by, text_shown, title_shown};
ghost use Rattle.esc_screen.specs.Grids.{Size};
ghost use Rattle.esc_terminal.specs.Fed.{From, HasConsumed, TakesIn, requests_now, screen_size};
ghost use Rattle.esc_terminal.specs.Resized.{StandsWith};
ghost use Rattle.fallible_alloc.specs.Refusals.{Refused};

use crate::cell_row::{CellRow, put_cells};
use crate::looked::Looked;
use crate::output::put;
use crate::request_row::{RequestRow, put_requests};
use crate::screen_row::ScreenRow;
use crate::scrollback::Scrollback;
use esc_terminal::{Styles, Terminal, push_row};
use std::alloc::{AllocError, Global};
use std::mem;

/// The state that a screen in chunks keeps.
#[derive(Drop)]
pub struct ScreenState {
    /// The terminal.
    pub terminal: Terminal,
    /// The rows that are scrolled off it.
    pub scrolled: Scrollback,
    /// The cells that the caller saw when it last asked which rows are changed.
    pub looked: Looked,
}

impl ScreenState {
    /// Returns a screen of so many columns and rows at the beginning of a stream. It keeps at most
    /// `most` of the rows that are scrolled off.
    ///
    /// The error is that a request for memory was refused.
    pub(crate) fn new(
        alloc: Global,
        columns: u16,
        rows: u16,
        most: usize,
    ) -> Result<ScreenState, AllocError>
        ensures { IfOk result (λ p. HasConsumed (screen_size columns rows) [] p.terminal) }
    {
        Ok(ScreenState {
            terminal: Terminal::new(alloc, columns, rows)?,
            scrolled: Scrollback::new(alloc, most),
            looked: Looked::new(alloc),
        })
    }

    /// Takes bytes. The error is that a request for memory was refused.
    pub(crate) fn feed(&mut self, bytes: &[u8]) -> Result<(), AllocError>
        ensures given { (z : Size) (s : List ℕ) → HasConsumed z s self.old.terminal
            → OnOk result (TakesIn z s bytes.now self.new.terminal) }
        ensures refused { (z : Size) (s : List ℕ) → HasConsumed z s self.old.terminal
            → OnErr result (Refused Global) }
    {
        let none = self.scrolled.none();
        let scrolled = mem::replace(&mut self.scrolled, none);
        let (result, scrolled) = self.terminal.feed_into(bytes, scrolled);
        self.scrolled = scrolled;
        result
    }

    /// Gives it so many columns and rows; all rows are changed at the next look.
    ///
    /// The error is that a request for memory was refused.
    pub(crate) fn resize(&mut self, columns: u16, rows: u16) -> Result<(), AllocError>
        ensures resized { From self.old.terminal
            (λ z x s. OnOk result (StandsWith z x s columns rows self.new.terminal)) }
        ensures refused { From self.old.terminal (λ z x s. OnErr result (Refused Global)) }
    {
        let none = self.scrolled.none();
        let scrolled = mem::replace(&mut self.scrolled, none);
        let (result, scrolled) = self.terminal.resize_into(columns, rows, scrolled);
        self.scrolled = scrolled;
        self.looked.forget();
        result
    }

    /// Writes the state of the screen, but for its cells.
    ///
    /// The error, here and below, is that a request for memory was refused, before or now; nothing
    /// was written then.
    pub(crate) fn tell(&self, row: &mut ScreenRow) -> Result<(), AllocError>
        ensures told { (z : Size) (s : List ℕ) → HasConsumed z s self.now.terminal
            → OnOk result (Tells z (shown_by z s) row.new) }
        ensures refused { OnErr result (row.new ≡ row.old) }
    {
        let (Some(screen), Some(styles)) = (self.terminal.screen(), self.terminal.styles()) else {
            return Err(AllocError);
        };
        let cursor = screen.cursor();
        let modes = screen.modes();
        *row = ScreenRow {
            scrolled: self.scrolled.count(),
            kept: self.scrolled.len(),
            requests: self.terminal.requests().len(),
            links: styles.links().len(),
            columns: screen.width(),
            rows: screen.height(),
            cursor_row: cursor.row,
            cursor_column: cursor.column,
            pending: cursor.pending,
            shown: modes.shows_cursor,
            alternate: screen.is_alternate(),
            reversed: modes.reversed,
            synchronized: modes.synchronized,
            has_title: self.terminal.title().is_some(),
        };
        Ok(())
    }

    /// Writes the cells of a row, as many as there is room for, and how many there are.
    pub(crate) fn cells(
        &self,
        row: usize,
        out: &mut [CellRow],
        needed: &mut usize,
    ) -> Result<(), AllocError>
        ensures shown { (z : Size) (s : List ℕ) → HasConsumed z s self.now.terminal
            → OnOk result (Puts (cells_shown (shown_by z s) row) out.old out.new needed.new) }
        ensures refused { OnErr result ((out.new ≡ out.old) × (needed.new ≡ needed.old)) }
    {
        let (Some(screen), Some(styles)) = (self.terminal.screen(), self.terminal.styles()) else {
            return Err(AllocError);
        };
        *needed = put_cells(screen.row(row), styles, out);
        Ok(())
    }

    /// Writes the cells of a row that was scrolled off; the first that is kept is 0.
    pub(crate) fn scrolled_cells(
        &self,
        row: usize,
        out: &mut [CellRow],
        needed: &mut usize,
    ) -> Result<(), AllocError>
        ensures refused { OnErr result ((out.new ≡ out.old) × (needed.new ≡ needed.old)) }
    {
        let Some(styles) = self.terminal.styles() else {
            return Err(AllocError);
        };
        *needed = put_cells(self.scrolled.row(row), styles, out);
        Ok(())
    }

    /// Writes the text of a row, as much as there is room for, and its length.
    pub(crate) fn text(
        &self,
        alloc: Global,
        row: usize,
        out: &mut [u8],
        needed: &mut usize,
    ) -> Result<(), AllocError>
        ensures shown { (z : Size) (s : List ℕ) → HasConsumed z s self.now.terminal
            → OnOk result (Puts (text_shown (shown_by z s) row) out.old out.new needed.new) }
        ensures refused { OnErr result ((out.new ≡ out.old) × (needed.new ≡ needed.old)) }
    {
        let Some(screen) = self.terminal.screen() else {
            return Err(AllocError);
        };
        let mut text = String::new(alloc);
        push_row(&mut text, screen.row(row))?;
        *needed = put(text.as_bytes(), out);
        Ok(())
    }

    /// Writes the title, as much as there is room for. Returns its length.
    pub(crate) fn title(&self, out: &mut [u8]) -> usize
        ensures { (z : Size) (s : List ℕ) → HasConsumed z s self.now.terminal
            → Puts (title_shown (shown_by z s)) out.old out.new result }
    {
        match self.terminal.title() {
            Some(title) => put(title.as_bytes(), out),
            None => put(&[], out),
        }
    }

    /// Writes the name of the icon, as much as there is room for. Returns its length.
    pub(crate) fn icon_name(&self, out: &mut [u8]) -> usize
        ensures { (z : Size) (s : List ℕ) → HasConsumed z s self.now.terminal
            → Puts (icon_name_shown (shown_by z s)) out.old out.new result }
    {
        match self.terminal.icon_name() {
            Some(name) => put(name.as_bytes(), out),
            None => put(&[], out),
        }
    }

    /// Writes the requests of the last chunk, as there is room. Returns their number.
    pub(crate) fn requests(&self, out: &mut [RequestRow]) -> usize
        ensures { Puts (map request_row (requests_now self.now.terminal)) out.old out.new result }
    {
        put_requests(self.terminal.requests(), out)
    }

    /// Writes the address of a link, the first of which is 1, as much as there is room for. Returns
    /// its length, 0 if there is no such link.
    pub(crate) fn address(&self, number: usize, out: &mut [u8]) -> usize {
        match self.terminal.styles() {
            Some(styles) => put(address_of(styles, number).as_bytes(), out),
            None => 0,
        }
    }

    /// Does the same for the id of a link, which may have none.
    pub(crate) fn id(&self, number: usize, out: &mut [u8]) -> usize {
        match self.terminal.styles() {
            Some(styles) => put(id_of(styles, number).as_bytes(), out),
            None => 0,
        }
    }

    /// Writes for each row, as there is room, 1 if it was changed since the last look, and 0
    /// otherwise. The next look begins.
    pub(crate) fn look(&mut self, alloc: Global, out: &mut [u8]) -> Result<(), AllocError>
        ensures { self.new.terminal ≡ self.old.terminal }
    {
        let Some(screen) = self.terminal.screen() else {
            return Err(AllocError);
        };
        self.looked.look(alloc, screen, out)
    }
}

fn address_of(styles: &Styles, number: usize) -> &str {
    match styles.links().get(number.wrapping_sub(1)) {
        Some(link) => link.uri.as_str(),
        None => "",
    }
}

fn id_of(styles: &Styles, number: usize) -> &str {
    match styles.links().get(number.wrapping_sub(1)) {
        Some(link) => link.params.get("id").unwrap_or(""),
        None => "",
    }
}
