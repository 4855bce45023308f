//! The rows that are left of the lines of a stream.
ghost use Rattle.std.specs.Prelude.{◌≡◌, ◌++◌, ℕ, List, [], IfOk, IsErr, OnErr, OnOk, max};
ghost use Rattle.esc_screen.specs.Grids.{Size};
ghost use Rattle.esc_terminal.specs.Fed.{HasConsumed as TerminalHasConsumed};
ghost use Rattle.esc_terminal.specs.Streams.{shown_of};
ghost use Rattle.esc_screen.specs.Screens.{grid_of};
ghost use Rattle.esc_terminal.specs.Links.{known_of};
ghost use Rattle.line_collapse.specs.Fed.{Closes, ClosesOn};
ghost use Rattle.line_collapse.specs.Streams.{final_of, left_of, open_of, values_of};
ghost use Rattle.line_collapse.specs.Lost.{lost_by};
ghost use Rattle.line_collapse.specs.Windows.{Size as Bounds, screen_of, window_size};
ghost use Rattle.fallible_alloc.specs.Refusals.{Refused};

use crate::lost::lost_on;
use crate::seen::count_left;
use crate::taking::{Taking, printed, tally_if};
use crate::tally::Tally;
use crate::window::Window;
use esc_filter::Unicode;
use esc_screen::Screen;
use esc_terminal::{Rows, Styles, Terminal};
use screen_lines::Lines;
use std::alloc::{AllocError, Allocator, Global};

/// Takes a stream in whatever chunks it comes, and gives for each the text of the rows that became
/// final: those that no longer may be written again.
///
/// It keeps a screen of its size, which is made at once, the looks and links of its cells, and the
/// text of the chunk before.
#[derive(Drop)]
pub struct LineCollapser<A: Allocator = Global> {
    terminal: Terminal<A>,
    lines: Option<Lines<A>>,
    // where it counts
    tally: Option<Tally<A>>,
}

impl<A: Allocator + Copy> LineCollapser<A> {
    ghost use Rattle.line_collapse.specs.Fed.{After, IsBroken, Stands, TakesIn, HasConsumed, added_by};

    /// A collapse at the beginning of a stream, on a screen of so many rows and columns: 0 is taken
    /// for 1, and more than 65,535 for so many. Characters that deceive are written as they are,
    /// and no text is counted.
    pub fn new(alloc: A, rows: usize, columns: usize) -> Result<LineCollapser<A>, AllocError>
        ensures fed { IfOk result (λ c. HasConsumed (window_size (max rows 1) columns) [] c) }
        ensures empty { IfOk result (λ c. added_by c ≡ []) }
        ensures refused { OnErr result (Refused A) }
    {
        let window = Window::new(rows.max(1), columns, Unicode::Keep);
        LineCollapser::on(
            alloc,
            Window {
                counts: false,
                ..window
            },
        )
    }

    /// A collapse at the beginning of a stream, on this screen.
    pub fn on(alloc: A, window: Window) -> Result<LineCollapser<A>, AllocError>
        ensures fed { IfOk result (λ c. HasConsumed window [] c) }
        ensures empty { IfOk result (λ c. added_by c ≡ []) }
        ensures refused { OnErr result (Refused A) }
    {
        let rows = window.rows.max(1);
        let columns = window.columns.max(1);
        let terminal = Terminal::for_log(alloc, columns, rows)?;
        Ok(LineCollapser {
            terminal,
            lines: Some(Lines::new(alloc, window.characters)),
            tally: tally_if(alloc, window.counts, rows, columns),
        })
    }

    /// Takes `text`. The text of the rows that became final by it is then
    /// [`output`](Self::output).
    ///
    /// The error is that a request for memory was refused: nothing is added, and from then on every
    /// call returns it.
    pub fn feed(&mut self, text: &[u8]) -> Result<(), AllocError>
        ensures given { After self.old (λ z s. OnOk result (TakesIn z s text.now self.new)) }
        ensures refused { After self.old (λ z s. OnErr result (Refused A)) }
        ensures broken { OnErr result (IsBroken self.new) }
        ensures failed { IsBroken self.old → IsErr result × IsBroken self.new }
    {
        let Some(lines) = self.lines.take() else {
            return Err(AllocError);
        };
        match printed(self.tally.take(), text) {
            Ok(tally) => self.take_counted(text, lines.cleared(), tally),
            Err(error) => Err(error),
        }
    }

    // Takes text that was counted, where it counts. There are no lines.
    fn take_counted(
        &mut self,
        text: &[u8],
        lines: Lines<A>,
        tally: Option<Tally<A>>,
    ) -> Result<(), AllocError>
        ensures given { (z : Bounds) (s : List ℕ) → TerminalHasConsumed (screen_of z) s
            self.old.terminal → Stands z s text.now lines tally
            → OnOk result (TakesIn z s text.now self.new) }
        ensures refused { (z : Bounds) (s : List ℕ) → TerminalHasConsumed (screen_of z) s
            self.old.terminal → OnErr result (Refused A) }
        ensures broken { OnErr result (self.new.lines ≡ self.old.lines) }
    {
        let taking = Taking { lines, tally };
        let (result, taking) = self.terminal.feed_into(text, taking);
        let Taking { lines, tally } = taking;
        match result {
            Ok(()) => {
                self.lines = Some(lines);
                self.tally = tally;
                Ok(())
            }
            Err(_) => Err(AllocError),
        }
    }

    /// Ends the stream: the text of the rows that are left is then [`output`](Self::output). The
    /// rows stay as they are.
    ///
    /// The error is as that of [`feed`](Self::feed).
    pub fn finish(&mut self) -> Result<(), AllocError>
        ensures ended { After self.old (λ z s. OnOk result (HasConsumed z s self.new
            × (added_by self.new ≡ open_of z (values_of A s)))) }
        ensures refused { After self.old (λ z s. OnErr result (Refused A)) }
        ensures broken { OnErr result (IsBroken self.new) }
        ensures failed { IsBroken self.old → IsErr result × IsBroken self.new }
    {
        let Some(lines) = self.lines.take() else {
            return Err(AllocError);
        };
        let lines = closed(&self.terminal, lines.cleared())?;
        self.lines = Some(lines);
        Ok(())
    }

    // Takes the last text of the stream, and ends it: what both add is then added.
    pub(crate) fn feed_last(&mut self, text: &[u8]) -> Result<(), AllocError>
        ensures ended { After self.old (λ z s. OnOk result
            (left_of z (values_of A (s ++ text.now))
            ≡ final_of z (values_of A s) ++ added_by self.new)) }
        ensures refused { After self.old (λ z s. OnErr result (Refused A)) }
    {
        self.feed(text)?;
        let Some(lines) = self.lines.take() else {
            return Ok(());
        };
        let lines = closed(&self.terminal, lines)?;
        self.lines = Some(lines);
        Ok(())
    }

    /// How much of the text that the stream printed so far stands in no row that is final or is
    /// left now, if its window counts that; else 0. It is how many bytes or characters these rows
    /// have less than were printed, whichever is more, up to all bytes that were printed. REP and
    /// DECALN print too: so many characters, but no bytes.
    pub fn lost(&self) -> u64
        ensures { After self.now (λ z s. result ≡ lost_by z (values_of A s)) }
    {
        let Some(tally) = &self.tally else {
            return 0;
        };
        let Some(screen) = self.terminal.screen() else {
            return 0;
        };
        let Some(styles) = self.terminal.styles() else {
            return 0;
        };
        lost_on(tally, screen, styles)
    }

    /// Returns the text that the last call added.
    pub fn output(&self) -> &str
        ensures { result.now ≡ added_by self.now }
    {
        match &self.lines {
            Some(lines) => lines.as_str(),
            None => "",
        }
    }
}

// Lines with the rows that are left on the screen of a terminal: but for their text they stay as
// they are.
fn closed<A: Allocator + Copy>(
    terminal: &Terminal<A>,
    lines: Lines<A>,
) -> Result<Lines<A>, AllocError>
    ensures ok { (z : Size) (s : List ℕ) → TerminalHasConsumed z s terminal.now
        → IfOk result (λ p. Closes (shown_of A z s) lines p) }
    ensures refused { (z : Size) (s : List ℕ) → TerminalHasConsumed z s terminal.now
        → OnErr result (Refused A) }
{
    let Some(screen) = terminal.screen() else {
        return Err(AllocError);
    };
    let Some(styles) = terminal.styles() else {
        return Err(AllocError);
    };
    with_screen(lines, screen, styles)
}

// The same, of this screen.
fn with_screen<A: Allocator + Copy>(
    lines: Lines<A>,
    screen: &Screen<A>,
    styles: &Styles<A>,
) -> Result<Lines<A>, AllocError>
    ensures ok { IfOk result (λ p. ClosesOn (known_of styles.now) (grid_of screen.now) lines p) }
    ensures refused { OnErr result (Refused A) }
{
    let state = lines.state();
    let mut lines = lines;
    for at in 0..count_left(screen, styles) {
        lines.take_row(screen.main_row(at), styles)?;
    }
    Ok(lines.back_at(state))
}
