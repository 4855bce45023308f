//! The rows that a step scrolls off.
ghost use Rattle.std.specs.Prelude.{◌≡◌, ◌≤◌, length, replicate, take};
ghost use Rattle.esc_screen.specs.Screens.{Becomes, grid_of, size_of};
ghost use Rattle.esc_screen.specs.Printing.{before};
ghost use Rattle.esc_screen.specs.Scrolled.{gone_by, gone_by_change, gone_fed, gone_up, gone_wide, gone_wrapped, is_open, joined_by, joined_narrow, joined_wide, parts_of, printing};

use crate::change::Change;
use crate::content::Content;
use crate::screen::Screen;
use crate::step::Step;
use std::alloc::Allocator;

impl<A: Allocator> Screen<A> {
    // Whether a row that moves up out of the margins goes off the screen.
    fn is_open(&self) -> bool
        ensures { result ≡ is_open (grid_of self.now) }
    {
        !self.alternate && self.top == 0
    }

    fn gone_up(&self, count: u16) -> u16
        ensures { result ≡ gone_up count (grid_of self.now) }
    {
        if self.is_open() {
            count.min(self.bottom)
        } else {
            0
        }
    }

    fn gone_fed(&self) -> u16
        ensures { result ≡ gone_fed (grid_of self.now) }
    {
        if self.cursor.row as usize + 1 == self.bottom as usize {
            self.gone_up(1)
        } else {
            0
        }
    }

    fn gone_wrapped(&self) -> u16
        ensures { result ≡ gone_wrapped (grid_of self.now) }
    {
        if self.cursor.pending && self.modes.wraps {
            self.gone_fed()
        } else {
            0
        }
    }

    fn gone_wide(&self) -> u16
        ensures { result ≡ gone_wide (size_of self.now) (grid_of self.now) }
    {
        if !self.has_room() {
            0
        } else if (self.cursor.column as usize) + 1 < self.max_columns as usize {
            self.gone_wrapped()
        } else {
            self.gone_fed()
        }
    }

    fn gone_by_change(&self, change: Change) -> u16
        ensures { result ≡ gone_by_change (grid_of self.now) change }
    {
        match change {
            Change::Index | Change::LineFeed | Change::FormFeed | Change::NextLine => {
                self.gone_fed()
            }
            Change::ScrollUp(n) => self.gone_up(n),
            _ => 0,
        }
    }

    fn gone_by(&self, step: Step) -> u16
        ensures { result ≡ gone_by (size_of self.now) (grid_of self.now) step }
    {
        match step {
            Step::Print(_) => self.gone_wrapped(),
            Step::PrintWide(_) => self.gone_wide(),
            Step::Edit(change) => self.gone_by_change(change),
            _ => 0,
        }
    }

    #[tactic(auto, using(crate::proofs::Scrolled::RowsScrolledOff::take_within))]
    /// Counts the rows that a step, other than [`Step::Repeat`], is going to scroll off the top of
    /// the main screen: the first ones, as they are now. None goes off the alternate screen, nor
    /// while the first row is above the margins.
    pub fn leaving(&self, step: Step) -> usize
        ensures within { result ≤ length self.now.rows.items }
        ensures rows { take result self.now.rows.items
            ≡ take (gone_by (size_of self.now) (grid_of self.now) step) self.now.rows.items }
    {
        let count = self.gone_by(step) as usize;
        count.min(self.rows.len())
    }

    fn join_narrow(&mut self)
        ensures { Becomes self.old (joined_narrow (grid_of self.old)) self.new }
    {
        if self.cursor.pending && self.modes.wraps {
            self.join();
        }
    }

    fn join_wide(&mut self)
        ensures { Becomes self.old (joined_wide (size_of self.old) (grid_of self.old)) self.new }
    {
        if !self.has_room() {
            return;
        }
        if (self.cursor.column as usize) + 1 < self.max_columns as usize {
            self.join_narrow();
        } else {
            self.join();
        }
    }

    /// Says of the row of the cursor that it goes on in the next one, if a step, other than
    /// [`Step::Repeat`], is going to wrap: the rows that it scrolls off are those of the screen
    /// then. The step does the same before all else.
    pub fn join_for(&mut self, step: Step)
        ensures { Becomes self.old (joined_by (size_of self.old) (grid_of self.old) step)
            self.new }
    {
        match step {
            Step::Print(_) => self.join_narrow(),
            Step::PrintWide(_) => self.join_wide(),
            _ => {}
        }
    }

    // The step that is printed once more: the character before the cursor.
    fn printing(&self) -> Step
        ensures { result ≡ printing (before (grid_of self.now)) }
    {
        match self.before() {
            Content::Narrow(c, _) => Step::Print(c),
            Content::Wide(c, _) => Step::PrintWide(c),
            _ => Step::Nothing,
        }
    }

    /// A step in parts that are the same, and how many they are: [`Step::Repeat`] is so many
    /// characters, and any other step is itself once.
    pub fn parts(&self, step: Step) -> (Step, u16)
        ensures { replicate result.1 result.0
            ≡ parts_of (size_of self.now) (grid_of self.now) step }
    {
        match step {
            Step::Repeat(n) => (self.printing(), n.min(self.max_columns)),
            _ => (step, 1),
        }
    }
}
