//! Changes of the state.
ghost use Rattle.esc_screen.specs.Screens.{Becomes, grid_of, size_of};
ghost use Rattle.esc_screen.specs.Settings.{alternate_cleared, emptied_grid, exchanged_screens, grid_by_setting, reset_grid, restored_grid, scrolling, softly_reset_grid, tab_set, to_alternate, to_main, with_columns, with_origin};

use crate::cursor::Cursor;
use crate::modes::Modes;
use crate::screen::Screen;
use crate::setting::Setting;
use crate::{rows, tabs};
use std::alloc::Allocator;

impl<A: Allocator> Screen<A> {
    fn set_tab(&mut self, on: bool)
        ensures { Becomes self.old (tab_set on (grid_of self.old)) self.new }
    {
        let column = self.cursor.column as usize;
        if column < self.tabs.len() {
            self.tabs[column] = on;
        }
    }

    fn set_margins(&mut self, top: u16, bottom: u16)
        ensures { Becomes self.old (scrolling (size_of self.old) top bottom (grid_of self.old))
            self.new }
    {
        let end = bottom.min(self.max_rows);
        if (top as usize) + 1 < end as usize {
            self.top = top;
            self.bottom = end;
            self.position(0, 0);
        }
    }

    fn set_origin(&mut self, on: bool)
        ensures { Becomes self.old (with_origin (size_of self.old) on (grid_of self.old)) self.new }
    {
        self.cursor.origin = on;
        self.position(0, 0);
    }

    fn empty(&mut self)
        ensures { Becomes self.old (emptied_grid (size_of self.old) (grid_of self.old)) self.new }
    {
        self.erase_rows(0, self.max_rows as usize);
        self.top = 0;
        self.bottom = self.max_rows;
        self.move_to(0, 0);
    }

    fn set_columns(&mut self)
        ensures { Becomes self.old (with_columns (size_of self.old) (grid_of self.old)) self.new }
    {
        if self.modes.columns {
            self.empty();
        }
    }

    fn exchange(&mut self)
        ensures { Becomes self.old (exchanged_screens (grid_of self.old)) self.new }
    {
        std::mem::swap(&mut self.rows, &mut self.other);
        std::mem::swap(&mut self.saved, &mut self.other_saved);
        self.alternate = !self.alternate;
    }

    fn show_alternate(&mut self)
        ensures { Becomes self.old (to_alternate (grid_of self.old)) self.new }
    {
        if !self.alternate {
            self.exchange();
        }
    }

    fn show_main(&mut self)
        ensures { Becomes self.old (to_main (grid_of self.old)) self.new }
    {
        if self.alternate {
            self.exchange();
        }
    }

    fn clear_alternate(&mut self)
        ensures { Becomes self.old (alternate_cleared (size_of self.old) (grid_of self.old))
            self.new }
    {
        if self.alternate {
            self.erase_rows(0, self.max_rows as usize);
        }
    }

    fn enter_alternate(&mut self)
        ensures { Becomes self.old (grid_by_setting (size_of self.old) (grid_of self.old)
            Setting.EnterAlternate) self.new }
    {
        self.saved = self.cursor;
        self.show_alternate();
        self.erase_rows(0, self.max_rows as usize);
    }

    fn leave_alternate(&mut self)
        ensures { Becomes self.old (restored_grid (to_main (grid_of self.old))) self.new }
    {
        self.show_main();
        self.cursor = self.saved;
    }

    fn reset_softly(&mut self)
        ensures { Becomes self.old (softly_reset_grid (size_of self.old) (grid_of self.old))
            self.new }
    {
        self.cursor = self.cursor.softly_reset();
        self.saved = Cursor::home();
        self.top = 0;
        self.bottom = self.max_rows;
        self.modes = self.modes.softly_reset();
    }

    fn reset(&mut self)
        ensures { Becomes self.old (reset_grid (size_of self.old) (grid_of self.old)) self.new }
    {
        rows::clear(&mut self.rows, 0);
        rows::clear(&mut self.other, 0);
        self.alternate = false;
        self.cursor = Cursor::home();
        self.saved = Cursor::home();
        self.other_saved = Cursor::home();
        self.top = 0;
        self.bottom = self.max_rows;
        self.modes = Modes::first();
        tabs::set_eighths(&mut self.tabs);
    }

    /// Changes the state.
    pub(crate) fn take_setting(&mut self, setting: Setting)
        ensures { Becomes self.old (grid_by_setting (size_of self.old) (grid_of self.old) setting)
            self.new }
    {
        match setting {
            Setting::Select(look, erased) => {
                self.cursor.look = look;
                self.cursor.erased = erased;
            }
            Setting::SetTab => self.set_tab(true),
            Setting::ClearTab => self.set_tab(false),
            Setting::ClearTabs => self.tabs.fill(false),
            Setting::Margins(m, n) => self.set_margins(m, n),
            Setting::Mode(mode, on) => self.modes = self.modes.with(mode, on),
            Setting::Origin(on) => self.set_origin(on),
            Setting::Columns => self.set_columns(),
            Setting::G0Draws(on) => self.cursor.g0_draws = on,
            Setting::G1Draws(on) => self.cursor.g1_draws = on,
            Setting::Shift(on) => self.cursor.shifted = on,
            Setting::Save => self.saved = self.cursor,
            Setting::Restore => self.cursor = self.saved,
            Setting::ShowAlternate => self.show_alternate(),
            Setting::ShowMain => self.show_main(),
            Setting::ClearAlternate => {
                self.clear_alternate();
                self.show_main();
            }
            Setting::EnterAlternate => self.enter_alternate(),
            Setting::LeaveAlternate => self.leave_alternate(),
            Setting::SoftReset => self.reset_softly(),
            Setting::Reset => self.reset(),
        }
    }
}
