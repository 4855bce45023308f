//! A terminal, as far as the actions that pass leave it changed.
ghost use Rattle.std.specs.Prelude.{◌≡◌};
ghost use Rattle.esc_filter.specs.Terminal.{after_change, after_function, after_mode, after_named, after_param, after_params, after_private, mode_restored, are_changed_sets, cursor_kept, is_changed, is_changed_mode, is_changed_saved, is_main, kept_mode, with_renditions, restore, restored_terminal, save, saved_of, screen_shown, as_at_start, was_set, with_cursor};

use crate::kept_modes::Modes;
use crate::saved::{Saved, Sets};
use control_functions::ControlFunction;
use esc_values::CsiParam;

/// Says which screen is shown, and by which private mode the alternate one is.
#[derive(Clone, Copy)]
pub(crate) enum Screen {
    /// The main one.
    Main,
    /// The alternate one, by mode 47.
    Alternate,
    /// The same by mode 1047, whose reset clears it.
    Cleared,
    /// The same by mode 1049, which saves the cursor, and whose reset restores it.
    WithCursor,
}

/// A terminal, as far as it is not as at the start.
#[derive(Clone, Copy)]
pub(crate) struct Terminal {
    /// Says whether renditions may be on.
    pub rendition: bool,
    /// Says whether a link is open.
    pub link: bool,
    /// Says whether characters are inserted.
    pub insert: bool,
    /// Says whether the origin is that of the margins.
    pub origin: bool,
    /// Says whether there are top and bottom margins.
    pub margins: bool,
    /// Says whether there may be left and right ones.
    pub sides: bool,
    /// Says whether the cursor is hidden.
    pub hidden: bool,
    /// Says whether colours are reversed.
    pub reverse: bool,
    /// Says whether lines do not wrap.
    pub no_wrap: bool,
    /// Says whether the screen is not drawn.
    pub held: bool,
    /// Its character sets.
    pub sets: Sets,
    /// Its screen.
    pub screen: Screen,
    /// The state that is saved with the cursor of the main screen.
    pub saved: Saved,
    /// The state that is saved with that of the alternate one.
    pub saved_aside: Saved,
    /// The modes that XTSAVE kept.
    pub kept: Modes,
}

/// The effect of a control function on modes.
#[derive(Clone, Copy)]
pub(crate) enum Change {
    /// It sets or resets modes of ECMA-48 (SM, RM).
    Mode(bool),
    /// The same for private modes (DECSET, DECRST).
    PrivateMode(bool),
    /// It keeps private modes (XTSAVE).
    Keep,
    /// It sets them as they were kept (XTRESTORE).
    SetAgain,
}

impl Screen {
    fn is_main(self) -> bool
        ensures { result ≡ is_main self }
    {
        matches!(self, Screen::Main)
    }
}

impl Terminal {
    /// Returns a terminal as at the start.
    pub fn unchanged() -> Terminal
        ensures { result ≡ as_at_start }
    {
        Terminal {
            rendition: false,
            link: false,
            insert: false,
            origin: false,
            margins: false,
            sides: false,
            hidden: false,
            reverse: false,
            no_wrap: false,
            held: false,
            sets: Sets::UNCHANGED,
            screen: Screen::Main,
            saved: Saved::UNCHANGED,
            saved_aside: Saved::UNCHANGED,
            kept: Modes::UNCHANGED,
        }
    }

    /// Returns whether anything is changed, but for the state saved on the alternate screen and the
    /// modes that XTSAVE kept.
    #[inline]
    pub fn is_changed(&self) -> bool
        ensures { result ≡ is_changed self.now }
    {
        self.rendition
            || self.link
            || !self.screen.is_main()
            || self.is_changed_mode()
            || self.sets.are_changed()
            || self.saved.is_changed()
    }

    fn is_changed_mode(&self) -> bool
        ensures { result ≡ is_changed_mode self.now }
    {
        self.insert
            || self.origin
            || self.margins
            || self.sides
            || self.hidden
            || self.reverse
            || self.no_wrap
            || self.held
    }

    /// Changes the terminal by a control sequence of this function and these parameters.
    pub fn change(&mut self, function: ControlFunction, params: &[CsiParam])
        ensures { self.new ≡ after_function function params.now self.old }
    {
        match function {
            ControlFunction::SGR => self.rendition = true,
            ControlFunction::SM => self.change_modes(Change::Mode(true), params),
            ControlFunction::RM => self.change_modes(Change::Mode(false), params),
            ControlFunction::DECSET => self.change_modes(Change::PrivateMode(true), params),
            ControlFunction::DECRST => self.change_modes(Change::PrivateMode(false), params),
            ControlFunction::XTSAVE => self.change_modes(Change::Keep, params),
            ControlFunction::XTRESTORE => self.change_modes(Change::SetAgain, params),
            ControlFunction::DECSTBM => self.margins = !params.is_empty(),
            ControlFunction::SCOSC => self.save(),
            ControlFunction::SCORC => self.restore(),
            ControlFunction::XTPOPSGR => self.rendition = true,
            ControlFunction::XTPOPSGR_2 => self.rendition = true,
            ControlFunction::DECSTR => self.no_wrap = true,
            _ => {}
        }
    }

    // Saves the cursor.
    pub fn save(&mut self)
        ensures { self.new ≡ save self.old }
    {
        let saved = Saved {
            rendition: self.rendition,
            origin: self.origin,
            sets: self.sets,
        };
        if self.screen.is_main() {
            self.saved = saved;
        } else {
            self.saved_aside = saved;
        }
    }

    // It is restored. Not every terminal saves all of it, so a present change is taken to stay.
    pub fn restore(&mut self)
        ensures { self.new ≡ restore self.old }
    {
        let saved = if self.screen.is_main() {
            self.saved
        } else {
            self.saved_aside
        };
        self.rendition = self.rendition || saved.rendition;
        self.origin = self.origin || saved.origin;
        self.sets = self.sets.or(saved.sets);
    }

    // This is done to the modes of these numbers.
    fn change_modes(&mut self, change: Change, params: &[CsiParam])
        ensures { self.new ≡ after_params change params.now self.old }
    {
        let mut rest = params;
        while let Some((first, after)) = rest.split_first() {
            self.change_by(change, *first);
            rest = after;
        }
    }

    fn change_by(&mut self, change: Change, param: CsiParam)
        ensures { self.new ≡ after_param change param self.old }
    {
        let CsiParam::Integer(number) = param else {
            return;
        };
        if number >= 0 {
            self.change_mode(change, number as u64);
        }
    }

    fn change_mode(&mut self, change: Change, number: u64)
        ensures { self.new ≡ after_change change number self.old }
    {
        match change {
            Change::Mode(is_set) => self.set_mode(number, is_set),
            Change::PrivateMode(is_set) => self.set_private(number, is_set),
            Change::Keep => self.keep(number),
            Change::SetAgain => self.set_again(number),
        }
    }

    // Sets the mode of ECMA-48 of this number, or resets it.
    fn set_mode(&mut self, number: u64, is_set: bool)
        ensures { self.new ≡ after_mode number is_set self.old }
    {
        if number == 4 {
            self.insert = is_set;
        }
    }

    /// Sets the private mode of this number, or resets it.
    pub fn set_private(&mut self, number: u64, is_set: bool)
        ensures { self.new ≡ after_private number is_set self.old }
    {
        match number {
            5 => self.reverse = is_set,
            6 => self.origin = is_set,
            7 => self.no_wrap = !is_set,
            25 => self.hidden = !is_set,
            47 => self.show(Screen::Alternate, is_set),
            69 => self.sides = is_set,
            1047 => self.show(Screen::Cleared, is_set),
            1048 => self.keep_cursor(is_set),
            1049 => self.show_with_cursor(is_set),
            2026 => self.held = is_set,
            _ => {}
        }
    }

    // Shows the alternate screen, by this mode, or the main one.
    fn show(&mut self, screen: Screen, is_set: bool)
        ensures { self.new ≡ screen_shown screen is_set self.old }
    {
        self.screen = if is_set { screen } else { Screen::Main };
    }

    // Saves the cursor, or restores it.
    fn keep_cursor(&mut self, is_set: bool)
        ensures { self.new ≡ cursor_kept is_set self.old }
    {
        if is_set {
            self.save();
        } else {
            self.restore();
        }
    }

    // Saves the cursor and shows the alternate screen, or shows the main one and restores the
    // cursor.
    pub fn show_with_cursor(&mut self, is_set: bool)
        ensures { self.new ≡ with_cursor is_set self.old }
    {
        if is_set {
            self.save();
            self.screen = Screen::WithCursor;
        } else {
            self.screen = Screen::Main;
            self.restore();
        }
    }

    // XTSAVE keeps the private mode of this number.
    fn keep(&mut self, number: u64)
        ensures { self.new ≡ kept_mode number self.old }
    {
        match number {
            5 => self.kept.reverse = self.reverse,
            6 => self.kept.origin = self.origin,
            7 => self.kept.no_wrap = self.no_wrap,
            25 => self.kept.hidden = self.hidden,
            47 | 1047 | 1049 => self.kept.alternate = !self.screen.is_main(),
            69 => self.kept.sides = self.sides,
            2026 => self.kept.held = self.held,
            _ => {}
        }
    }

    // XTRESTORE sets it as it was kept.
    fn set_again(&mut self, number: u64)
        ensures { self.new ≡ mode_restored number self.old }
    {
        if number != 1048 {
            self.set_private(number, self.kept.was_set(number));
        }
    }
}
