//! Which modes of a screen are set.
ghost use Rattle.std.specs.Prelude.{◌≡◌};
ghost use Rattle.esc_screen.specs.Cursors.{first_modes, softly_reset_modes, with_mode};

use crate::mode::Mode;

/// Which modes of a screen are set.
#[derive(Clone, Copy)]
pub struct Modes {
    /// [`Mode::AutoWrap`].
    pub wraps: bool,
    /// [`Mode::Insert`].
    pub inserts: bool,
    /// [`Mode::NewLine`].
    pub new_line: bool,
    /// [`Mode::ReverseVideo`].
    pub reversed: bool,
    /// [`Mode::ShowCursor`].
    pub shows_cursor: bool,
    /// [`Mode::Synchronized`].
    pub synchronized: bool,
    /// [`Mode::Columns`].
    pub columns: bool,
}

impl Modes {
    /// As at first: lines wrap and the cursor is seen.
    pub fn first() -> Modes
        ensures { result ≡ first_modes }
    {
        Modes {
            wraps: true,
            inserts: false,
            new_line: false,
            reversed: false,
            shows_cursor: true,
            synchronized: false,
            columns: false,
        }
    }

    /// With a mode set or reset.
    pub fn with(self, mode: Mode, on: bool) -> Modes
        ensures { result ≡ with_mode mode on self }
    {
        match mode {
            Mode::AutoWrap => Modes { wraps: on, ..self },
            Mode::Insert => Modes {
                inserts: on,
                ..self
            },
            Mode::NewLine => Modes {
                new_line: on,
                ..self
            },
            Mode::ReverseVideo => Modes {
                reversed: on,
                ..self
            },
            Mode::ShowCursor => Modes {
                shows_cursor: on,
                ..self
            },
            Mode::Synchronized => Modes {
                synchronized: on,
                ..self
            },
            Mode::Columns => Modes {
                columns: on,
                ..self
            },
        }
    }

    /// As DECSTR leaves them.
    pub fn softly_reset(self) -> Modes
        ensures { result ≡ softly_reset_modes self }
    {
        Modes {
            wraps: true,
            inserts: false,
            shows_cursor: true,
            ..self
        }
    }
}
