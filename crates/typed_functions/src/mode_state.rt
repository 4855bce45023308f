//! The state of a mode.
ghost use Rattle.std.specs.Prelude.{◌≡◌};
ghost use Rattle.typed_functions.specs.Choices.{mode_state_at, mode_state_number};

/// The state of a mode that a terminal reports (DEC's VT510, DECRPM).
#[derive(Clone, Copy, Debug, PartialEq, Eq)]
pub enum ModeState {
    /// 0: it does not know the mode.
    NotRecognized,
    /// 1: the mode is set.
    Set,
    /// 2: it is reset.
    Reset,
    /// 3: it is set, and cannot be reset.
    PermanentlySet,
    /// 4: it is reset, and cannot be set.
    PermanentlyReset,
}

impl ModeState {
    /// Returns its number.
    #[inline]
    pub fn number(self) -> u8
        ensures { result ≡ mode_state_number self }
    {
        self as u8
    }

    /// Returns the state of a number, if there is one.
    #[inline]
    pub fn of_number(number: u32) -> Option<ModeState>
        ensures { result ≡ mode_state_at number }
    {
        match number {
            0 => Some(ModeState::NotRecognized),
            1 => Some(ModeState::Set),
            2 => Some(ModeState::Reset),
            3 => Some(ModeState::PermanentlySet),
            4 => Some(ModeState::PermanentlyReset),
            _ => None,
        }
    }
}
