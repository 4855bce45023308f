//! The operation on flags of kitty's keyboard protocol.
ghost use Rattle.std.specs.Prelude.{◌≡◌};
ghost use Rattle.typed_functions.specs.Choices.{kitty_flags_change_at, kitty_flags_change_number};

/// The operation on flags of kitty's keyboard protocol (its page, `CSI = flags ; mode u`).
#[derive(Clone, Copy, Debug, PartialEq, Eq)]
pub enum KittyFlagsChange {
    /// 1: these are set and all others are not.
    AssignAll = 1,
    /// 2: these are set too.
    SetSpecified = 2,
    /// 3: these are not set.
    ClearSpecified = 3,
}

impl KittyFlagsChange {
    /// Returns its number.
    #[inline]
    pub fn number(self) -> u8
        ensures { result ≡ kitty_flags_change_number self }
    {
        self as u8
    }

    /// Returns the choice of a number, if there is one.
    #[inline]
    pub fn of_number(number: u8) -> Option<KittyFlagsChange>
        ensures { result ≡ kitty_flags_change_at number }
    {
        match number {
            1 => Some(KittyFlagsChange::AssignAll),
            2 => Some(KittyFlagsChange::SetSpecified),
            3 => Some(KittyFlagsChange::ClearSpecified),
            _ => None,
        }
    }
}
