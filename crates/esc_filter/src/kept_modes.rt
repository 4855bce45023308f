//! The private modes that XTSAVE keeps.
ghost use Rattle.std.specs.Prelude.{◌≡◌};
ghost use Rattle.esc_filter.specs.Terminal.{was_set};

/// The private modes that XTSAVE kept, as far as they were not as at the start.
#[derive(Clone, Copy)]
pub(crate) struct Modes {
    pub reverse: bool,
    pub origin: bool,
    pub no_wrap: bool,
    pub hidden: bool,
    pub alternate: bool,
    pub sides: bool,
    pub held: bool,
}

impl Modes {
    /// The modes as at the start.
    pub const UNCHANGED: Modes = Modes {
        reverse: false,
        origin: false,
        no_wrap: false,
        hidden: false,
        alternate: false,
        sides: false,
        held: false,
    };

    /// Returns whether the private mode of this number was set, one of those that are kept.
    pub fn was_set(self, number: u64) -> bool
        ensures { result ≡ was_set number self }
    {
        match number {
            5 => self.reverse,
            6 => self.origin,
            7 => !self.no_wrap,
            25 => !self.hidden,
            69 => self.sides,
            2026 => self.held,
            _ => self.alternate,
        }
    }
}
