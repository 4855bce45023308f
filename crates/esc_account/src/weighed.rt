//! Facts about the actions of a segment.
#![tactic(auto)]

ghost use Rattle.std.specs.Prelude.{◌≡◌};
ghost use Rattle.esc_account.specs.Weighed.{facts_of_none};

/// All that the fate of a segment rests on but its text, of the actions that came.
#[derive(Clone, Copy)]
pub(crate) struct Weighed {
    /// Whether one is the meaning of the segment itself.
    pub has_own: bool,
    /// Whether something is written of each.
    pub writes_all: bool,
    /// Whether visible text is written in place of one.
    pub shows_some: bool,
    /// The character before the next text.
    pub last: Option<char>,
}

impl Weighed {
    /// The facts about no action, after this character.
    pub fn unweighed(before: Option<char>) -> Weighed
        ensures { result ≡ facts_of_none before }
    {
        Weighed {
            has_own: false,
            writes_all: true,
            shows_some: false,
            last: before,
        }
    }
}
