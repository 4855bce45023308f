//! The known facts about a policy before it is asked.
ghost use Rattle.std.specs.Prelude.{◌≡◌};
ghost use Rattle.esc_filter.specs.Known.{nothing};

/// The decisions of a policy about all actions of a kind, so that it need not be asked about each.
/// If a field is false, it is asked.
#[derive(Clone, Copy, Debug, PartialEq, Eq)]
pub struct Known {
    /// All that [`Policy::Text`](crate::Policy::Text) admits passes: characters but DEL, tab, line
    /// feed and carriage return.
    pub text: bool,
    /// All graphic renditions (SGR) pass.
    pub renditions: bool,
    /// All hyperlinks (OSC 8) that [`Policy::Color`](crate::Policy::Color) admits pass, and their
    /// ends.
    pub links: bool,
    /// No control sequence passes but renditions.
    pub no_functions: bool,
    /// No operating system command passes but these links.
    pub no_commands: bool,
    /// No escape sequence passes.
    pub no_escapes: bool,
}

impl Known {
    /// Returns that nothing is known: the policy is asked about each action.
    #[inline]
    pub fn nothing() -> Known
        ensures { result ≡ nothing }
    {
        Known {
            text: false,
            renditions: false,
            links: false,
            no_functions: false,
            no_commands: false,
            no_escapes: false,
        }
    }
}
