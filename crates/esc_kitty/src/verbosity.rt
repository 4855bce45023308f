//! This module says what the terminal reports of a command.
ghost use Rattle.std.specs.Prelude.{◌≡◌};
ghost use Rattle.std.specs.Option.{option_map};
ghost use Rattle.esc_kitty.specs.Words.{verbosity_of, verbosity_word};

/// The verbosity says what the terminal reports of a command (key `q`).
#[derive(Clone, Copy, Debug, PartialEq, Eq)]
pub enum KittyImageVerbosity {
    /// `0`: successes and errors. This is the default.
    Verbose,
    /// `1`: errors alone.
    OnlyErrors,
    /// `2`: nothing.
    Quiet,
}

impl KittyImageVerbosity {
    // Returns the verbosity that a value of `q` names, if it names one.
    pub(crate) fn read(value: Option<&str>) -> Option<KittyImageVerbosity>
        ensures { result ≡ verbosity_of (option_map (λ w. w.now) value.entry) }
    {
        let Some(word) = value else {
            return Some(KittyImageVerbosity::Verbose);
        };
        match word {
            "0" => Some(KittyImageVerbosity::Verbose),
            "1" => Some(KittyImageVerbosity::OnlyErrors),
            "2" => Some(KittyImageVerbosity::Quiet),
            _ => None,
        }
    }

    // Returns the value of `q`, unless this is the default.
    pub(crate) fn word(self) -> Option<&'static str>
        ensures { option_map (λ w. w.now) result ≡ verbosity_word self }
    {
        match self {
            KittyImageVerbosity::Verbose => None,
            KittyImageVerbosity::OnlyErrors => Some("1"),
            KittyImageVerbosity::Quiet => Some("2"),
        }
    }
}
