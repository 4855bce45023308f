//! This module says how a frame's pixels are put over others.
ghost use Rattle.std.specs.Prelude.{◌≡◌};
ghost use Rattle.std.specs.Option.{option_map};
ghost use Rattle.esc_kitty.specs.Words.{composition_of, composition_word};

/// The mode says how a frame's pixels are put over others (key `X` of a frame, key `C` of composed
/// frames).
#[derive(Clone, Copy, Debug, PartialEq, Eq)]
pub enum KittyFrameCompositionMode {
    /// `0`: the colours are blended by their alpha. This is the default.
    AlphaBlending,
    /// `1`: the new pixels replace the others.
    Overwrite,
}

impl KittyFrameCompositionMode {
    // Returns the mode that a number names, if it names one.
    pub(crate) fn read(number: Option<i32>) -> Option<KittyFrameCompositionMode>
        ensures { result ≡ composition_of number }
    {
        match number {
            None | Some(0) => Some(KittyFrameCompositionMode::AlphaBlending),
            Some(1) => Some(KittyFrameCompositionMode::Overwrite),
            Some(_) => None,
        }
    }

    // Returns the value of the key, unless this is the default.
    pub(crate) fn word(self) -> Option<&'static str>
        ensures { option_map (λ w. w.now) result ≡ composition_word self }
    {
        match self {
            KittyFrameCompositionMode::AlphaBlending => None,
            KittyFrameCompositionMode::Overwrite => Some("1"),
        }
    }
}
