//! The state that a terminal saves with its cursor.
ghost use Rattle.std.specs.Prelude.{◌≡◌};
ghost use Rattle.esc_filter.specs.Terminal.{are_changed_sets, either_sets, is_changed_saved};

/// Says which character sets are not as at the start, with US-ASCII in G0 to G3, and whether
/// another than G0 is in use.
#[derive(Clone, Copy)]
pub(crate) struct Sets {
    pub g0: bool,
    pub g1: bool,
    pub g2: bool,
    pub g3: bool,
    pub shifted: bool,
}

impl Sets {
    /// The sets as at the start.
    pub const UNCHANGED: Sets = Sets {
        g0: false,
        g1: false,
        g2: false,
        g3: false,
        shifted: false,
    };

    /// Returns the sets that are changed here or there.
    pub fn or(self, other: Sets) -> Sets
        ensures { result ≡ either_sets self other }
    {
        Sets {
            g0: self.g0 || other.g0,
            g1: self.g1 || other.g1,
            g2: self.g2 || other.g2,
            g3: self.g3 || other.g3,
            shifted: self.shifted || other.shifted,
        }
    }

    /// Returns whether any is not as at the start, or another than G0 is in use.
    pub fn are_changed(self) -> bool
        ensures { result ≡ are_changed_sets self }
    {
        self.shifted || self.g0 || self.g1 || self.g2 || self.g3
    }
}

/// The state that is saved with a cursor (DECSC), as far as it is not as at the start.
#[derive(Clone, Copy)]
pub(crate) struct Saved {
    pub rendition: bool,
    pub origin: bool,
    pub sets: Sets,
}

impl Saved {
    /// The state as at the start.
    pub const UNCHANGED: Saved = Saved {
        rendition: false,
        origin: false,
        sets: Sets::UNCHANGED,
    };

    /// Returns whether it is not as at the start.
    pub fn is_changed(self) -> bool
        ensures { result ≡ is_changed_saved self }
    {
        self.rendition || self.origin || self.sets.are_changed()
    }
}
