//! The state between two cells of a row.
ghost use Rattle.std.specs.Prelude.{◌≡◌};
ghost use Rattle.esc_paint.specs.Differences.{here_pen};
ghost use Rattle.esc_paint.specs.Painting.{first_pen};

use esc_style::Look;

/// The state between two cells of a row.
#[derive(Clone, Copy)]
pub struct Pen {
    /// Says whether the cursor is at the place of the next cell.
    pub here: bool,
    /// The look of the next characters.
    pub look: Look,
    /// The look of the blank cells, if the rest of the row is blank.
    pub back: Look,
}

impl Pen {
    /// Returns the pen at the beginning of a row.
    pub(crate) fn first() -> Pen
        ensures { result ≡ first_pen }
    {
        Pen {
            here: false,
            look: Look::plain(),
            back: Look::plain(),
        }
    }

    /// Returns the pen at the next cell of a row that is blank from there on.
    pub(crate) fn here() -> Pen
        ensures { result ≡ here_pen }
    {
        Pen {
            here: true,
            look: Look::plain(),
            back: Look::plain(),
        }
    }
}
