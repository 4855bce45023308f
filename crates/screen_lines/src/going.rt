//! A place in a row.
ghost use Rattle.std.specs.Prelude.{◌≡◌, IfSome};
ghost use Rattle.screen_lines.specs.Runs.{going_on};

/// The place before a cell of a row.
#[derive(Clone, Copy)]
pub(crate) struct Going {
    /// The number of the look and the link there, unless they are the plain look and no link.
    pub held: Option<u16>,
    /// How many hidden cells come directly before it.
    pub blanks: usize,
}

impl Going {
    /// The number of the look of the cell directly before it, if that holds there, and no hidden
    /// cell comes between.
    #[tactic(auto, using(crate::proofs::Runs::going_is))]
    #[inline]
    pub fn look(self) -> Option<u16>
        ensures { IfSome result (λ n. self ≡ going_on n) }
    {
        if self.blanks == 0 { self.held } else { None }
    }
}
