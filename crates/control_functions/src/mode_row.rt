//! A row of a table of modes.

use crate::effect::Effect;
use crate::keyed::Keyed;

/// A row of a table of modes, without its words.
#[derive(Clone, Copy)]
pub(crate) struct ModeRow<M> {
    /// The mode.
    pub(crate) mode: M,
    /// Its number.
    pub(crate) number: u32,
    /// Says whether setting and resetting it changes the screen alone.
    pub(crate) effect: Effect,
}

impl<M: Copy> Keyed for ModeRow<M> {
    type Of = M;

    ghost has_key = { λ r. r.number };

    ghost is_of = { λ r. r.mode };

    #[inline]
    fn key(&self) -> u32 {
        self.number
    }

    #[inline]
    fn of(&self) -> M {
        self.mode
    }
}
