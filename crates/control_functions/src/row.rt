//! A row of a table of control functions.

use crate::effect::Effect;
use crate::keyed::Keyed;
use crate::parameters::Parameters;
use crate::standard::Standard;

/// A row of a table of control functions, without its words.
#[derive(Clone, Copy)]
pub struct Row<F> {
    /// The function.
    pub function: F,
    /// The bytes of its sequence but its parameters, with no `ESC` and no `[`, or the code of a C0
    /// control, as digits to the base 256 after a 1; after a 2 if another function has the same
    /// bytes and fewer parameters.
    pub key: u32,
    /// Its effect, and whether a terminal answers it.
    pub effect: Effect,
    /// Its parameters.
    pub parameters: Parameters,
    /// The standard that has it.
    pub standard: Standard,
}

impl<F: Copy> Keyed for Row<F> {
    type Of = F;

    ghost has_key = { λ r. r.key };

    ghost is_of = { λ r. r.function };

    #[inline]
    fn key(&self) -> u32 {
        self.key
    }

    #[inline]
    fn of(&self) -> F {
        self.function
    }
}
