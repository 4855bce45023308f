//! Why a text is not written.
ghost use Rattle.std.specs.Prelude.{◌≡◌};
ghost use Rattle.esc_calls.specs.Written.{status_of};

use crate::{NO_COMMAND, NO_MEMORY, NOT_WRITABLE};
use std::alloc::AllocError;

/// Why a text is not written.
#[derive(Clone, Copy)]
pub enum Refusal {
    /// No value is as the caller says.
    NoCommand,
    /// The text of the one that is would not read back as it.
    NotWritable,
    /// A request for memory was refused.
    NoMemory,
}

impl Refusal {
    /// Returns the status that says it.
    pub(crate) fn status(self) -> u32
        ensures { result ≡ status_of self }
    {
        match self {
            Refusal::NoCommand => NO_COMMAND,
            Refusal::NotWritable => NOT_WRITABLE,
            Refusal::NoMemory => NO_MEMORY,
        }
    }
}

impl From<AllocError> for Refusal {
    ghost use Rattle.esc_calls.specs.declared.refusal.Refusal.TheVariants.{NoMemory};

    ghost from_gives = { λ _ e. e ≡ NoMemory };

    fn from(_refused: AllocError) -> Refusal {
        Refusal::NoMemory
    }
}
