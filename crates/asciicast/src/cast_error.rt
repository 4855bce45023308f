//! Why a line of a recording is not taken.
ghost use Rattle.std.specs.Prelude.{◌≡◌};

use std::alloc::AllocError;

/// Why a line of a recording is not taken.
#[derive(Clone, Copy, Debug, PartialEq, Eq)]
pub enum CastError {
    /// It is no line of a recording.
    NoEvent,
    /// A request for memory was refused.
    Memory,
}

impl From<AllocError> for CastError {
    ghost use Rattle.asciicast.specs.declared.cast_error.CastError.TheVariants.{Memory};

    ghost from_gives = { λ _ e. e ≡ Memory };

    fn from(_refused: AllocError) -> CastError {
        CastError::Memory
    }
}
