//! Why a word was not read.
ghost use Rattle.std.specs.Prelude.{◌≡◌};

use std::alloc::AllocError;

/// Why a text, a dimension or a link was not read.
#[derive(Debug, PartialEq, Drop)]
pub enum Error {
    /// It has none of the forms that can be read.
    Invalid,
    /// Memory was refused.
    Memory(AllocError),
}

impl From<AllocError> for Error {
    ghost use Rattle.esc_values.specs.declared.error.Error.TheVariants.{Memory};

    ghost from_gives = { λ e r. r ≡ Memory e };

    fn from(error: AllocError) -> Error {
        Error::Memory(error)
    }
}
