//! The one place that grants that a request for memory was refused.
ghost use Rattle.std.specs.Prelude.{◌≡◌, OnErr};
ghost use Rattle.fallible_alloc.specs.Refusals.{Refused};

use std::alloc::Allocator;

// Returns the result of a call of the library whose only error is that memory was refused. Nothing
// else may be passed to it.
#[inline(always)]
pub(crate) fn answered<T, E, A: Allocator>(answer: Result<T, E>) -> Result<T, E>
    ensures same { result ≡ answer }
    ensures refused { OnErr result (Refused A) }
{
    match answer {
        Ok(value) => Ok(value),
        Err(error) => Err(error),
    }
}
