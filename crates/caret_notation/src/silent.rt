//! An actor to which all events are nothing.
ghost use Rattle.std.specs.Prelude.{◌++◌, ◌<◌, ◌≤◌, ℕ, List, IfOk, OnErr, Some, length, take};
ghost use Rattle.esc_frame.specs.Stream.{IsQuietWithin, HasConsumedWithin};
ghost use Rattle.fallible_alloc.specs.Refusals.{Refused};

use esc_frame::{VTActor, VTParser};
use esc_values::CsiParam;
use std::alloc::{AllocError, Allocator};

/// Frames some of these bytes, at least one, and returns how many: all but the last leave a segment
/// unfinished.
pub(crate) fn frame_some<A: Allocator>(
    framer: &mut VTParser<A>,
    bytes: &[u8],
) -> Result<usize, AllocError>
    requires { 0 < length bytes.now }
    ensures count { IfOk result (λ n. (0 < n) × (n ≤ length bytes.now)) }
    ensures given { (limit : ℕ) (s : List ℕ) → HasConsumedWithin (Some limit) s framer.old
        → IfOk result (λ n. HasConsumedWithin (Some limit) (s ++ take n bytes.now) framer.new
        × IsQuietWithin (Some limit) s bytes.now n) }
    ensures refused { (limit : ℕ) (s : List ℕ) → HasConsumedWithin (Some limit) s framer.old
        → OnErr result (Refused A) }
{
    match framer.parse_some(bytes, &mut Silent) {
        Ok(n) => Ok(n),
        Err(_) => Err(AllocError),
    }
}

/// Takes each event, and does nothing.
#[derive(Drop)]
pub(crate) struct Silent;

impl VTActor for Silent {
    ghost takes = { λ _ _ _. Unit {0} };

    ghost refuses = { λ _ _ _. ⊥ };

    ghost is_ready = { λ _. Unit {0} };

    ghost may = { λ _ _. Unit {0} };

    #[inline]
    fn print(&mut self, _c: char) -> Result<(), AllocError> {
        Ok(())
    }

    #[inline]
    fn execute_c0_or_c1(&mut self, _control: u8) -> Result<(), AllocError> {
        Ok(())
    }

    #[inline]
    fn dcs_hook(
        &mut self,
        _byte: u8,
        _params: &[i64],
        _intermediates: &[u8],
        _ignored_extra_intermediates: bool,
    ) -> Result<(), AllocError> {
        Ok(())
    }

    #[inline]
    fn dcs_put(&mut self, _byte: u8) -> Result<(), AllocError> {
        Ok(())
    }

    #[inline]
    fn dcs_unhook(&mut self) -> Result<(), AllocError> {
        Ok(())
    }

    #[inline]
    fn esc_dispatch(
        &mut self,
        _params: &[i64],
        _intermediates: &[u8],
        _ignored_extra_intermediates: bool,
        _byte: u8,
    ) -> Result<(), AllocError> {
        Ok(())
    }

    #[inline]
    fn csi_dispatch(
        &mut self,
        _params: &[CsiParam],
        _parameters_truncated: bool,
        _byte: u8,
    ) -> Result<(), AllocError> {
        Ok(())
    }

    #[inline]
    fn osc_dispatch(&mut self, _params: &[&[u8]]) -> Result<(), AllocError> {
        Ok(())
    }

    #[inline]
    fn apc_dispatch(&mut self, _text: &[u8]) -> Result<(), AllocError> {
        Ok(())
    }
}
