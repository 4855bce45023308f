//! Operating system commands from their texts. An error is that memory was refused.
ghost use Rattle.std.specs.Prelude.{◌≡◌, IfOk, OnErr};
ghost use Rattle.esc_values.specs.Clear.{parts_of};
ghost use Rattle.esc_osc.specs.Reading.{meaning};
ghost use Rattle.fallible_alloc.specs.Refusals.{Refused};

use esc_frame::parts::Parts;
use esc_frame::split::split_parts;
use esc_osc::OperatingSystemCommand;
use std::alloc::{AllocError, Allocator};

/// Returns the command that the parts of a text mean.
pub fn command_in<A: Allocator + Copy>(
    alloc: A,
    text: &[u8],
) -> Result<OperatingSystemCommand<A>, AllocError>
    ensures ok { IfOk result (λ c. c ≡ meaning (parts_of text.now)) }
    ensures refused { OnErr result (Refused A) }
{
    let parts = Parts::of(text);
    if parts.count > 0 && !text.is_empty() {
        return OperatingSystemCommand::parse(alloc, parts.as_slice());
    }
    match split_parts(alloc, text) {
        Ok(parts) => OperatingSystemCommand::parse(alloc, &parts),
        Err(error) => Err(error),
    }
}
