//! Control sequences, appended to a text with no action made of them.
ghost use Rattle.std.specs.Prelude.{◌≡◌, ◌++◌, IsTrue, OnErr, OnOk};
ghost use Rattle.fallible_alloc.specs.Refusals.{Refused};
ghost use Rattle.esc_sequences.specs.Csis.{csi_text, csi_value, unspecified};
ghost use Rattle.esc_write.specs.Plain.{IsNumber, IsPlain};

use crate::short_numbers::ShortNumbers;
use crate::short_text::ShortText;
use esc_sequences::csi::is_unspecified;
use esc_sequences::{BorrowedSequence, CSI};
use esc_values::{CsiParam, Text};
use std::alloc::{AllocError, Allocator};

/// Appends the text of a control sequence.
pub(crate) fn append_csi<A: Allocator>(text: &mut Text<A>, csi: &CSI<A>) -> Result<(), AllocError>
    ensures ok { OnOk result (text.new ≡ text.old ++ csi_text (csi_value csi.now)) }
    ensures refused { OnErr result (Refused A) }
{
    match csi {
        CSI::Sgr(sgr) => text.push_display(sgr),
        CSI::Unspecified(sequence) => {
            let sequence = sequence.as_ref();
            append_body(
                text,
                sequence.params.as_slice(),
                sequence.parameters_truncated,
                sequence.control,
            )
        }
    }
}

// Appends the text of a control sequence that has no name, at once if its numbers are short.
fn append_body<A: Allocator>(
    text: &mut Text<A>,
    params: &[CsiParam],
    parameters_truncated: bool,
    control: u8,
) -> Result<(), AllocError>
    ensures ok { OnOk result (text.new
        ≡ text.old ++ csi_text (unspecified params.now parameters_truncated control)) }
    ensures refused { OnErr result (Refused A) }
{
    match ShortNumbers::of(params, control) {
        Some(numbers) => numbers.append_to(text, control),
        None => append_csi_params(text, params, parameters_truncated, control),
    }
}

/// Appends the text of a control sequence that has no name; a short one is gathered first.
pub fn append_csi_params<A: Allocator>(
    text: &mut Text<A>,
    params: &[CsiParam],
    parameters_truncated: bool,
    control: u8,
) -> Result<(), AllocError>
    ensures ok { OnOk result (text.new
        ≡ text.old ++ csi_text (unspecified params.now parameters_truncated control)) }
    ensures refused { OnErr result (Refused A) }
{
    let mut short = ShortText::new();
    if short.push_sequence(params, control) {
        text.push_str(short.as_str())
    } else {
        text.push_display(&BorrowedSequence {
            params,
            parameters_truncated,
            control,
        })
    }
}

/// Returns whether the text of a control sequence is the text of its parameters: it has no name, or
/// its only parameter is a number, also if that is a rendition.
pub fn is_plain(params: &[CsiParam], parameters_truncated: bool, control: u8) -> bool
    ensures { IsTrue result → IsPlain params.now parameters_truncated control }
{
    is_number(params) || is_unspecified(params, parameters_truncated, control)
}

// Returns whether the only parameter is a number.
fn is_number(params: &[CsiParam]) -> bool
    ensures { IsTrue result → IsNumber params.now }
{
    matches!(params, [CsiParam::Integer(_)])
}
