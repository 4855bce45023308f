//! The renditions that are known to be on, if they are noted.
ghost use Rattle.std.specs.Prelude.{◌≡◌, ◌++◌, OnErr, OnOk, string_bytes};
ghost use Rattle.esc_sequences.specs.Csis.{csi_value};
ghost use Rattle.esc_actions.specs.Values.{value_of};
ghost use Rattle.esc_filter.specs.Pens.{pen_after_body, pen_after_final, pen_after_sequence, pen_after_value, pen_selected, pen_with, rendition_of, start_pen, text_of_pen};
ghost use Rattle.fallible_alloc.specs.Refusals.{Refused};

use crate::policy::are_plain;
use esc_actions::Action;
use esc_pen::Pen;
use esc_sequences::{CSI, Sgr};
use esc_values::CsiParam;
use std::alloc::{AllocError, Allocator};
use typed_functions::Rendition;

/// Returns the renditions at the start, which are none. They are noted if lines are streams of
/// their own.
pub(crate) fn start_pen(by_lines: bool) -> Option<Pen>
    ensures { result ≡ start_pen by_lines }
{
    if by_lines { Some(Pen::plain()) } else { None }
}

/// Returns the pen after an action.
#[inline]
pub(crate) fn pen_after<A: Allocator>(pen: Option<Pen>, action: &Action<A>) -> Option<Pen>
    ensures { result ≡ pen_after_value (value_of action.now) pen }
{
    match action {
        Action::CSI(csi) => after_sequence(pen, csi),
        _ => pen,
    }
}

/// Returns the pen after a control sequence; its final byte says whether it is renditions.
#[inline]
pub(crate) fn pen_after_final(pen: Option<Pen>, params: &[CsiParam], control: u8) -> Option<Pen>
    ensures { result ≡ pen_after_final params.now control pen }
{
    if control == b'm' {
        selected(pen, params)
    } else {
        pen
    }
}

/// Appends the control sequences that make it.
pub(crate) fn push_pen<A: Allocator>(
    pen: Option<Pen>,
    text: &mut String<A>,
) -> Result<(), AllocError>
    ensures ok { OnOk result (string_bytes text.new ≡ string_bytes text.old ++ text_of_pen pen) }
    ensures refused { OnErr result (Refused A) }
{
    match pen {
        Some(it) => it.push_text(text),
        None => Ok(()),
    }
}

// Returns the pen after a control sequence.
fn after_sequence<A: Allocator>(pen: Option<Pen>, csi: &CSI<A>) -> Option<Pen>
    ensures { result ≡ pen_after_sequence (csi_value csi.now) pen }
{
    match csi {
        CSI::Sgr(sgr) => pen_with(pen, rendition_of(*sgr)),
        CSI::Unspecified(sequence) => {
            let sequence = sequence.as_ref();
            after_body(pen, sequence.params.as_slice(), sequence.control)
        }
    }
}

// Returns the pen after a control sequence that has no name of its own.
fn after_body(pen: Option<Pen>, params: &[CsiParam], control: u8) -> Option<Pen>
    ensures { result ≡ pen_after_body params.now control pen }
{
    if control == b'm' && are_plain(params) {
        selected(pen, params)
    } else {
        pen
    }
}

// Returns the pen after a rendition.
fn pen_with(pen: Option<Pen>, rendition: Rendition) -> Option<Pen>
    ensures { result ≡ pen_with rendition pen }
{
    match pen {
        Some(mut it) => {
            it.select(rendition);
            Some(it)
        }
        None => None,
    }
}

// Returns the pen after renditions of these parameters.
#[inline]
fn selected(pen: Option<Pen>, params: &[CsiParam]) -> Option<Pen>
    ensures { result ≡ pen_selected params.now pen }
{
    match pen {
        Some(mut it) => {
            it.select_params(params);
            Some(it)
        }
        None => None,
    }
}

// Returns the rendition that it is.
fn rendition_of(sgr: Sgr) -> Rendition
    ensures { result ≡ rendition_of sgr }
{
    match sgr {
        Sgr::Reset => Rendition::Reset,
        Sgr::Intensity(intensity) => Rendition::Intensity(intensity),
        Sgr::Italic(is_on) => Rendition::Italic(is_on),
        Sgr::Underline(underline) => Rendition::Underline(underline),
    }
}
