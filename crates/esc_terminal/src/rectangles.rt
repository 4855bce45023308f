//! The control sequences that change a rectangle: their parameters are numbers, and `$` comes last.
ghost use Rattle.std.specs.Prelude.{◌≡◌, ◌+◌, ◌<◌, ◌^◌};
ghost use Rattle.esc_sequences.specs.Csis.{csi_value};
ghost use Rattle.esc_terminal.specs.Steps.{area_at, counted, csi_step, end_of, fill_step, filled_by, if_dollared, is_dollared, is_fill, number_at, sequence_step};

use crate::steps::print_step;
use esc_screen::{Area, Change, Step};
use esc_sequences::CSI;
use esc_values::CsiParam;
use std::alloc::Allocator;

/// The step of a control sequence, where it changes a rectangle, and none otherwise.
pub(crate) fn csi_step<A: Allocator>(csi: &CSI<A>) -> Step
    ensures { result ≡ csi_step (csi_value csi.now) }
{
    match csi {
        CSI::Sgr(_) => Step::Nothing,
        CSI::Unspecified(sequence) => {
            let sequence = sequence.as_ref();
            if sequence.parameters_truncated {
                return Step::Nothing;
            }
            sequence_step(sequence.params.as_slice(), sequence.control)
        }
    }
}

/// The same of one with all of these parameters and this final byte.
#[inline]
pub(crate) fn sequence_step(params: &[CsiParam], last: u8) -> Step
    ensures { result ≡ sequence_step params.now last }
{
    match last {
        b'z' | b'{' => if_dollared(params, Step::Edit(Change::EraseArea(area_at(params, 0)))),
        b'x' => if_dollared(params, fill_step(number_at(params, 0), area_at(params, 1))),
        _ => Step::Nothing,
    }
}

fn if_dollared(params: &[CsiParam], step: Step) -> Step
    ensures { result ≡ if_dollared params.now step }
{
    if is_dollared(params) {
        step
    } else {
        Step::Nothing
    }
}

// Whether parameters are numbers, with `;` between them, and then `$`.
fn is_dollared(params: &[CsiParam]) -> bool
    ensures { result ≡ is_dollared params.now }
{
    for i in 0..params.len() {
        match params[i] {
            CsiParam::Integer(_) => {}
            CsiParam::P(b';') => {}
            CsiParam::P(b'$') => return params[i + 1..].len() == 0,
            CsiParam::P(_) => return false,
        }
    }
    false
}

// A number, where a screen counts to 65,535.
fn counted(number: i64) -> u16
    ensures { result ≡ counted number }
{
    match u64::try_from(number) {
        Ok(number) => number.min(0xffff) as u16,
        Err(_) => 0,
    }
}

// The number of a parameter, from 0 on, or 0 where it has none.
fn number_at(params: &[CsiParam], at: usize) -> u16
    ensures { result ≡ number_at at params.now }
{
    let mut left = at;
    for i in 0..params.len() {
        match params[i] {
            CsiParam::Integer(number) => {
                if left == 0 {
                    return counted(number);
                }
            }
            CsiParam::P(b';') => {
                if left == 0 {
                    return 0;
                }
                left -= 1;
            }
            CsiParam::P(_) => {}
        }
    }
    0
}

// A last row or column, from 0 on.
fn end_of(number: u16) -> u16
    ensures { result ≡ end_of number }
{
    if number == 0 { 0xffff } else { number - 1 }
}

// The rectangle of four parameters.
fn area_at(params: &[CsiParam], at: usize) -> Area
    requires { at + 3 < 2 ^ 64 }
    ensures { result ≡ area_at at params.now }
{
    Area {
        top: number_at(params, at).saturating_sub(1),
        left: number_at(params, at + 1).saturating_sub(1),
        bottom: end_of(number_at(params, at + 2)),
        right: end_of(number_at(params, at + 3)),
    }
}

fn is_fill(number: u16) -> bool
    ensures { result ≡ is_fill number }
{
    (number >= 0x20 && number <= 0x7e) || (number >= 0xa0 && number <= 0xff)
}

// The step that fills a rectangle, where this one prints a character of one column.
fn filled_by(step: Step, area: Area) -> Step
    ensures { result ≡ filled_by step area }
{
    match step {
        Step::Print(c) => Step::Edit(Change::FillArea(c, area)),
        _ => Step::Nothing,
    }
}

fn fill_step(number: u16, area: Area) -> Step
    ensures { result ≡ fill_step number area }
{
    if is_fill(number) {
        filled_by(print_step(number as u8 as char), area)
    } else {
        Step::Nothing
    }
}
