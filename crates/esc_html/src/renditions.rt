//! The renditions that a control sequence asks for.
ghost use Rattle.std.specs.Prelude.{◌≡◌, IfSome, Some, false};
ghost use Rattle.esc_html.specs.Marks.{Pen, function_step, restyles};
ghost use Rattle.esc_html.specs.Numbers.{is_lone_number, is_whole_rendition, lone_byte};
ghost use Rattle.esc_html.specs.Renditions.{AsksFor, is_number, rendition_by, rendition_of};
ghost use Rattle.esc_sequences.specs.Csis.{unspecified};
ghost use Rattle.esc_style.specs.Looks.{look_by};
ghost use Rattle.typed_functions.specs.Functions.{of_csi, value_of};
ghost use Rattle.typed_functions.specs.Numbers.{number_rendition};
ghost use Rattle.typed_functions.specs.Renditions.{byte_of};

use crate::mark::Mark;
use esc_sequences::Sgr;
use esc_values::CsiParam;
use typed_functions::{AnsiColor, Function, Rendition};

/// The renditions that a coloured log has most.
#[derive(Clone, Copy)]
pub(crate) enum Common {
    /// Each rendition as at first.
    Reset,
    /// A colour of the characters, by its name.
    Color(AnsiColor),
    /// A mark.
    Marked(Mark),
}

/// The one that a control sequence of these parameters asks for, if it has no parameter or one
/// number, and this asks for such a rendition. `None` says nothing about the sequence.
#[inline]
pub(crate) fn common_rendition(
    params: &[CsiParam],
    parameters_truncated: bool,
    control: u8,
) -> Option<Common>
    ensures { IfSome result (λ k.
        AsksFor params.now parameters_truncated control (rendition_by k)) }
{
    if !is_whole_rendition(parameters_truncated, control) {
        return None;
    }
    common_of(params)
}

// Whether no parameter was left out, and the final byte is that of renditions.
#[inline]
fn is_whole_rendition(parameters_truncated: bool, control: u8) -> bool
    ensures { result ≡ is_whole_rendition parameters_truncated control }
{
    !parameters_truncated && control == b'm'
}

// The one that these parameters ask for: none of them is as 0.
#[inline]
fn common_of(params: &[CsiParam]) -> Option<Common>
    ensures { IfSome result (λ k. AsksFor params.now false 0x6d (rendition_by k)) }
{
    if params.is_empty() {
        return Some(Common::Reset);
    }
    match lone_byte(params) {
        Some(number) => common_at(number),
        None => None,
    }
}

// The only parameter, if it is a number of at most 255.
#[inline]
fn lone_byte(params: &[CsiParam]) -> Option<u8>
    ensures { result ≡ lone_byte params.now }
{
    match params {
        [param] => byte_of(*param),
        _ => None,
    }
}

// A number of at most 255.
#[inline]
fn byte_of(param: CsiParam) -> Option<u8>
    ensures { result ≡ byte_of param }
{
    match param {
        CsiParam::Integer(number) => match u8::try_from(number) {
            Ok(byte) => Some(byte),
            Err(_) => None,
        },
        CsiParam::P(_) => None,
    }
}

// The one that a number asks for.
#[inline]
fn common_at(number: u8) -> Option<Common>
    ensures { IfSome result (λ k. number_rendition number ≡ Some (rendition_by k)) }
{
    match number {
        0 => Some(Common::Reset),
        1 => Some(Common::Marked(Mark::Bold)),
        2 => Some(Common::Marked(Mark::Faint)),
        3 => Some(Common::Marked(Mark::Italic)),
        4 => Some(Common::Marked(Mark::Underlined)),
        7 => Some(Common::Marked(Mark::Inverse)),
        9 => Some(Common::Marked(Mark::Strikethrough)),
        30..=37 => Some(Common::Color(AnsiColor::at(number - 30))),
        90..=97 => Some(Common::Color(AnsiColor::at(number - 82))),
        _ => None,
    }
}

/// The rendition that a control sequence of these parameters asks for, if it has one number and
/// nothing else, as most have; it is read without its function's name.
#[inline]
pub(crate) fn lone_rendition(
    params: &[CsiParam],
    parameters_truncated: bool,
    control: u8,
) -> Option<Rendition>
    ensures { IfSome result (λ r. (p : Pen) → restyles (look_by p.look r)
        ≡ function_step p (of_csi (unspecified params.now parameters_truncated control))) }
{
    if !is_lone_number(params, parameters_truncated, control) {
        return None;
    }
    Rendition::of_entries(params)
}

// Whether they are one number, and the final byte is that of renditions.
fn is_lone_number(params: &[CsiParam], parameters_truncated: bool, control: u8) -> bool
    ensures { result ≡ is_lone_number params.now parameters_truncated control }
{
    !parameters_truncated && control == b'm' && is_number(params)
}

// Whether they are one number.
fn is_number(params: &[CsiParam]) -> bool
    ensures { result ≡ is_number params.now }
{
    match params {
        [CsiParam::Integer(_)] => true,
        _ => false,
    }
}

/// The same as one of all renditions.
pub(crate) fn rendition_of(rendition: Sgr) -> Rendition
    ensures { result ≡ rendition_of rendition }
{
    match rendition {
        Sgr::Reset => Rendition::Reset,
        Sgr::Intensity(intensity) => Rendition::Intensity(intensity),
        Sgr::Italic(is_on) => Rendition::Italic(is_on),
        Sgr::Underline(underline) => Rendition::Underline(underline),
    }
}

/// The function that a control sequence of these parameters asks for.
pub(crate) fn function_of(
    params: &[CsiParam],
    parameters_truncated: bool,
    control: u8,
) -> Function<'_>
    ensures { value_of result ≡ of_csi (unspecified params.now parameters_truncated control) }
{
    if parameters_truncated {
        return Function::of_kept(params, control);
    }
    Function::of_params(params, control)
}
