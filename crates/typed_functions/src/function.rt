//! Control sequences, escape sequences and C1 controls as typed values.
ghost use Rattle.std.specs.Prelude.{◌≡◌, Some};
ghost use Rattle.esc_sequences.specs.Csis.{csi_value};
ghost use Rattle.typed_functions.specs.Arguments.{arguments};
ghost use Rattle.typed_functions.specs.Escapes.{of_bytes, of_c1, of_escape, of_intermediates};
ghost use Rattle.typed_functions.specs.Functions.{known_entries, value_with, of_csi, of_kept, of_named, of_params, several, value_of};

use crate::arguments::{Arguments, Kind};
use crate::charset::Charset;
use crate::cursor::Cursor;
use crate::designated::{of_function as of_escape_function, of_two};
use crate::device::Device;
use crate::edit::Edit;
use crate::escape::Escape;
use crate::kept::whole_entries;
use crate::keyboard::Keyboard;
use crate::mode_change::ModeChange;
use crate::mode_status::ModeStatus;
use crate::modes::Modes;
use crate::mouse::Mouse;
use crate::numbers::{after_prefix, arguments};
use crate::renditions::Renditions;
use crate::tab_change::TabChange;
use crate::table::{
    bare, bounded, change_of, counted, flagged, kind_of, listed, placed, reported, selected,
    tab_change_of,
};
use crate::unfit::Unfit;
use crate::window::Window;
use control_functions::{ControlFunction, EscapeFunction};
use esc_sequences::{CSI, Esc, EscCode, Intensity, Sgr, Underline};
use esc_values::CsiParam;
use std::alloc::Allocator;

/// The request of a control sequence, an escape sequence or a C1 control, with its parameters as
/// numbers. The default of a parameter that is left out, or that is 0 if terminals count from 1, is
/// filled in.
#[derive(Clone, Copy, Debug)]
pub enum Function<'a> {
    /// A request about the cursor, or its bounds.
    Cursor(Cursor),
    /// Something is inserted, deleted, erased or scrolled.
    Edit(Edit),
    /// Something is asked of the terminal itself.
    Device(Device),
    /// Something is asked of how keys are reported.
    Keyboard(Keyboard),
    /// Something is reported of the mouse.
    Mouse(Mouse),
    /// Something is asked or reported of the window.
    Window(Window),
    /// The state of a mode is asked for or reported.
    ModeStatus(ModeStatus),
    /// A character set is designated.
    Charset(Charset),
    /// Anything else that an escape sequence or a C1 control asks for.
    Escape(Escape),
    /// Modes are set, reset, kept or restored.
    Mode(ModeChange, Modes<'a>),
    /// Tab stops are set or cleared, by several choices. One choice is that of a `Cursor`.
    Tabs(TabChange, Modes<'a>),
    /// Says how characters are shown from here on.
    Sgr(Renditions<'a>),
    /// It has no typed value, and stays the sequence that it is.
    Other(Unfit),
}

impl<'a> Function<'a> {
    /// Returns the request of this control sequence. If entries of it were left out, since it had
    /// more than are kept, it is the result of [`of_kept`](Function::of_kept).
    pub fn of<A: Allocator>(csi: &'a CSI<A>) -> Function<'a>
        ensures { value_of result ≡ of_csi (csi_value csi.now) }
    {
        match csi {
            CSI::Sgr(sgr) => Function::Sgr(Renditions::new(known_entries(*sgr))),
            CSI::Unspecified(sequence) => {
                let sequence = sequence.as_ref();
                let params = sequence.params.as_slice();
                if sequence.parameters_truncated {
                    return Function::of_kept(params, sequence.control);
                }
                Function::of_params(params, sequence.control)
            }
        }
    }

    /// Returns the request of a control sequence with all of these parameters and this final byte.
    pub fn of_params(params: &'a [CsiParam], last: u8) -> Function<'a>
        ensures { value_of result ≡ of_params params.now last }
    {
        match ControlFunction::of_csi_params(params, last) {
            Some(function) => of_function(function, params),
            None => Function::Other(Unfit::Unnamed),
        }
    }

    /// Returns the request of a control sequence with more parameters than these, which were kept,
    /// and this final byte. An intermediate may be among those that were left out, so its function
    /// is not known; but with the final byte `m` the renditions are read that are whole, those
    /// before the last `;`, as terminals read the first ones.
    pub fn of_kept(params: &'a [CsiParam], last: u8) -> Function<'a>
        ensures { value_of result ≡ of_kept params.now last }
    {
        if last != b'm' {
            return Function::Other(Unfit::Truncated);
        }
        match whole_entries(params) {
            Some(entries) => Function::of_params(entries, last),
            None => Function::Other(Unfit::Truncated),
        }
    }

    /// Returns the request of this escape sequence.
    pub fn of_escape(esc: Esc) -> Function<'a>
        ensures { value_of result ≡ of_escape esc }
    {
        match esc {
            Esc::Code(EscCode::StringTerminator) => Function::of_escape_bytes(None, b'\\'),
            Esc::Code(EscCode::HorizontalTabSet) => Function::of_escape_bytes(None, b'H'),
            Esc::Code(EscCode::TmuxTitle) => Function::of_escape_bytes(None, b'k'),
            Esc::Unspecified {
                intermediate,
                control,
            } => Function::of_escape_bytes(intermediate, control),
        }
    }

    /// Returns the request of an escape sequence with this intermediate, if there is one, and this
    /// final byte.
    pub fn of_escape_bytes(intermediate: Option<u8>, last: u8) -> Function<'a>
        ensures { value_of result ≡ of_bytes intermediate last }
    {
        match EscapeFunction::of_bytes(intermediate, last) {
            Some(function) => of_escape_function(function, last),
            None => Function::Other(Unfit::Unnamed),
        }
    }

    /// Returns the request of an escape sequence with all of these intermediates and this final
    /// byte. If there are two, both count, as in `ESC $ ) C` and `ESC ( % 6`.
    pub fn of_intermediates(intermediates: &[u8], last: u8) -> Function<'a>
        ensures { value_of result ≡ of_intermediates intermediates.now last }
    {
        let Some((first, rest)) = intermediates.split_first() else {
            return Function::of_escape_bytes(None, last);
        };
        let Some(second) = rest.first() else {
            return Function::of_escape_bytes(Some(*first), last);
        };
        match EscapeFunction::of_intermediates(intermediates, last) {
            Some(function) => of_two(function, *second, last),
            None => Function::Other(Unfit::Unnamed),
        }
    }

    /// Returns the request of a C1 control, 80 to 9F (hexadecimal): the same as ESC and the byte 40
    /// less (ECMA-48, 5.3). Any other code has no name.
    pub fn of_c1(code: u8) -> Function<'a>
        ensures { value_of result ≡ of_c1 code }
    {
        if code >= 0x80 && code <= 0x9f {
            Function::of_escape_bytes(None, code - 0x40)
        } else {
            Function::Other(Unfit::Unnamed)
        }
    }
}

// Returns the request of a function with these parameters.
fn of_function(function: ControlFunction, params: &[CsiParam]) -> Function<'_>
    ensures { value_of result ≡ of_named (Some function) params.now }
{
    match kind_of(function) {
        None => Function::Other(Unfit::Untyped),
        Some(Kind::Renditions) => Function::Sgr(Renditions::new(params)),
        Some(Kind::Modes) => {
            Function::Mode(change_of(function), Modes::new(after_prefix(params)))
        }
        Some(Kind::Selectors) => several(function, after_prefix(params)),
        Some(kind) => match arguments(kind, after_prefix(params)) {
            Ok(arguments) => made(function, arguments),
            Err(unfit) => Function::Other(unfit),
        },
    }
}

// Returns the value of one choice, or of several.
fn several(function: ControlFunction, params: &[CsiParam]) -> Function<'_>
    ensures { value_of result ≡ several function params.now (arguments Kind.Selector params.now) }
{
    match arguments(Kind::Selector, params) {
        Ok(arguments) => made(function, arguments),
        Err(Unfit::TooMany) => Function::Tabs(tab_change_of(function), Modes::new(params)),
        Err(unfit) => Function::Other(unfit),
    }
}

// Returns the value of a function with these parameters.
fn made<'a>(function: ControlFunction, arguments: Arguments) -> Function<'a>
    ensures { value_of result ≡ value_with function arguments }
{
    match arguments {
        Arguments::Nothing => bare(function),
        Arguments::Count(n) => counted(function, n),
        Arguments::Place(line, col) => placed(function, line, col),
        Arguments::Margins(first, last) => bounded(function, first, last),
        Arguments::Selector(n) => selected(function, n),
        Arguments::Flags(flags, change) => flagged(function, flags, change),
        Arguments::Report(button, col, line) => reported(function, button, col, line),
        Arguments::Numbers(first, second, third) => listed(function, first, second, third),
    }
}

// Returns the parameters of a rendition that was read alone.
fn known_entries(sgr: Sgr) -> &'static [CsiParam]
    ensures { result.now ≡ known_entries sgr }
{
    match sgr {
        Sgr::Reset => &[CsiParam::Integer(0)],
        Sgr::Intensity(Intensity::Bold) => &[CsiParam::Integer(1)],
        Sgr::Intensity(Intensity::Half) => &[CsiParam::Integer(2)],
        Sgr::Intensity(Intensity::Normal) => &[CsiParam::Integer(22)],
        Sgr::Italic(true) => &[CsiParam::Integer(3)],
        Sgr::Italic(false) => &[CsiParam::Integer(23)],
        Sgr::Underline(Underline::None) => &[CsiParam::Integer(24)],
        Sgr::Underline(Underline::Single) => &[CsiParam::Integer(4)],
        Sgr::Underline(Underline::Double) => &[CsiParam::Integer(21)],
        Sgr::Underline(Underline::Curly) => {
            &[
                CsiParam::Integer(4),
                CsiParam::P(b':'),
                CsiParam::Integer(3),
            ]
        }
        Sgr::Underline(Underline::Dotted) => {
            &[
                CsiParam::Integer(4),
                CsiParam::P(b':'),
                CsiParam::Integer(4),
            ]
        }
        Sgr::Underline(Underline::Dashed) => {
            &[
                CsiParam::Integer(4),
                CsiParam::P(b':'),
                CsiParam::Integer(5),
            ]
        }
    }
}
