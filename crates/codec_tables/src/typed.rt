//! Control functions, and their typed values.
use crate::codecs::emitted;
use crate::words::both;
use control_functions::{C0, ControlFunction, EscapeFunction};
use std::alloc::{AllocError, Global};
use typed_functions::{CsiParam, Function, Modes, Rendition, Renditions, Unfit};

/// Returns the request of a sequence or a control: the Debug text and the text of its typed value;
/// after `Sgr:` those of each rendition, and for one that is not known `?` and its entries; after
/// the operation on modes or tab stops the number of each, or `?`. Without a typed value the reason
/// is there, and the name of its function if it has one.
///
/// - `csi`: a control sequence of the bytes after `ESC [`.
/// - `esc`: an escape sequence of the bytes after `ESC`.
/// - `c1`: a control of C1.
/// - `c0`: the name of a control of C0.
pub fn function(call: &str, alloc: Global, text: &[u8]) -> Result<String, AllocError> {
    match call {
        "csi" => control_sequence(alloc, text),
        "esc" => escape_sequence(alloc, text),
        "c1" => control(alloc, code_of(text)),
        _ => String::from_str(alloc, control_name(C0::of(code_of(text)))),
    }
}

fn control_sequence(alloc: Global, text: &[u8]) -> Result<String, AllocError> {
    let mut params = Vec::new(alloc);
    match read_params(&mut params, text) {
        Ok(last) => of_params(alloc, &params, last),
        Err(error) => Err(error),
    }
}

fn of_params(alloc: Global, params: &[CsiParam], last: u8) -> Result<String, AllocError> {
    let name = match ControlFunction::of_csi_params(params, last) {
        Some(function) => function.name(),
        None => "",
    };
    shown(alloc, Function::of_params(params, last), name)
}

// Appends the parameters of a control sequence, and returns its final byte.
fn read_params(params: &mut Vec<CsiParam>, text: &[u8]) -> Result<u8, AllocError> {
    let (last, before) = text.split_last().unwrap_or((&0, b""));
    for byte in before {
        let param = param_of(params, *byte);
        params.push(param)?;
    }
    Ok(*last)
}

// Returns the parameter of this byte: a digit goes on with the number that is last, which it takes
// away.
fn param_of(params: &mut Vec<CsiParam>, byte: u8) -> CsiParam {
    if !byte.is_ascii_digit() {
        return CsiParam::P(byte);
    }
    let digit = i64::from(byte.saturating_sub(b'0'));
    match params.last() {
        Some(CsiParam::Integer(number)) => {
            let number = number.saturating_mul(10).saturating_add(digit);
            let _before = params.pop();
            CsiParam::Integer(number)
        }
        _ => CsiParam::Integer(digit),
    }
}

// Returns an escape sequence of these bytes after ESC: intermediates and the final byte.
fn escape_sequence(alloc: Global, bytes: &[u8]) -> Result<String, AllocError> {
    let (last, intermediates) = bytes.split_last().unwrap_or((&0, b""));
    let name = escape_name(EscapeFunction::of_intermediates(intermediates, *last));
    shown(
        alloc,
        Function::of_intermediates(intermediates, *last),
        name,
    )
}

fn control(alloc: Global, code: u8) -> Result<String, AllocError> {
    let name = escape_name(EscapeFunction::of_c1(code));
    shown(alloc, Function::of_c1(code), name)
}

// Returns the code of a control: the only byte of these.
fn code_of(bytes: &[u8]) -> u8 {
    match bytes {
        [code] => *code,
        _ => 0,
    }
}

// Returns the name of a C0 control.
fn control_name(control: Option<C0>) -> &'static str {
    match control {
        Some(control) => control.name(),
        None => "none",
    }
}

// Returns its name; none if there is none.
fn escape_name(function: Option<EscapeFunction>) -> &'static str {
    match function {
        Some(function) => function.name(),
        None => "",
    }
}

// Returns the text of a value, of the function of this name.
fn shown(alloc: Global, function: Function<'_>, name: &str) -> Result<String, AllocError> {
    match function {
        Function::Cursor(cursor) => both(alloc, cursor),
        Function::Edit(edit) => both(alloc, edit),
        Function::Device(device) => both(alloc, device),
        Function::Keyboard(keyboard) => both(alloc, keyboard),
        Function::Mouse(mouse) => both(alloc, mouse),
        Function::Window(window) => both(alloc, window),
        Function::ModeStatus(status) => both(alloc, status),
        Function::Charset(charset) => both(alloc, charset),
        Function::Escape(escape) => both(alloc, escape),
        Function::Mode(change, modes) => changed(emitted(alloc, change), modes),
        Function::Tabs(change, choices) => changed(emitted(alloc, change), choices),
        Function::Sgr(renditions) => listed(alloc, renditions),
        Function::Other(Unfit::Untyped) => format!(in alloc; "Untyped {name}"),
        Function::Other(unfit) => emitted(alloc, unfit),
    }
}

fn listed(alloc: Global, renditions: Renditions<'_>) -> Result<String, AllocError> {
    let mut text = String::from_str(alloc, "Sgr:")?;
    match add_renditions(&mut text, renditions) {
        Ok(()) => Ok(text),
        Err(error) => Err(error),
    }
}

fn add_renditions(text: &mut String, renditions: Renditions<'_>) -> Result<(), AllocError> {
    for item in renditions {
        match item.rendition {
            Some(rendition) => add_rendition(text, rendition)?,
            None => add_entries(text, item.entries)?,
        }
        text.push(';')?;
    }
    Ok(())
}

fn add_rendition(text: &mut String, rendition: Rendition) -> Result<(), AllocError> {
    write!(text, " {rendition:?} {rendition}")
}

// Appends entries as they came.
fn add_entries(text: &mut String, entries: &[CsiParam]) -> Result<(), AllocError> {
    text.push_str(" ? ")?;
    for entry in entries {
        match entry {
            CsiParam::Integer(number) => write!(text, "{number}")?,
            CsiParam::P(byte) => text.push(char::from(*byte))?,
        }
    }
    Ok(())
}

// Returns the text of modes, or of several tab stops, after that of the operation on them.
fn changed(change: Result<String, AllocError>, modes: Modes<'_>) -> Result<String, AllocError> {
    let mut text = change?;
    match add_modes(&mut text, modes) {
        Ok(()) => Ok(text),
        Err(error) => Err(error),
    }
}

fn add_modes(text: &mut String, modes: Modes<'_>) -> Result<(), AllocError> {
    text.push(':')?;
    for item in modes {
        match item.number {
            Some(number) => write!(text, " {number};")?,
            None => text.push_str(" ?;")?,
        }
    }
    Ok(())
}
