//! Words and numbers.
use crate::calls::text;
use crate::codecs::emitted;
use esc_device::{DeviceControlMode, StringKind};
use esc_iterm::dimension::ITermDimension;
use esc_iterm::tenths::read_tenths;
use esc_osc_values::OperatingSystemCommandCode;
use esc_prompts::{FinalTermClick, FinalTermPromptKind};
use esc_values::cut::{cut, key_and_value};
use esc_values::scalar::{read_i32, read_i64, read_u8, read_u32, read_usize};
use std::alloc::{AllocError, Global};
use std::fmt::{Debug, Display};

/// Returns the result of a call that takes no memory.
///
/// - `dimension`, `click` and `prompt`: the Debug text and the text of the value that a word is
///   read as.
/// - `tenths`: a number in tenths.
/// - `numbers`: a number as a `u8`, `u32` and `usize`, and as an `i32` and `i64`.
/// - `cut`: the texts on either side of the first `=`, as bytes, and as texts.
/// - `code`: the code of a command, and its text.
/// - `pixels`: the pixels of a dimension, if a cell has a size and the window so many cells.
/// - `header`: the string that a header with this final byte and these intermediates opens; `more`
///   after them says that there were others.
/// - `data`: the Debug text and the text of a byte of data for a mode, or of its end.
pub fn word(call: &str, alloc: Global, input: &[u8]) -> Result<String, AllocError> {
    match call {
        "dimension" => read(alloc, text(input).parse::<ITermDimension>()),
        "click" => read(alloc, FinalTermClick::try_from(text(input))),
        "prompt" => read(alloc, FinalTermPromptKind::try_from(text(input))),
        "tenths" => emitted(alloc, read_tenths(input)),
        "numbers" => numbers(alloc, input),
        "cut" => cuts(alloc, input),
        "code" => code(alloc, text(input)),
        "pixels" => pixels(alloc, text(input)),
        "header" => emitted(alloc, header(input)),
        "data" => both(alloc, data(input)),
        _ => String::from_str(alloc, "there is no such call"),
    }
}

/// Returns the Debug text and the text of a value.
pub fn both<T: Debug + Display + Drop>(alloc: Global, value: T) -> Result<String, AllocError> {
    format!(in alloc; "{value:?} {value}")
}

// Does the same for the value that was read, or the Debug text of the error.
fn read<T: Debug + Display + Drop, E: Debug + Drop>(
    alloc: Global,
    read: Result<T, E>,
) -> Result<String, AllocError> {
    match read {
        Ok(value) => both(alloc, value),
        Err(error) => emitted(alloc, error),
    }
}

fn numbers(alloc: Global, text: &[u8]) -> Result<String, AllocError> {
    let natural = (read_u8(text), read_u32(text), read_usize(text));
    let signed = (read_i32(text), read_i64(text));
    format!(in alloc; "{natural:?} {signed:?}")
}

fn cuts(alloc: Global, text: &[u8]) -> Result<String, AllocError> {
    let parts = cut(text, b'=');
    let texts = key_and_value(text);
    format!(in alloc; "{parts:?} {texts:?}")
}

fn code(alloc: Global, text: &str) -> Result<String, AllocError> {
    match OperatingSystemCommandCode::from_code(text) {
        Some(code) => format!(in alloc; "{code:?} {}", code.as_code()),
        None => String::from_str(alloc, "None"),
    }
}

// Returns the pixels of `DIMENSION SIZE CELLS`.
fn pixels(alloc: Global, text: &str) -> Result<String, AllocError> {
    let (dimension, sizes) = text.split_once(' ').unwrap_or((text, ""));
    let (size, cells) = sizes.split_once(' ').unwrap_or((sizes, ""));
    let size = read_usize(size.as_bytes()).unwrap_or(0);
    let cells = read_usize(cells.as_bytes()).unwrap_or(0);
    match dimension.parse::<ITermDimension>() {
        Ok(dimension) if dimension.fits_pixels(size, cells) => {
            emitted(alloc, dimension.to_pixels(size, cells))
        }
        Ok(_) => String::from_str(alloc, "too large"),
        Err(_) => String::from_str(alloc, "no dimension"),
    }
}

fn header(text: &[u8]) -> StringKind {
    match text {
        [byte, rest @ ..] => match rest.strip_suffix(b" more".as_slice()) {
            Some(intermediates) => StringKind::of_header(*byte, intermediates, true),
            None => StringKind::of_header(*byte, rest, false),
        },
        [] => StringKind::Other,
    }
}

fn data(bytes: &[u8]) -> DeviceControlMode<Global> {
    match bytes {
        [byte, ..] => DeviceControlMode::Data(*byte),
        [] => DeviceControlMode::Exit,
    }
}
