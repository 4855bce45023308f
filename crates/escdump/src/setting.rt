//! A setting that a terminal reports.

use crate::csi_words::add_sequence;
use crate::fields::add_label;
use control_functions::ControlFunction;
use dump_page::Phrase;
use esc_values::CsiParam;
use std::alloc::{AllocError, Global};

// Says how many numbers and other entries the parameters may have.
const MOST: usize = 256;

/// Adds a setting in words: it is reported as the control sequence that sets it, without its opener
/// (the VT510's manual, DECRPSS). Any other text, also of a sequence without a name, is quoted.
pub fn add_setting(label: &'static str, text: &[u8], to: &mut Phrase) {
    let Some((first, last)) = halves_of(text) else {
        add_label(label, to);
        return to.add_quoted(" ", text);
    };
    match params_of(first, to.alloc()) {
        Ok(Some(params)) if ControlFunction::of_csi_params(&params, last).is_some() => {
            add_sequence(&params, false, last, to);
        }
        Ok(_) => {
            add_label(label, to);
            to.add_quoted(" ", text);
        }
        Err(_) => to.refuse(),
    }
}

// Returns the bytes before the final byte of a control sequence, and that byte.
fn halves_of(text: &[u8]) -> Option<(&[u8], u8)> {
    match text {
        [first @ .., last @ 0x40..=0x7e] => Some((first, *last)),
        _ => None,
    }
}

// Returns the entries of these bytes, if they are the parameters and the intermediates of a control
// sequence. The error is that memory was refused.
fn params_of(text: &[u8], alloc: Global) -> Result<Option<Vec<CsiParam>>, AllocError> {
    let mut params = Vec::new(alloc);
    match push_params(text, &mut params) {
        Ok(true) => Ok(Some(params)),
        Ok(false) => Ok(None),
        Err(error) => Err(error),
    }
}

// Adds the entries of these bytes in this way, and returns whether they are such.
fn push_params(text: &[u8], params: &mut Vec<CsiParam>) -> Result<bool, AllocError> {
    let mut number: Option<i64> = None;
    let mut has_marks = false;
    for at in 0..text.len() {
        let byte = text[at];
        if byte.is_ascii_digit() && !has_marks {
            number = Some(with_digit(number, byte));
            continue;
        }
        let is_mark = match byte {
            0x20..=0x2f => true,
            0x3a..=0x3b => false,
            0x3c..=0x3f if at == 0 => false,
            _ => return Ok(false),
        };
        if params.len() >= MOST || has_marks && !is_mark {
            return Ok(false);
        }
        has_marks = is_mark;
        push_number(number, params)?;
        number = None;
        params.push(CsiParam::P(byte))?;
    }
    push_number(number, params)?;
    Ok(true)
}

// Returns a number with one digit more.
fn with_digit(number: Option<i64>, digit: u8) -> i64 {
    number
        .unwrap_or(0)
        .saturating_mul(10)
        .saturating_add(i64::from(digit.saturating_sub(b'0')))
}

// Adds a number, if there is one.
fn push_number(number: Option<i64>, params: &mut Vec<CsiParam>) -> Result<(), AllocError> {
    match number {
        Some(number) => Ok(params.push(CsiParam::Integer(number))?),
        None => Ok(()),
    }
}
