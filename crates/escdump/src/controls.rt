//! Controls in words.

use control_functions::{C0, EscapeFunction};
use dump_page::Phrase;

/// A C0 control, and how often it came.
#[derive(Clone, Copy)]
pub struct Count {
    /// The control.
    pub code: u8,
    /// Says how often it came.
    pub times: u64,
}

/// Adds the C0 controls that came inside a sequence by their names, in the order of their codes:
/// each once, with how often it came.
pub fn add_controls(counts: &[Count], to: &mut Phrase) {
    for code in 0..32_u8 {
        for count in counts {
            if count.code == code {
                add_c0(code, to);
                to.add_times(count.times);
            }
        }
    }
}

/// Returns the bytes and the words of the commonest controls, as a line without colours has them
/// after the place; nothing of any other.
pub fn known_columns(bytes: &[u8]) -> &'static str {
    let [code] = bytes else {
        return "";
    };
    match *code {
        b'\n' => "\\x0a                    control LF line feed",
        b'\r' => "\\x0d                    control CR carriage return",
        0x08 => "\\x08                    control BS backspace",
        b'\t' => "\\x09                    control HT tab",
        0x07 => "\\x07                    control BEL bell",
        _ => "",
    }
}

// Adds the C0 control of this code.
fn add_c0(code: u8, to: &mut Phrase) {
    if let Some(control) = C0::of(code) {
        to.begin("control", control.name(), control.words());
    }
}

/// Adds a control of these bytes by its name, if it has one: of C0, or of C1 as one byte or two.
pub fn add_control(bytes: &[u8], to: &mut Phrase) {
    match bytes {
        [.., code] if *code < 0x20 => add_c0(*code, to),
        [.., code] => add_c1(*code, to),
        [] => to.begin("control", "", ""),
    }
}

// Adds a C1 control, 80 to 9F (hexadecimal).
fn add_c1(code: u8, to: &mut Phrase) {
    let (name, words) = c1_words(code);
    to.begin("control", name, words);
}

// Returns the name and the words of a C1 control. Those that no edition of ECMA-48 has come from a
// draft of ISO/IEC 10646 (RFC 1345).
fn c1_words(code: u8) -> (&'static str, &'static str) {
    match code {
        0x80 => ("PAD", "padding character"),
        0x81 => ("HOP", "high octet preset"),
        0x99 => ("SGC", "single graphic character introducer"),
        _ => match EscapeFunction::of_c1(code) {
            Some(function) => (function.name(), function.words()),
            None => ("", "without a name"),
        },
    }
}
