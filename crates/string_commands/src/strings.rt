//! The rows of strings as a stream has them.
ghost use Rattle.std.specs.Prelude.{◌≡◌, ◌<◌, ◌+◌, ◌*◌, ◌^◌};
ghost use Rattle.string_commands.specs.Rows.{Finds};
ghost use Rattle.string_commands.specs.Strings.{after_mark, device_key, number_if, number_in, place_of_application, place_of_command, place_of_device, put_mark};

use crate::lookup::find;
use crate::row::Row;
use crate::string_kind::StringKind;

// The greatest number before a digit.
const MOST: u32 = 99_999_999;

/// Returns the row of the operating system command of this text, which lies between `ESC ]` and its
/// end. It begins with a number, of at most 999,999,999, or with a letter.
pub fn command(text: &[u8]) -> Option<Row>
    ensures { Finds (place_of_command text.now) result }
{
    match number_in(text) {
        Some(number) => find(StringKind::Osc, number, &[], after_mark(text)),
        None => match text {
            [letter, rest @ ..] => find(StringKind::Letter, u32::from(*letter), &[], rest),
            [] => None,
        },
    }
}

/// Returns the row of the device control string with this private prefix, this intermediate, this
/// final byte, these parameters and these data, whose beginning is enough.
pub fn device(marks: (Option<u8>, Option<u8>), last: u8, params: &[i64], data: &[u8]) -> Option<Row>
    ensures { Finds (place_of_device marks.0 marks.1 last params.now data.now) result }
{
    find(StringKind::Dcs, device_key(marks, last), params, data)
}

/// Returns the row of the application program command of this text, which lies between `ESC _` and
/// its end.
pub fn application(text: &[u8]) -> Option<Row>
    ensures { Finds (place_of_application text.now) result }
{
    match text {
        [first, rest @ ..] => find(StringKind::Apc, u32::from(*first), &[], rest),
        [] => None,
    }
}

// Returns the number that a text begins with, up to a `;` or its end.
fn number_in(text: &[u8]) -> Option<u32>
    ensures { result ≡ number_in text.now }
{
    let mut number: u32 = 0;
    let mut has_digit = false;
    for at in 0..text.len() {
        let byte = text[at];
        if byte == b';' {
            return given(has_digit, number);
        }
        if byte < b'0' || byte > b'9' {
            return None;
        }
        if number > MOST {
            return None;
        }
        number = 10 * number + u32::from(byte - b'0');
        has_digit = true;
    }
    given(has_digit, number)
}

// Returns a number, if there is one.
fn given(has_digit: bool, number: u32) -> Option<u32>
    ensures { result ≡ number_if has_digit number }
{
    if has_digit { Some(number) } else { None }
}

// Returns the rest of a text after the first `;`.
fn after_mark(text: &[u8]) -> &[u8]
    ensures { result.now ≡ after_mark text.now }
{
    for at in 0..text.len() {
        if text[at] == b';' {
            return &text[at + 1..];
        }
    }
    &[]
}

// Returns the key of a device control string.
fn device_key(marks: (Option<u8>, Option<u8>), last: u8) -> u32
    ensures { result ≡ device_key marks.0 marks.1 last }
{
    let (prefix, intermediate) = marks;
    let packed = put_mark(put_mark(1, prefix), intermediate);
    256 * packed + u32::from(last)
}

// Returns a number with a byte more, as a digit to the base 256.
fn put_mark(number: u32, mark: Option<u8>) -> u32
    requires { number < 2 ^ 16 }
    ensures packed { result ≡ put_mark number mark }
    ensures below { result < 256 * number + 256 }
{
    match mark {
        Some(byte) => 256 * number + u32::from(byte),
        None => number,
    }
}
