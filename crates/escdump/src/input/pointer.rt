//! Reports of the mouse.

use crate::input::found::Found;
use crate::input::sent::{Pointer, Sent};
use crate::input::sequences::number_in;

/// Returns the report of X10 and of mode 1000, after `ESC [ M`: three bytes that are 32 more. They
/// are counted with the `M`. Without them it is a key of cons25.
pub fn bytes_report(bytes: &[u8], is_last: bool) -> Found {
    match bytes {
        [
            bits @ 0x20..=0xff,
            column @ 0x20..=0xff,
            line @ 0x20..=0xff,
            ..
        ] => { Found::Input(4, Sent::Mouse(pointer_of(*bits, *column, *line))) }
        [] | [_] | [_, _] if !is_last => Found::More,
        [] => Found::Input(1, Sent::Key("F1 (cons25)", 0)),
        _ => Found::Other,
    }
}

// Returns the report of these bytes. It does not say which button is released.
fn pointer_of(bits: u8, column: u8, line: u8) -> Pointer {
    Pointer {
        bits: u64::from(bits.saturating_sub(32)),
        is_released: false,
        column: u64::from(column.saturating_sub(32)),
        line: u64::from(line.saturating_sub(32)),
    }
}

/// Returns the report of mode 1006 or 1016: three numbers after `ESC [ <`.
pub fn sgr_report(numbers: &[u8], is_released: bool) -> Option<Sent> {
    let (bits, column, line) = three_in(numbers)?;
    Some(Sent::Mouse(Pointer {
        bits,
        is_released,
        column,
        line,
    }))
}

/// Returns the report of mode 1015: three numbers; the first is 32 more than its bits.
pub fn numbers_report(numbers: &[u8]) -> Option<Sent> {
    match three_in(numbers) {
        Some((bits, column, line)) if bits >= 32 => Some(Sent::Mouse(Pointer {
            bits: bits.saturating_sub(32),
            is_released: false,
            column,
            line,
        })),
        _ => None,
    }
}

// Returns three numbers with `;` between them.
fn three_in(text: &[u8]) -> Option<(u64, u64, u64)> {
    let (first, rest) = number_in(text)?;
    let (second, rest) = number_in(rest.strip_prefix(b";")?)?;
    let (third, rest) = number_in(rest.strip_prefix(b";")?)?;
    if rest.is_empty() {
        Some((first, second, third))
    } else {
        None
    }
}
