//! The entries of a control sequence, and their text.
ghost use Rattle.std.specs.Prelude.{◌≡◌, Some, None, IfSome, IfNone};
ghost use Rattle.std.specs.Fmt.{DisplaysOnOk};
ghost use Rattle.esc_values.specs.Params.{csi_params_text, param_text};
ghost use Rattle.typed_functions.specs.Renditions.{byte_after, byte_of, is_byte};

use esc_values::CsiParam;
use esc_values::number::write_number;
use std::fmt;

// Returns a number of at most 255.
#[inline]
pub(crate) fn byte_of(entry: CsiParam) -> Option<u8>
    ensures { result ≡ byte_of entry }
{
    match entry {
        CsiParam::Integer(number) => match u8::try_from(number) {
            Ok(byte) => Some(byte),
            Err(_) => None,
        },
        CsiParam::P(_) => None,
    }
}

// Returns whether it is this byte.
#[inline]
pub(crate) fn is_byte(byte: u8, entry: CsiParam) -> bool
    ensures { result ≡ is_byte byte entry }
{
    match entry {
        CsiParam::Integer(_) => false,
        CsiParam::P(it) => it == byte,
    }
}

// Returns the number after a separator, at most 255, and the rest.
pub(crate) fn byte_after(separator: u8, entries: &[CsiParam]) -> Option<(u8, &[CsiParam])>
    ensures some { IfSome result (λ p. byte_after separator entries.now ≡ Some (p.0, p.1.now)) }
    ensures none { IfNone result (byte_after separator entries.now ≡ None) }
{
    let Some((mark, rest)) = entries.split_first() else {
        return None;
    };
    let Some((entry, rest)) = rest.split_first() else {
        return None;
    };
    if !is_byte(separator, *mark) {
        return None;
    }
    match byte_of(*entry) {
        Some(byte) => Some((byte, rest)),
        None => None,
    }
}

// Writes entries, each as its decimal number or its character.
pub(crate) fn write_entries<W: fmt::Write>(
    entries: &[CsiParam],
    f: &mut fmt::Formatter<W>,
) -> fmt::Result
    ensures { DisplaysOnOk W.write_str_gives f.old result
        (Some (csi_params_text entries.now)) f.new }
{
    for entry in entries {
        write_entry(*entry, f)?;
    }
    Ok(())
}

// Writes an entry.
fn write_entry<W: fmt::Write>(entry: CsiParam, f: &mut fmt::Formatter<W>) -> fmt::Result
    ensures { DisplaysOnOk W.write_str_gives f.old result (Some (param_text entry)) f.new }
{
    match entry {
        CsiParam::Integer(number) => write_number(number, f),
        CsiParam::P(byte) => f.write_char(char::from(byte)),
    }
}
