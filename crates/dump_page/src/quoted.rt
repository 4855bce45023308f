//! This module says how bytes come between quotes. An error is that memory was refused.
ghost use Rattle.std.specs.Prelude.{◌≡◌, ◌≢◌, ◌<◌, ◌∷◌, ◌++◌, [], OnOk, true};
ghost use Rattle.std.specs.Str.Chunks.{utf8_chunk_invalid, utf8_chunk_valid};
ghost use Rattle.std.specs.Char.{digit_value, encode_utf8};
ghost use Rattle.unicode_visibility.specs.Characters.{is_shown};
ghost use Rattle.dump_page.specs.Quoted.{AddsQuote, Quotes, QuotesSome};

use crate::columns::Columns;
use crate::hidden::Hidden;
use crate::plain::is_plain;
use esc_values::Text;
use std::alloc::AllocError;
use std::str::Utf8Chunk;
use unicode_visibility::is_shown;

/// Appends bytes of a stream as they come between quotes: a character that is shown as itself, but
/// `"` as `\"` and `\` as `\\`, and each other byte as `\x` with two hexadecimal digits, also of a
/// character that looks like a space, and of a mark with no character to sit on. So they read as
/// the bytes, and end at the first `"` that is not escaped. Characters that deceive are counted.
/// The error is that memory was refused.
pub fn push_quoted(bytes: &[u8], to: &mut Text, hidden: &mut Hidden) -> Result<(), AllocError>
    ensures { OnOk result (Quotes to.old to.new bytes.now) }
{
    for chunk in bytes.utf8_chunks() {
        push_chunk(chunk, to, hidden)?;
    }
    Ok(())
}

// Appends a chunk in this way.
fn push_chunk(chunk: Utf8Chunk<'_>, to: &mut Text, hidden: &mut Hidden) -> Result<(), AllocError>
    ensures { OnOk result (Quotes to.old to.new
        (utf8_chunk_valid chunk.entry ++ utf8_chunk_invalid chunk.entry)) }
{
    push_text(chunk.valid(), to, hidden)?;
    push_bytes(chunk.invalid(), to)
}

// Appends a text in this way.
fn push_text(text: &str, to: &mut Text, hidden: &mut Hidden) -> Result<(), AllocError>
    ensures { OnOk result (Quotes to.old to.new text.now) }
{
    if is_plain(text.as_bytes()) {
        return to.push_str(text);
    }
    let mut columns = Columns::new();
    for c in text.chars() {
        push_char(c, &mut columns, to, hidden)?;
    }
    Ok(())
}

// Appends a character in this way, which comes next.
fn push_char(
    c: char,
    columns: &mut Columns,
    to: &mut Text,
    hidden: &mut Hidden,
) -> Result<(), AllocError>
    ensures { OnOk result (Quotes to.old to.new (encode_utf8 c)) }
{
    if let Some(_) = columns.of(c) {
        return push_shown(c, to);
    }
    hidden.note(c);
    let mut bytes = [0u8; 4];
    push_bytes(c.encode_utf8(&mut bytes).as_bytes(), to)
}

/// Appends bytes in the way of [`push_quoted`], between quotes.
pub fn push_bytes_between(
    bytes: &[u8],
    to: &mut Text,
    hidden: &mut Hidden,
) -> Result<(), AllocError>
    ensures { OnOk result (AddsQuote to.old to.new) }
{
    to.push('"')?;
    push_quoted(bytes, to, hidden)?;
    to.push('"')
}

/// Appends a text in the way of [`push_string`], between quotes.
pub fn push_string_between(text: &str, to: &mut Text) -> Result<(), AllocError>
    ensures { OnOk result (AddsQuote to.old to.new) }
{
    to.push('"')?;
    push_string(text, to)?;
    to.push('"')
}

/// Appends a quoted text, between quotes.
pub fn push_between(quoted: &str, to: &mut Text) -> Result<(), AllocError>
    ensures { OnOk result (to.new ≡ to.old ++ 0x22 ∷ (quoted.now ++ 0x22 ∷ [])) }
{
    to.push('"')?;
    to.push_str(quoted)?;
    to.push('"')
}

/// Appends a text as a string of JSON (RFC 8259, 7) has it: a character that is not shown is
/// escaped.
pub fn push_string(text: &str, to: &mut Text) -> Result<(), AllocError>
    ensures { OnOk result (QuotesSome to.old to.new) }
{
    let mut is_next = false;
    for part in text.split('\\') {
        push_separator('\\', is_next, to)?;
        push_part(part, to)?;
        is_next = true;
    }
    Ok(())
}

// Appends the separator of parts in this way, before each part but the first.
fn push_separator(separator: char, is_next: bool, to: &mut Text) -> Result<(), AllocError>
    requires shown { is_shown separator ≡ true }
    requires other { separator ≢ 0x78 }
    ensures { OnOk result (QuotesSome to.old to.new) }
{
    if is_next {
        return push_marked(separator, to);
    }
    Ok(())
}

// Appends a part of it in this way, by the `"` in it.
fn push_part(text: &str, to: &mut Text) -> Result<(), AllocError>
    ensures { OnOk result (QuotesSome to.old to.new) }
{
    if is_plain(text.as_bytes()) {
        return to.push_str(text);
    }
    let mut is_next = false;
    for part in text.split('"') {
        push_separator('"', is_next, to)?;
        push_run(part, to)?;
        is_next = true;
    }
    Ok(())
}

// Appends the text between them.
fn push_run(text: &str, to: &mut Text) -> Result<(), AllocError>
    ensures { OnOk result (QuotesSome to.old to.new) }
{
    if is_plain(text.as_bytes()) {
        return to.push_str(text);
    }
    for c in text.chars() {
        push_escaped(c, to)?;
    }
    Ok(())
}

// Appends a character in this way.
fn push_escaped(c: char, to: &mut Text) -> Result<(), AllocError>
    ensures { OnOk result (QuotesSome to.old to.new) }
{
    if is_shown(c) {
        return push_shown(c, to);
    }
    push_units(c, to)
}

// Appends a character as the units that it has in UTF-16.
fn push_units(c: char, to: &mut Text) -> Result<(), AllocError>
    ensures { OnOk result (QuotesSome to.old to.new) }
{
    let mut units = [0u16; 2];
    for unit in c.encode_utf16(&mut units) {
        push_unit(*unit, to)?;
    }
    Ok(())
}

// Appends a unit: `\u` and four hexadecimal digits.
fn push_unit(unit: u16, to: &mut Text) -> Result<(), AllocError>
    ensures { OnOk result (QuotesSome to.old to.new) }
{
    let [high, low] = unit.to_be_bytes();
    push_marked('u', to)?;
    push_digits(high, to)?;
    push_digits(low, to)
}

// Appends two hexadecimal digits.
fn push_digits(byte: u8, to: &mut Text) -> Result<(), AllocError>
    ensures { OnOk result (QuotesSome to.old to.new) }
{
    push_shown(digit(byte / 16), to)?;
    push_shown(digit(byte % 16), to)
}

// Appends a character that is shown.
fn push_shown(c: char, to: &mut Text) -> Result<(), AllocError>
    requires { is_shown c ≡ true }
    ensures { OnOk result (Quotes to.old to.new (encode_utf8 c)) }
{
    if c == '"' {
        return push_marked(c, to);
    }
    if c == '\\' {
        return push_marked(c, to);
    }
    to.push(c)
}

// Appends a character that is shown after a `\`.
fn push_marked(c: char, to: &mut Text) -> Result<(), AllocError>
    requires shown { is_shown c ≡ true }
    requires other { c ≢ 0x78 }
    ensures { OnOk result (Quotes to.old to.new (encode_utf8 c)) }
{
    to.push('\\')?;
    to.push(c)
}

// Appends bytes as their numbers.
fn push_bytes(bytes: &[u8], to: &mut Text) -> Result<(), AllocError>
    ensures { OnOk result (Quotes to.old to.new bytes.now) }
{
    for byte in bytes {
        push_byte(*byte, to)?;
    }
    Ok(())
}

// Appends a byte as its number.
fn push_byte(byte: u8, to: &mut Text) -> Result<(), AllocError>
    ensures { OnOk result (Quotes to.old to.new (byte ∷ [])) }
{
    to.push('\\')?;
    to.push('x')?;
    to.push(digit(byte / 16))?;
    to.push(digit(byte % 16))
}

// Returns the digit of a number below 16.
fn digit(number: u8) -> char
    requires { number < 16 }
    ensures shown { is_shown result ≡ true }
    ensures value { digit_value result ≡ number }
{
    if number < 10 {
        char::from(b'0' + number)
    } else {
        char::from(b'a' + (number - 10))
    }
}
