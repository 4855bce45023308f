//! Characters by their numbers.
ghost use Rattle.std.specs.Prelude.{◌≡◌, ◌∷◌, ◌++◌, ◌≤◌, ◌<◌, ◌+◌, [], length, true};
ghost use Rattle.std.specs.Fmt.{digit_glyph};
ghost use Rattle.unicode_visibility.specs.Characters.{four_digits, leading, number_text};

use arrayvec::ArrayString;

/// Returns the text of a character's number, as `<U+202E>`: in hexadecimal, upper case, with at
/// least four digits.
pub fn number_text(c: char) -> ArrayString<10>
    ensures { result.bytes ≡ number_text c }
{
    let number = c as u32;
    let mut text = ArrayString::new();
    text.push_str("<U+");
    push_leading(&mut text, number);
    push_four(&mut text, number);
    text.push('>');
    text
}

// Appends the digits before the last four, without zeros before them.
fn push_leading(text: &mut ArrayString<10>, number: u32)
    requires char { number < 0x110000 }
    requires room { length text.old.bytes + 2 ≤ 10 }
    ensures { text.new.bytes ≡ text.old.bytes ++ leading number }
{
    if number >= 0x100000 {
        push_digit(text, number / 0x100000 % 16);
    }
    if number >= 0x10000 {
        push_digit(text, number / 0x10000 % 16);
    }
}

// Appends the last four digits.
fn push_four(text: &mut ArrayString<10>, number: u32)
    requires { length text.old.bytes + 4 ≤ 10 }
    ensures { text.new.bytes ≡ text.old.bytes ++ four_digits number }
{
    push_digit(text, number / 0x1000 % 16);
    push_digit(text, number / 0x100 % 16);
    push_digit(text, number / 0x10 % 16);
    push_digit(text, number % 16);
}

// Appends a digit.
fn push_digit(text: &mut ArrayString<10>, digit: u32)
    requires value { digit < 16 }
    requires room { length text.old.bytes + 1 ≤ 10 }
    ensures { text.new.bytes ≡ text.old.bytes ++ digit_glyph true digit ∷ [] }
{
    text.push(hex_digit(digit as u8) as char);
}

/// Returns the hexadecimal digit of a number below 16, in upper case.
#[inline]
pub fn hex_digit(value: u8) -> u8
    requires { value < 16 }
    ensures { result ≡ digit_glyph true value }
{
    if value < 10 { 48 + value } else { 55 + value }
}
