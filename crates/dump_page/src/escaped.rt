//! Bytes of a stream as words have them: those that are not shown as their numbers.
ghost use Rattle.std.specs.Prelude.{◌≡◌, IfSome, true};
ghost use Rattle.unicode_visibility.specs.Characters.{is_shown};

use crate::columns::Columns;
use crate::phrase::Phrase;
use crate::plain::{digit_byte, plain_run, plain_text, word_text};

impl Phrase {
    /// Adds the first bytes, as far as there are fewer columns than this, and `..` if these are not
    /// all: a character that is shown as itself, but `\` as `\\`, and each other byte, and `"`, as
    /// `\x` with two hexadecimal digits.
    pub fn add_bytes(&mut self, bytes: &[u8], room: usize) {
        let end = self.columns().saturating_add(room);
        let is_whole = match bytes {
            [first @ 0x00..=0x1f, rest @ ..] => {
                self.add_byte(*first);
                self.add_before(rest, end)
            }
            _ => self.add_before(bytes, end),
        };
        if !is_whole {
            self.add("..");
        }
    }

    // Adds the first bytes in this way, before this column, and returns whether they are all.
    fn add_before(&mut self, bytes: &[u8], end: usize) -> bool {
        let most = end.saturating_sub(self.columns()).min(bytes.len());
        let (first, rest) = bytes.split_at(most);
        if let Some(text) = plain_text(first) {
            self.push_plain(text);
            return rest.is_empty();
        }
        if first.is_ascii() {
            return self.add_ascii(first, end) && rest.is_empty();
        }
        for chunk in bytes.utf8_chunks() {
            let is_whole = self.add_text(chunk.valid(), end);
            if !is_whole || !self.add_invalid(chunk.invalid(), end) {
                return false;
            }
        }
        true
    }

    // Adds the first of these bytes, which are ASCII, in this way, and returns whether they are
    // all.
    fn add_ascii(&mut self, bytes: &[u8], end: usize) -> bool {
        let mut rest = bytes;
        for _ in 0..u64::MAX {
            let most = end.saturating_sub(self.columns()).min(rest.len());
            if most == 0 {
                break;
            }
            let count = plain_run(&rest[..most]);
            let (plain, after) = rest.split_at(count.min(rest.len()));
            if let Some(text) = plain_text(plain) {
                self.push_plain(text);
            }
            rest = match after {
                [byte, more @ ..] if count < most => {
                    self.add_special(*byte);
                    more
                }
                _ => after,
            };
        }
        rest.is_empty()
    }

    // Adds a byte of ASCII that is not written as it is.
    fn add_special(&mut self, byte: u8) {
        if byte == b'\\' {
            self.add("\\\\");
        } else {
            self.add_byte(byte);
        }
    }

    // Adds the first characters in this way, and returns whether they are all.
    fn add_text(&mut self, text: &str, end: usize) -> bool {
        let mut columns = Columns::new();
        for c in text.chars() {
            let width = columns.of(c);
            if self.columns() >= end && width != Some(0) {
                return false;
            }
            self.add_as(c, width);
        }
        true
    }

    // Adds the first bytes that are no part of a character, and returns whether they are all.
    fn add_invalid(&mut self, bytes: &[u8], end: usize) -> bool {
        for byte in bytes {
            if self.columns() >= end {
                return false;
            }
            self.add_byte(*byte);
        }
        true
    }

    /// Adds a character in this way.
    pub fn add_char(&mut self, c: char) {
        let width = Columns::new().of(c);
        self.add_as(c, width);
    }

    // Adds a character in this way, which takes so many columns if it is shown as itself.
    fn add_as(&mut self, c: char, width: Option<usize>)
        requires { IfSome width (λ _. is_shown c ≡ true) }
    {
        match width {
            Some(_) if c == '\\' => self.add("\\\\"),
            Some(width) if c != '"' => self.push_word(c, width),
            _ => self.add_hidden(c),
        }
    }

    // Adds a character that is not shown, or a `"`, byte by byte.
    fn add_hidden(&mut self, c: char) {
        self.note_hidden(c);
        let mut bytes = [0u8; 4];
        for byte in c.encode_utf8(&mut bytes).as_bytes() {
            self.add_byte(*byte);
        }
    }

    // Adds a byte as its number.
    fn add_byte(&mut self, byte: u8) {
        let [high, low] = [digit_byte(byte / 16, b'a'), digit_byte(byte % 16, b'a')];
        if let Some(text) = word_text(&[b'\\', b'x', high, low]) {
            self.push_ascii(text);
        }
    }
}
