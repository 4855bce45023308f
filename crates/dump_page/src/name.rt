//! Names of segments.

use crate::phrase::Phrase;

/// The kind of a segment, by name: its kind, as `CSI`; its own name, as `CUP`, which may be empty;
/// and a key that tells it apart if no table has it.
#[derive(Clone, Copy, PartialEq, Eq)]
pub struct Name(pub &'static str, pub &'static str, pub Key);

/// The key that tells segments without a name of their own apart.
#[derive(Clone, Copy, PartialEq, Eq)]
pub enum Key {
    /// Nothing more.
    Nothing,
    /// A number, as that of an operating system command.
    Number(u64),
    /// Some bytes, as the intermediates and the final byte of a device control string; 0 is none.
    Bytes([u8; 3]),
}

impl Name {
    /// Adds it to words.
    pub(crate) fn add_to(self, words: &mut Phrase) {
        let Name(kind, word, key) = self;
        words.add(kind);
        words.add_word(word);
        match key {
            Key::Nothing => {}
            Key::Number(number) => {
                words.add(" ");
                words.add_digits(number);
            }
            Key::Bytes(bytes) => {
                words.add(" ");
                for byte in bytes {
                    if byte != 0 {
                        words.add_char(char::from(byte));
                    }
                }
            }
        }
    }
}
