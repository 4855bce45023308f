//! The text between quotes.
ghost use Rattle.dump_page.specs.Quoted.{IsQuote};

use crate::hidden::Hidden;
use crate::quoted::{push_quoted, push_string};
use esc_values::Text;
use std::alloc::Global;

/// Bytes of a stream as they come between quotes: a character that is shown as itself, but `"` as
/// `\"` and `\` as `\\`, and each other byte as `\x` with two hexadecimal digits. So they read as
/// the bytes. Once memory is refused it is empty, and [`is_refused`](Quote::is_refused) says so.
#[derive(Drop)]
pub struct Quote {
    alloc: Global,
    text: Text,
    hidden: Hidden,
    is_refused: bool,
    ghost reads: { ∥ IsQuote text ∥₁ },
}

impl Quote {
    /// Returns no bytes. Takes no memory.
    #[tactic(auto, using(crate::proofs::Quoting::no_quote))]
    pub fn new(alloc: Global) -> Quote {
        Quote {
            alloc,
            text: Text::new(alloc),
            hidden: Hidden::new(alloc),
            is_refused: false,
        }
    }

    /// Returns the text between the quotes.
    pub fn as_str(&self) -> &str
        ensures { ∥ IsQuote result.now ∥₁ }
    {
        self.text.as_str()
    }

    /// Returns whether memory was refused, and bytes are left out.
    pub fn is_refused(&self) -> bool {
        self.is_refused
    }

    /// Returns which characters that deceive came.
    pub(crate) fn hidden(&self) -> &Hidden {
        &self.hidden
    }

    /// Adds bytes.
    #[tactic(auto, using(crate::proofs::Quoting::no_quote))]
    pub fn add(&mut self, bytes: &[u8]) {
        if self.is_refused {
            return;
        }
        match push_quoted(bytes, &mut self.text, &mut self.hidden) {
            Ok(()) => {}
            Err(_) => {
                self.text = Text::new(self.alloc);
                self.is_refused = true;
            }
        }
    }

    /// Adds a character.
    pub fn add_char(&mut self, c: char) {
        let mut bytes = [0u8; 4];
        self.add(c.encode_utf8(&mut bytes).as_bytes());
    }

    /// Adds words as the characters of a string of JSON (RFC 8259, 7): `"` and `\` after a `\`, and
    /// characters that are not shown by their numbers.
    #[tactic(auto, using(crate::proofs::Quoting::no_quote))]
    pub(crate) fn add_string(&mut self, words: &str) {
        if self.is_refused {
            return;
        }
        match push_string(words, &mut self.text) {
            Ok(()) => {}
            Err(_) => {
                self.text = Text::new(self.alloc);
                self.is_refused = true;
            }
        }
    }
}
