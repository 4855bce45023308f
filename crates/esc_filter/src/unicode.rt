//! The way in which a filter writes characters that deceive.
ghost use Rattle.std.specs.Prelude.{◌≡◌, IsTrue, true};
ghost use Rattle.unicode_visibility.specs.Characters.{is_deceiving};

use unicode_visibility::is_deceiving;

/// The way in which a filter writes a character that hides or reorders text ([`is_deceiving`]), if
/// the character passes.
#[derive(Clone, Copy, Debug, PartialEq, Eq)]
pub enum Unicode {
    /// The character itself.
    Keep,
    /// The character itself if it may follow the character that was written before it
    /// ([`may_follow`](unicode_visibility::may_follow)), as variation selectors and joiners in
    /// emoji and within words do, or, if none was written, is a byte order mark; and otherwise its
    /// number, as by `Show`.
    Join,
    /// Its number, as `<U+202E>`: in hexadecimal, upper case, with at least four digits.
    Show,
    /// Nothing.
    Drop,
}

impl Unicode {
    /// Returns whether nothing is written of the character.
    #[inline]
    pub(crate) fn drops(self, c: char) -> bool
        ensures { IsTrue result → (self ≡ Unicode.Drop) × (is_deceiving c ≡ true) }
    {
        if let Unicode::Drop = self {
            return is_deceiving(c);
        }
        false
    }
}
