//! The way in which a filter writes actions that hide or reorder text.
ghost use Rattle.std.specs.Prelude.{◌≡◌, IsTrue};
ghost use Rattle.esc_filter.specs.Characters.{keeps_characters, of_unicode};

use crate::returns::Returns;
use crate::unicode::Unicode;

/// The way in which a filter writes actions that pass and hide or reorder text: characters, and
/// carriage returns.
#[derive(Clone, Copy, Debug, PartialEq, Eq)]
pub struct Guard {
    /// The way for characters that hide or reorder text.
    pub characters: Unicode,
    /// The way for carriage returns; by lines, for those that are no part of the end of a line.
    pub returns: Returns,
}

impl Guard {
    /// This way for characters; carriage returns are kept.
    pub fn of_unicode(unicode: Unicode) -> Guard
        ensures { result ≡ of_unicode unicode }
    {
        Guard {
            characters: unicode,
            returns: Returns::Keep,
        }
    }

    /// Returns whether characters are kept.
    #[inline]
    pub(crate) fn keeps_characters(self) -> bool
        ensures { result ≡ keeps_characters self.characters }
    {
        matches!(self.characters, Unicode::Keep)
    }
}
