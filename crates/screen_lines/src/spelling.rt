//! How a character is written.
ghost use Rattle.std.specs.Prelude.{◌≡◌};
ghost use Rattle.screen_lines.specs.Parts.{replacement, is_text, spelling};

use esc_filter::{Unicode, is_deceiving, may_follow};

/// How a character is written.
#[derive(Clone, Copy)]
pub(crate) enum Spelling {
    /// As it is.
    AsItIs,
    /// By its number, as `<U+202E>`.
    ByNumber,
    /// Not at all.
    Absent,
}

impl Spelling {
    /// The spelling of a character after this one, or after none.
    #[inline]
    pub fn of(characters: Unicode, before: Option<char>, c: char) -> Spelling
        ensures { result ≡ spelling characters before c }
    {
        if !is_text(c) {
            Spelling::Absent
        } else if is_deceiving(c) {
            Spelling::instead(characters, before, c)
        } else {
            Spelling::AsItIs
        }
    }

    // The spelling of a character that deceives.
    fn instead(characters: Unicode, before: Option<char>, c: char) -> Spelling
        ensures { result ≡ replacement characters before c }
    {
        match characters {
            Unicode::Keep => Spelling::AsItIs,
            Unicode::Join => {
                if may_follow(before, c) {
                    Spelling::AsItIs
                } else {
                    Spelling::ByNumber
                }
            }
            Unicode::Show => Spelling::ByNumber,
            Unicode::Drop => Spelling::Absent,
        }
    }
}

// Whether a character is no control.
#[inline]
fn is_text(c: char) -> bool
    ensures { result ≡ is_text c }
{
    matches!(c, ' '..='\u{7f}' | '\u{a0}'..) && c != '\u{7f}'
}
