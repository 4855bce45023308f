//! This module says how a click moves the cursor in a prompt's input.
ghost use Rattle.std.specs.Prelude.{◌≡◌, MatchResult, Some, None};
ghost use Rattle.esc_values.specs.declared.error.Error.TheVariants.{Invalid};
ghost use Rattle.esc_prompts.specs.Words.{click_of, click_word};

use esc_values::Error;
use std::fmt;

/// The value says which movements of the cursor the shell takes if the user clicks on its input
/// (FinalTerm; key `cl` of operating system command 133).
#[derive(Clone, Copy, Debug, PartialEq, Eq)]
pub enum FinalTermClick {
    /// `line`: to the left and to the right within one line.
    Line,
    /// `m`: to the left and to the right over more lines.
    MultipleLine,
    /// `v`: also up and down, conservatively.
    ConservativeVertical,
    /// `w`: also up and down, smartly: the shell knows where its lines end.
    SmartVertical,
}

/// Returns the value that the word names. The error is `Invalid`, for a word that names none; the
/// text is compared byte by byte.
impl TryFrom<&str> for FinalTermClick {
    type Error = Error;

    ghost try_from_gives = { λ w r. MatchResult r (λ c. click_of w.now ≡ Some c) (λ e. (e ≡ Invalid)
        × (click_of w.now ≡ None)) };

    fn try_from(word: &str) -> Result<FinalTermClick, Error> {
        match word {
            "line" => Ok(FinalTermClick::Line),
            "m" => Ok(FinalTermClick::MultipleLine),
            "v" => Ok(FinalTermClick::ConservativeVertical),
            "w" => Ok(FinalTermClick::SmartVertical),
            _ => Err(Error::Invalid),
        }
    }
}

/// Writes the word. If it returns `Ok`, all of it was written.
impl fmt::Display for FinalTermClick {
    ghost output = { λ c. Some (click_word c) };

    fn fmt<W: fmt::Write>(&self, f: &mut fmt::Formatter<W>) -> fmt::Result {
        match *self {
            FinalTermClick::Line => f.write_str("line"),
            FinalTermClick::MultipleLine => f.write_str("m"),
            FinalTermClick::ConservativeVertical => f.write_str("v"),
            FinalTermClick::SmartVertical => f.write_str("w"),
        }
    }
}
