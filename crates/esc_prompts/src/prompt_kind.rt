//! This module defines the kinds of prompts.
ghost use Rattle.std.specs.Prelude.{◌≡◌, MatchResult, Some, None};
ghost use Rattle.esc_values.specs.declared.error.Error.TheVariants.{Invalid};
ghost use Rattle.esc_prompts.specs.Words.{kind_of, kind_word};
ghost use Rattle.esc_prompts.specs.declared.prompt_kind.FinalTermPromptKind.TheVariants.{Initial};

use esc_values::Error;
use std::fmt;

/// The kind says which prompt begins (FinalTerm; key `k` of operating system command 133).
#[derive(Clone, Copy, Debug, PartialEq, Eq)]
pub enum FinalTermPromptKind {
    /// `i`: the first prompt, at the left. This is the default.
    Initial,
    /// `r`: a prompt at the right side.
    RightSide,
    /// `c`: a prompt of a further line, in which the user can still go back to the lines before.
    Continuation,
    /// `s`: a prompt of a further line, in which the user can no more go back.
    Secondary,
}

/// Returns the first prompt, at the left.
impl Default for FinalTermPromptKind {
    ghost is_default = { λ k. k ≡ Initial };

    fn default() -> Self {
        Self::Initial
    }
}

/// Returns the value that the word names. The error is `Invalid`, for a word that names none; the
/// text is compared byte by byte.
impl TryFrom<&str> for FinalTermPromptKind {
    type Error = Error;

    ghost try_from_gives = { λ w r. MatchResult r (λ k. kind_of w.now ≡ Some k) (λ e. (e ≡ Invalid)
        × (kind_of w.now ≡ None)) };

    fn try_from(word: &str) -> Result<FinalTermPromptKind, Error> {
        match word {
            "i" => Ok(FinalTermPromptKind::Initial),
            "r" => Ok(FinalTermPromptKind::RightSide),
            "c" => Ok(FinalTermPromptKind::Continuation),
            "s" => Ok(FinalTermPromptKind::Secondary),
            _ => Err(Error::Invalid),
        }
    }
}

/// Writes the word. If it returns `Ok`, all of it was written.
impl fmt::Display for FinalTermPromptKind {
    ghost output = { λ k. Some (kind_word k) };

    fn fmt<W: fmt::Write>(&self, f: &mut fmt::Formatter<W>) -> fmt::Result {
        match *self {
            FinalTermPromptKind::Initial => f.write_str("i"),
            FinalTermPromptKind::RightSide => f.write_str("r"),
            FinalTermPromptKind::Continuation => f.write_str("c"),
            FinalTermPromptKind::Secondary => f.write_str("s"),
        }
    }
}
