//! The characters of whole sequences of UTF-8.
#![tactic(auto)]

ghost use Rattle.std.specs.Prelude.{◌≡◌, ◌++◌, ℕ, [], ◌∷◌, true};
ghost use Rattle.esc_frame.specs.Classes.{class_of, is_text};
ghost use Rattle.esc_frame.specs.Machine.Prefixes.{prefix_of};
ghost use Rattle.esc_frame.specs.Sequences.{is_sequence, number_of};

use esc_frame::utf8::sequence::{Outcome, Pending};

// The character in place of bytes that are no character.
const REPLACEMENT: char = '\u{fffd}';

/// Returns the character of the bytes, which are one of 20 to 7F or a well-formed sequence.
pub fn character_of(bytes: &[u8]) -> char
    ensures narrow { (b : ℕ) → is_text (class_of b) ≡ true → bytes.now ≡ b ∷ [] → result ≡ b }
    ensures wide { is_sequence bytes.now ≡ true → result ≡ number_of bytes.now }
{
    if bytes.len() == 1 {
        bytes[0] as char
    } else if bytes.len() == 2 {
        completed(Pending::One(bytes[0]), bytes[1])
    } else if bytes.len() == 3 {
        completed(Pending::Two(bytes[0], bytes[1]), bytes[2])
    } else if bytes.len() == 4 {
        completed(Pending::Three(bytes[0], bytes[1], bytes[2]), bytes[3])
    } else {
        REPLACEMENT
    }
}

// Returns the character of a prefix of a sequence and its last byte.
fn completed(prefix: Pending, last: u8) -> char
    ensures { is_sequence (prefix_of prefix ++ last ∷ []) ≡ true
        → result ≡ number_of (prefix_of prefix ++ last ∷ []) }
{
    match prefix.outcome(last) {
        Outcome::Whole => prefix.character(last),
        Outcome::More | Outcome::Broken => REPLACEMENT,
    }
}
