//! Texts that hold only characters that a terminal shows as themselves.
ghost use Rattle.std.specs.Prelude.{◌≡◌, ◌↔◌, IsTrue};
ghost use Rattle.std.specs.List.{list_all};
ghost use Rattle.std.specs.Str.{chars};
ghost use Rattle.esc_values.specs.Clear.{is_clear, IsClearText};

use esc_values::scalar::text_in;

// Returns whether a character is clear: neither C0 nor C1.
fn is_clear(c: char) -> bool
    ensures { result ≡ is_clear c }
{
    matches!(c, ' '..='\u{7f}' | '\u{a0}'..)
}

// Returns whether each character of a text is clear.
fn are_clear(text: &str) -> bool
    ensures { result ≡ list_all is_clear (chars text.now) }
{
    text.chars().all(is_clear)
}

// Returns whether a text is one of clear characters.
fn is_clear_str(text: &str) -> bool
    ensures { IsTrue result ↔ IsClearText text.now }
{
    are_clear(text)
}

/// Returns whether bytes are a text of clear characters.
pub(crate) fn is_clear_text(bytes: &[u8]) -> bool
    ensures { IsTrue result ↔ IsClearText bytes.now }
{
    match text_in(bytes) {
        Some(text) => is_clear_str(text),
        None => false,
    }
}
