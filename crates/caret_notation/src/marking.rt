//! The way in which shown text is told from other text.
ghost use Rattle.std.specs.Prelude.{◌≡◌, not};
ghost use Rattle.std.specs.List.{list_any};
ghost use Rattle.caret_notation.specs.Visible.{closing, is_mark, lets_stay, opening};

use crate::visible::is_mark;

/// The way in which shown text is told from text that stays.
#[derive(Clone, Copy)]
pub enum Marking {
    /// It is not: text of the stream may look as shown text does.
    Plain,
    /// `^` and `<`, with which the notation begins, are shown wherever they are, as `<5E>` and
    /// `<3C>`. So all that is written can be read back as the stream.
    Escaped,
    /// It stands in reverse video, between `ESC [7m` and `ESC [27m`.
    Reversed,
}

impl Marking {
    /// Returns whether a span of these bytes may stay.
    pub(crate) fn lets_stay(self, span: &[u8]) -> bool
        ensures { result ≡ lets_stay self span.now }
    {
        match self {
            Marking::Escaped => !has_mark(span),
            Marking::Plain | Marking::Reversed => true,
        }
    }

    /// Returns the text before bytes that are shown.
    pub(crate) fn opening(self) -> &'static [u8]
        ensures { result.now ≡ opening self }
    {
        match self {
            Marking::Reversed => b"\x1b[7m",
            Marking::Plain | Marking::Escaped => b"",
        }
    }

    /// Returns the text after them.
    pub(crate) fn closing(self) -> &'static [u8]
        ensures { result.now ≡ closing self }
    {
        match self {
            Marking::Reversed => b"\x1b[27m",
            Marking::Plain | Marking::Escaped => b"",
        }
    }
}

// Returns whether `^` or `<` is among the bytes.
fn has_mark(bytes: &[u8]) -> bool
    ensures { result ≡ list_any is_mark bytes.now }
{
    bytes.iter().any(|byte| is_mark(*byte))
}
