//! The meaning of the numbers of the options of a sanitizer.
ghost use Rattle.std.specs.Prelude.{◌≡◌};
ghost use Rattle.esc_calls.specs.SanitizerOptions.{characters_numbered, encoding_numbered, framing_numbered, marking_numbered, returns_numbered, usual_guard, utf8_by};

use caret_notation::Marking;
use esc_decode::{CodePage, Encoding};
use esc_filter::{Guard, Policy, Returns, Unicode};

/// Returns whether each line is a stream of its own; by the number 0 as is usual.
pub(crate) fn framing_of(number: u32, usual: bool) -> Option<bool>
    ensures { result ≡ framing_numbered number usual }
{
    match number {
        0 => Some(usual),
        1 | 3 => Some(true),
        2 => Some(false),
        _ => None,
    }
}

/// Returns the way in which characters that hide or reorder text are written; by the number 0 the
/// usual one.
pub(crate) fn characters_of(number: u32, usual: Unicode) -> Option<Unicode>
    ensures { result ≡ characters_numbered number usual }
{
    match number {
        0 => Some(usual),
        1 => Some(Unicode::Keep),
        2 => Some(Unicode::Join),
        3 => Some(Unicode::Show),
        4 => Some(Unicode::Drop),
        _ => None,
    }
}

/// Returns the way in which carriage returns are written; by the number 0 the usual one.
pub(crate) fn returns_of(number: u32, usual: Returns) -> Option<Returns>
    ensures { result ≡ returns_numbered number usual }
{
    match number {
        0 => Some(usual),
        1 => Some(Returns::Keep),
        2 => Some(Returns::Show),
        3 => Some(Returns::Drop),
        _ => None,
    }
}

/// Returns the way in which actions that do not pass are shown, if they are.
pub(crate) fn marking_of(number: u32) -> Option<Option<Marking>>
    ensures { result ≡ marking_numbered number }
{
    match number {
        0 => Some(None),
        1 => Some(Some(Marking::Plain)),
        2 => Some(Some(Marking::Escaped)),
        3 => Some(Some(Marking::Reversed)),
        _ => None,
    }
}

/// Returns the encoding of the bytes. If actions that do not pass are shown, none is replaced.
pub(crate) fn encoding_of(number: u32, shows: bool) -> Option<Encoding>
    ensures { result ≡ encoding_numbered number shows }
{
    match number {
        0 | 13 | 14 | 15 => Some(utf8_by(shows)),
        1 => Some(Encoding::EightBit),
        2 => Some(Encoding::CodePage(if shows {
            CodePage::Latin1WithControls
        } else {
            CodePage::Latin1
        })),
        3 => Some(Encoding::CodePage(CodePage::Latin1WithControls)),
        4 => Some(Encoding::CodePage(CodePage::Windows1250)),
        5 => Some(Encoding::CodePage(CodePage::Windows1251)),
        6 => Some(Encoding::CodePage(CodePage::Windows1252)),
        7 => Some(Encoding::CodePage(CodePage::Windows1253)),
        8 => Some(Encoding::CodePage(CodePage::Windows1254)),
        9 => Some(Encoding::CodePage(CodePage::Windows1255)),
        10 => Some(Encoding::CodePage(CodePage::Windows1256)),
        11 => Some(Encoding::CodePage(CodePage::Windows1257)),
        12 => Some(Encoding::CodePage(CodePage::Windows1258)),
        _ => None,
    }
}

// Returns the encoding of UTF-8.
fn utf8_by(shows: bool) -> Encoding
    ensures { result ≡ utf8_by shows }
{
    if shows {
        Encoding::EightBit
    } else {
        Encoding::Utf8
    }
}

/// Returns the usual way for characters and carriage returns that hide or reorder text, if so many
/// rows may be written again.
pub(crate) fn usual_guard(policy: Policy, rows: u32) -> Guard
    ensures { result ≡ usual_guard policy rows }
{
    match policy {
        Policy::Text | Policy::Color if rows == 0 => Guard {
            characters: Unicode::Join,
            returns: Returns::Show,
        },
        Policy::Text | Policy::Color => Guard {
            characters: Unicode::Join,
            returns: Returns::Keep,
        },
        Policy::Screen | Policy::All => Guard {
            characters: Unicode::Keep,
            returns: Returns::Keep,
        },
    }
}
