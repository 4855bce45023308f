//! Characters, controls and bytes that stand for themselves.
ghost use Rattle.std.specs.Prelude.{◌≡◌, ◌↔◌, ◌≢◌, [], IsTrue};
ghost use Rattle.std.specs.List.{list_all};
ghost use Rattle.std.specs.Str.{chars};
ghost use Rattle.esc_actions.specs.ControlCodes.{code_number};
ghost use Rattle.esc_actions.specs.Writable.{is_lone_control};
ghost use Rattle.esc_values.specs.Clear.{IsClearText, is_clear};
ghost use Rattle.esc_device.specs.Writable.{is_datum};

use esc_actions::ControlCode;

// Returns whether a terminal shows this character: it is neither a C0 nor a C1 control.
pub(crate) fn is_clear(c: char) -> bool
    ensures { result ≡ is_clear c }
{
    '\u{20}' <= c && (c <= '\u{7f}' || '\u{a0}' <= c)
}

// Returns whether a terminal shows each character of this text, and there is one.
#[tactic(auto, using(crate::proofs::ClearStrings::clear_string))]
pub(crate) fn is_clear_string(text: &str) -> bool
    ensures { IsTrue result ↔ (IsClearText text.now × (text.now ≢ [])) }
{
    if text.is_empty() {
        return false;
    }
    are_clear(text)
}

// Returns whether a terminal shows each character of this text.
fn are_clear(text: &str) -> bool
    ensures { result ≡ list_all is_clear (chars text.now) }
{
    for c in text.chars() {
        if !is_clear(c) {
            return false;
        }
    }
    true
}

// Returns whether the control is by itself: it opens and ends no sequence and no string.
pub(crate) fn cut_alone(code: ControlCode) -> bool
    ensures { result ≡ is_lone_control (code_number code) }
{
    is_lone_control(code.as_char())
}

// Does the same for its character.
fn is_lone_control(c: char) -> bool
    ensures { result ≡ is_lone_control c }
{
    (c < '\u{20}' && c != '\u{1b}')
        || ('\u{82}' <= c && c <= '\u{8f}')
        || ('\u{91}' <= c && c <= '\u{97}')
        || c == '\u{9a}'
}

// Returns whether data of a mode can hold the byte, and a text can write it.
pub(crate) fn is_datum(byte: u8) -> bool
    ensures { result ≡ is_datum byte }
{
    byte < 0x18 || byte == 0x19 || (0x1c <= byte && byte < 0x7f)
}
