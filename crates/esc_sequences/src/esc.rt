//! Escape sequences.
ghost use Rattle.std.specs.Prelude.{◌≡◌, Some};
ghost use Rattle.std.specs.Fmt.{DisplaysOnOk};
ghost use Rattle.esc_sequences.specs.Escs.{esc_of, esc_text, final_text};

use crate::esc_code::EscCode;
use std::fmt;

/// An escape sequence: ESC, at most one intermediate byte, and a final byte (ECMA-48, 5.3).
#[derive(Clone, Copy, Debug, PartialEq, Eq)]
pub enum Esc {
    /// One that has a name.
    Code(EscCode),
    /// Any other.
    Unspecified {
        /// The intermediate byte, 20 to 2F (hexadecimal), if there is one.
        intermediate: Option<u8>,
        /// The final byte, 30 to 7E (hexadecimal).
        control: u8,
    },
}

impl Esc {
    /// Returns the escape sequence of an intermediate and a final byte. With no intermediate `\`,
    /// `H` and
    /// `k` have names; everything else is `Unspecified` of the same bytes.
    pub fn parse(intermediate: Option<u8>, control: u8) -> Esc
        ensures { result ≡ esc_of intermediate control }
    {
        match intermediate {
            None => {
                if control == b'\\' {
                    Esc::Code(EscCode::StringTerminator)
                } else if control == b'H' {
                    Esc::Code(EscCode::HorizontalTabSet)
                } else if control == b'k' {
                    Esc::Code(EscCode::TmuxTitle)
                } else {
                    Esc::Unspecified {
                        intermediate,
                        control,
                    }
                }
            }
            Some(_) => Esc::Unspecified {
                intermediate,
                control,
            },
        }
    }
}

/// Writes ESC, the intermediate if there is one, and the final byte. A byte is written as the
/// character of the same number. If it returns `Ok`, all of it was written.
impl fmt::Display for Esc {
    ghost output = { λ e. Some (esc_text e) };

    fn fmt<W: fmt::Write>(&self, f: &mut fmt::Formatter<W>) -> fmt::Result {
        f.write_str("\x1b")?;
        write_final(*self, f)
    }
}

// Writes the bytes after ESC.
fn write_final<W: fmt::Write>(esc: Esc, f: &mut fmt::Formatter<W>) -> fmt::Result
    ensures { DisplaysOnOk W.write_str_gives f.old result (Some (final_text esc)) f.new }
{
    match esc {
        Esc::Code(EscCode::StringTerminator) => f.write_str("\\"),
        Esc::Code(EscCode::HorizontalTabSet) => f.write_str("H"),
        Esc::Code(EscCode::TmuxTitle) => f.write_str("k"),
        Esc::Unspecified {
            intermediate: None,
            control,
        } => f.write_char(char::from(control)),
        Esc::Unspecified {
            intermediate: Some(first),
            control,
        } => {
            f.write_char(char::from(first))?;
            f.write_char(char::from(control))
        }
    }
}
