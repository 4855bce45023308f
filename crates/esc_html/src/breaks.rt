//! Actions that begin a line.
ghost use Rattle.std.specs.Prelude.{◌≡◌};
ghost use Rattle.esc_html.specs.Marks.{begins_line, escape_begins_line};

use esc_sequences::Esc;

// Whether a control does: line feed, line tabulation, form feed, and IND and NEL of C1, by which a
// terminal goes to the next line.
pub(crate) fn begins_line(c: char) -> bool
    ensures { result ≡ begins_line c }
{
    c == '\n' || c == '\u{b}' || c == '\u{c}' || c == '\u{84}' || c == '\u{85}'
}

// Whether an escape sequence does: IND and NEL in a 7-bit code (ECMA-48, 5.3).
pub(crate) fn escape_begins_line(esc: Esc) -> bool
    ensures { result ≡ escape_begins_line esc }
{
    match esc {
        Esc::Unspecified {
            intermediate: None,
            control,
        } => control == b'D' || control == b'E',
        Esc::Unspecified {
            intermediate: Some(_),
            ..
        }
        | Esc::Code(_) => false,
    }
}
