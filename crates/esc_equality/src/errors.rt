//! Errors of readings and of parsers.
ghost use Rattle.std.specs.Prelude.{◌≡◌, ◌↔◌, IsTrue};

use esc_frame::ParseError;
use esc_values::Error;

/// Returns whether two errors of a reading are the same.
pub fn same_error(a: &Error, b: &Error) -> bool
    ensures { IsTrue result ↔ (a.now ≡ b.now) }
{
    a == b
}

/// Returns whether two errors of a parser are the same.
pub fn same_parse_error(a: &ParseError, b: &ParseError) -> bool
    ensures { IsTrue result ↔ (a.now ≡ b.now) }
{
    a == b
}
