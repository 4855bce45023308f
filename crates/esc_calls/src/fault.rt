//! This module says which option is none.
ghost use Rattle.std.specs.Prelude.{◌≡◌};
ghost use Rattle.esc_calls.specs.SanitizerOptions.{status_of};

use crate::{
    TOO_MANY_COLUMNS, TOO_MANY_ROWS, UNKNOWN_CHARACTERS, UNKNOWN_ENCODING, UNKNOWN_FRAMING,
    UNKNOWN_GROUP, UNKNOWN_LINKS, UNKNOWN_POLICY, UNKNOWN_RETURNS, UNKNOWN_SHOW, UNKNOWN_SIZE,
};

/// Says which of the numbers that say how a stream is sanitized says nothing.
#[derive(Clone, Copy)]
pub enum Fault {
    /// The size is not that of the options, or a reserved field is not 0.
    Size,
    /// No policy has the number.
    Policy,
    /// No group has one of the bits.
    Group,
    /// No schemes have the number.
    Links,
    /// The number is none of a framing.
    Framing,
    /// The number says nothing of characters.
    Characters,
    /// The number says nothing of carriage returns.
    Returns,
    /// No encoding has the number.
    Encoding,
    /// The number is no way to show actions that do not pass.
    Show,
    /// There are too many rows.
    Rows,
    /// The rows have too many columns.
    Columns,
}

impl Fault {
    /// Returns the status that says it.
    pub(crate) fn status(self) -> u32
        ensures { result ≡ status_of self }
    {
        match self {
            Fault::Size => UNKNOWN_SIZE,
            Fault::Policy => UNKNOWN_POLICY,
            Fault::Group => UNKNOWN_GROUP,
            Fault::Links => UNKNOWN_LINKS,
            Fault::Framing => UNKNOWN_FRAMING,
            Fault::Characters => UNKNOWN_CHARACTERS,
            Fault::Returns => UNKNOWN_RETURNS,
            Fault::Encoding => UNKNOWN_ENCODING,
            Fault::Show => UNKNOWN_SHOW,
            Fault::Rows => TOO_MANY_ROWS,
            Fault::Columns => TOO_MANY_COLUMNS,
        }
    }
}
