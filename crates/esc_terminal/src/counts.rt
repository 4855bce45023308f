//! Counts and places as a screen takes them.
ghost use Rattle.std.specs.Prelude.{◌≡◌};
ghost use Rattle.esc_terminal.specs.Steps.{count, place};

use typed_functions::Ordinal;

/// A number, if a screen counts to 65,535.
#[inline]
pub(crate) fn count(n: Ordinal) -> u16
    ensures { result ≡ count n }
{
    n.as_one_based().min(0xffff) as u16
}

/// A row or a column, from 0 on.
#[inline]
pub(crate) fn place(n: Ordinal) -> u16
    ensures { result ≡ place n }
{
    n.as_zero_based().min(0xffff) as u16
}
