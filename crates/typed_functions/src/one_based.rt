//! Numbers that count from one.
ghost use Rattle.std.specs.Prelude.{◌≡◌, ◌+◌};
ghost use Rattle.typed_functions.specs.Counts.{one_based, one_based_of};

use esc_values::number::write_natural;
use std::fmt;

/// A count, a line, a column or a page, as terminals count them: from 1 (ECMA-48, 5.4.2), to 2 to
/// the power of 32.
#[derive(Clone, Copy, PartialEq, Eq)]
pub struct Ordinal {
    zero_based: u32,
}

impl Ordinal {
    /// Returns the number with this place, counted from 0, which is the place of 1.
    #[inline]
    pub fn from_zero_based(place: u32) -> Ordinal
        ensures { one_based result ≡ place + 1 }
    {
        Ordinal { zero_based: place }
    }

    /// Returns its place, counted from 0, which is the place of 1.
    #[inline]
    pub fn as_zero_based(self) -> u32
        ensures { result + 1 ≡ one_based self }
    {
        self.zero_based
    }

    /// Returns the number, from 1 on.
    #[inline]
    pub fn as_one_based(self) -> u64
        ensures { result ≡ one_based self }
    {
        self.zero_based as u64 + 1
    }

    // Returns the number of a parameter; nothing and 0 are 1; `None` if it is too large.
    #[inline]
    pub(crate) fn of_number(number: Option<u64>) -> Option<Ordinal>
        ensures { result ≡ one_based_of number }
    {
        match number {
            None | Some(0) => Some(Ordinal { zero_based: 0 }),
            Some(number) => match u32::try_from(number - 1) {
                Ok(zero_based) => Some(Ordinal { zero_based }),
                Err(_) => None,
            },
        }
    }
}

/// Writes the number, from 1 on, in decimal.
impl fmt::Debug for Ordinal {
    fn fmt<W: fmt::Write>(&self, f: &mut fmt::Formatter<W>) -> fmt::Result {
        write_natural(self.as_one_based(), f)
    }
}
