//! The emphasis that characters get by overstriking.
ghost use Rattle.std.specs.Prelude.{◌≡◌};
ghost use Rattle.page_input.specs.Strikes.{strike_of};

use esc_pen::Pen;

/// Says what a character means that is written in the place of another.
#[derive(Clone, Copy)]
pub(crate) enum Strike {
    /// They are one character, which is bold.
    Bold,
    /// It underlines the other.
    Line,
    /// The other underlines it.
    Lined,
    /// It stands there alone.
    Other,
}

/// Returns what a second character means that is written in the place of a first, as nroff and man
/// write them.
pub(crate) fn strike_of(first: &[u8], second: &[u8]) -> Strike
    ensures { result ≡ strike_of first.now second.now }
{
    if first == second {
        Strike::Bold
    } else if second == b"_".as_slice() {
        Strike::Line
    } else if first == b"_".as_slice() {
        Strike::Lined
    } else {
        Strike::Other
    }
}

/// Says how a character is emphasised.
#[derive(Clone, Copy, PartialEq, Eq)]
pub(crate) struct Emphasis {
    /// Says whether it is bold.
    pub bold: bool,
    /// Says whether it is underlined.
    pub underline: bool,
}

impl Emphasis {
    /// Returns none.
    pub fn none() -> Emphasis {
        Emphasis {
            bold: false,
            underline: false,
        }
    }

    /// Returns this emphasis without what the renditions of the stream say themselves: where these
    /// make characters bold, faint or underlined, they stay as they are.
    pub fn beside(self, pen: Pen) -> Emphasis {
        let plain = Pen::plain();
        Emphasis {
            bold: self.bold && !pen.bold && !pen.faint,
            underline: self.underline && pen.underline == plain.underline,
        }
    }

    /// Returns the control sequence that begins it.
    pub fn begin(self) -> &'static [u8] {
        match (self.bold, self.underline) {
            (false, false) => b"",
            (true, false) => b"\x1b[1m",
            (false, true) => b"\x1b[4m",
            (true, true) => b"\x1b[1;4m",
        }
    }

    /// Returns the control sequence that ends it.
    pub fn end(self) -> &'static [u8] {
        match (self.bold, self.underline) {
            (false, false) => b"",
            (true, false) => b"\x1b[22m",
            (false, true) => b"\x1b[24m",
            (true, true) => b"\x1b[22;24m",
        }
    }
}
