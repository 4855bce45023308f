//! This module defines selections (<https://invisible-island.net/xterm/ctlseqs/ctlseqs.html>, code
//! 52).
ghost use Rattle.std.specs.Prelude.{⊤, ◌≡◌, ◌==◌, not, if◌then◌else◌, [], ◌∷◌, codes, Some, None, bit_and, bit_or, bit_xor};
ghost use Rattle.esc_osc_values.specs.Selections.{lacking, letter_bit, named_bits};

use bitflags::{Flag, Flags};
use std::fmt;
use std::ops::{
    BitAnd, BitAndAssign, BitOr, BitOrAssign, BitXor, BitXorAssign, Not, Sub, SubAssign,
};

// Makes a table of the flags of these names.
macro_rules! flags {
    ($($name:ident),+) => {
        &[$(Flag { name: stringify!($name), value: Selection::$name }),+]
    };
}

/// A selection is a set of bits (xterm's list of control sequences, "Manipulate Selection Data"):
/// the clipboard, the primary selection, the one that is configured, and the cut buffers 0 to 9.
/// These are the named bits; a value may hold others too.
#[derive(Clone, Copy, PartialEq, Eq, Debug)]
pub struct Selection(u16);

impl Selection {
    /// No selection.
    pub const NONE: Selection = Selection(0);

    /// The clipboard, letter `c`.
    pub const CLIPBOARD: Selection = Selection(2);

    /// The primary selection, letter `p`.
    pub const PRIMARY: Selection = Selection(4);

    /// The selection that the terminal is configured to use, letter `s`.
    pub const SELECT: Selection = Selection(8);

    /// Cut buffer 0.
    pub const CUT0: Selection = Selection(16);

    /// Cut buffer 1.
    pub const CUT1: Selection = Selection(32);

    /// Cut buffer 2.
    pub const CUT2: Selection = Selection(64);

    /// Cut buffer 3.
    pub const CUT3: Selection = Selection(128);

    /// Cut buffer 4.
    pub const CUT4: Selection = Selection(256);

    /// Cut buffer 5.
    pub const CUT5: Selection = Selection(512);

    /// Cut buffer 6.
    pub const CUT6: Selection = Selection(1024);

    /// Cut buffer 7.
    pub const CUT7: Selection = Selection(2048);

    /// Cut buffer 8.
    pub const CUT8: Selection = Selection(4096);

    /// Cut buffer 9.
    pub const CUT9: Selection = Selection(8192);

    // has the named bits, each with its name
    const FLAGS: &'static [Flag<Selection>] = flags![
        NONE, CLIPBOARD, PRIMARY, SELECT, CUT0, CUT1, CUT2, CUT3, CUT4, CUT5, CUT6, CUT7, CUT8,
        CUT9
    ];
}

impl Flags for Selection {
    type Bits = u16;

    ghost exact = { ⊤ };

    ghost table = { (codes "NONE", 0) ∷ (codes "CLIPBOARD", 2) ∷ (codes "PRIMARY", 4)
        ∷ (codes "SELECT", 8) ∷ (codes "CUT0", 16) ∷ (codes "CUT1", 32) ∷ (codes "CUT2", 64)
        ∷ (codes "CUT3", 128) ∷ (codes "CUT4", 256) ∷ (codes "CUT5", 512) ∷ (codes "CUT6", 1024)
        ∷ (codes "CUT7", 2048) ∷ (codes "CUT8", 4096) ∷ (codes "CUT9", 8192) ∷ [] };

    ghost set_of = { λ p. p.0 };

    fn flags<'a>() -> &'a [Flag<Selection>] {
        Selection::FLAGS
    }

    fn bits(&self) -> u16 {
        self.0
    }

    fn from_bits_retain(bits: u16) -> Selection {
        Selection(bits)
    }
}

impl Selection {
    /// Returns the bits of this set.
    pub fn bits(&self) -> u16
        ensures { result ≡ self.now.0 }
    {
        self.0
    }

    /// Returns the set of these bits, if each is named; else none.
    pub fn from_bits(bits: u16) -> Option<Selection>
        ensures { result ≡ (if bit_and bits named_bits == bits then Some (record { 0 = bits })
            else None) }
    {
        let named = Selection::from_bits_truncate(bits);
        if named.bits() == bits {
            Some(named)
        } else {
            None
        }
    }

    /// Returns the set of the named ones among these bits.
    pub fn from_bits_truncate(bits: u16) -> Selection
        ensures { result.0 ≡ bit_and bits named_bits }
    {
        Flags::from_bits_truncate(bits)
    }

    /// Returns the set of these bits, named or not.
    pub fn from_bits_retain(bits: u16) -> Selection
        ensures { result.0 ≡ bits }
    {
        Selection(bits)
    }

    /// Returns the set without bits.
    pub fn empty() -> Selection
        ensures { result.0 ≡ 0 }
    {
        Flags::empty()
    }

    /// Returns the set of all named bits, 16382.
    pub fn all() -> Selection
        ensures { result.0 ≡ named_bits }
    {
        Flags::all()
    }

    /// Returns whether it has no bit.
    pub fn is_empty(&self) -> bool
        ensures { result ≡ (self.now.0 == 0) }
    {
        Flags::is_empty(self)
    }

    /// Returns whether it has every named bit.
    pub fn is_all(&self) -> bool
        ensures { result ≡ (bit_and self.now.0 named_bits == named_bits) }
    {
        self.contains(Selection::all())
    }

    /// Returns whether it has every bit of `other`.
    pub fn contains(&self, other: Selection) -> bool
        ensures { result ≡ (bit_and self.now.0 other.0 == other.0) }
    {
        Flags::contains(self, other)
    }

    /// Returns whether it shares a bit with `other`.
    pub fn intersects(&self, other: Selection) -> bool
        ensures { result ≡ not (bit_and self.now.0 other.0 == 0) }
    {
        Flags::intersects(self, other)
    }

    /// Returns the bits of either.
    pub fn union(self, other: Selection) -> Selection
        ensures { result.0 ≡ bit_or self.0 other.0 }
    {
        Flags::union(self, other)
    }

    /// Returns the bits of both.
    pub fn intersection(self, other: Selection) -> Selection
        ensures { result.0 ≡ bit_and self.0 other.0 }
    {
        Flags::intersection(self, other)
    }

    /// Returns the bits of exactly one of them.
    pub fn symmetric_difference(self, other: Selection) -> Selection
        ensures { result.0 ≡ bit_xor self.0 other.0 }
    {
        Flags::symmetric_difference(self, other)
    }

    /// Returns the bits of this set that `other` lacks.
    pub fn difference(self, other: Selection) -> Selection
        ensures { result.0 ≡ lacking self.0 other.0 }
    {
        Flags::difference(self, other)
    }

    /// Returns the named bits that this set lacks.
    pub fn complement(self) -> Selection
        ensures { result.0 ≡ lacking named_bits self.0 }
    {
        Flags::complement(self)
    }

    /// Adds the bits of `other`.
    pub fn insert(&mut self, other: Selection)
        ensures { self.new.0 ≡ bit_or self.old.0 other.0 }
    {
        Flags::insert(self, other);
    }

    /// Takes the bits of `other` away.
    pub fn remove(&mut self, other: Selection)
        ensures { self.new.0 ≡ lacking self.old.0 other.0 }
    {
        Flags::remove(self, other);
    }

    /// Adds the bits of `other` that were not there, and takes those away that were.
    pub fn toggle(&mut self, other: Selection)
        ensures { self.new.0 ≡ bit_xor self.old.0 other.0 }
    {
        Flags::toggle(self, other);
    }

    /// Adds the bits of `other` if `value` is true, else takes them away.
    pub fn set(&mut self, other: Selection, value: bool)
        ensures { self.new.0 ≡ (if value then bit_or self.old.0 other.0
            else lacking self.old.0 other.0) }
    {
        Flags::set(self, other, value);
    }
}

/// Returns the bits of either.
impl BitOr for Selection {
    type Output = Selection;

    ghost bitor_gives = { λ a b r. r.0 ≡ bit_or a.0 b.0 };

    fn bitor(self, other: Selection) -> Selection {
        self.union(other)
    }
}

/// Acts as the operator, in place.
impl BitOrAssign for Selection {
    ghost bitor_assign_gives = { λ a b r. r.0 ≡ bit_or a.0 b.0 };

    fn bitor_assign(&mut self, other: Selection) {
        *self = self.union(other);
    }
}

/// Returns the bits of both.
impl BitAnd for Selection {
    type Output = Selection;

    ghost bitand_gives = { λ a b r. r.0 ≡ bit_and a.0 b.0 };

    fn bitand(self, other: Selection) -> Selection {
        self.intersection(other)
    }
}

/// Acts as the operator, in place.
impl BitAndAssign for Selection {
    ghost bitand_assign_gives = { λ a b r. r.0 ≡ bit_and a.0 b.0 };

    fn bitand_assign(&mut self, other: Selection) {
        *self = self.intersection(other);
    }
}

/// Returns the bits of exactly one of them.
impl BitXor for Selection {
    type Output = Selection;

    ghost bitxor_gives = { λ a b r. r.0 ≡ bit_xor a.0 b.0 };

    fn bitxor(self, other: Selection) -> Selection {
        self.symmetric_difference(other)
    }
}

/// Acts as the operator, in place.
impl BitXorAssign for Selection {
    ghost bitxor_assign_gives = { λ a b r. r.0 ≡ bit_xor a.0 b.0 };

    fn bitxor_assign(&mut self, other: Selection) {
        *self = self.symmetric_difference(other);
    }
}

/// Returns the bits of the first that the second lacks.
impl Sub for Selection {
    type Output = Selection;

    ghost sub_gives = { λ a b r. r.0 ≡ lacking a.0 b.0 };

    fn sub(self, other: Selection) -> Selection {
        self.difference(other)
    }
}

/// Acts as the operator, in place.
impl SubAssign for Selection {
    ghost sub_assign_gives = { λ a b r. r.0 ≡ lacking a.0 b.0 };

    fn sub_assign(&mut self, other: Selection) {
        *self = self.difference(other);
    }
}

/// Returns the named bits that the set lacks.
impl Not for Selection {
    type Output = Selection;

    ghost not_gives = { λ a r. r.0 ≡ lacking named_bits a.0 };

    fn not(self) -> Selection {
        self.complement()
    }
}

// has the named bits and their letters, in the order in which they are written
const LETTERS: [(u16, char); 13] = [
    (2, 'c'),
    (4, 'p'),
    (8, 's'),
    (16, '0'),
    (32, '1'),
    (64, '2'),
    (128, '3'),
    (256, '4'),
    (512, '5'),
    (1024, '6'),
    (2048, '7'),
    (4096, '8'),
    (8192, '9'),
];

/// Writes the letter of each named bit, in the order `c`, `p`, `s`, `0` to `9`. If it returns `Ok`,
/// all of it was written.
impl fmt::Display for Selection {
    ghost use Rattle.esc_osc_values.specs.Selections.{selection_text};

    ghost output = { λ s. Some (selection_text s.0) };

    fn fmt<W: fmt::Write>(&self, f: &mut fmt::Formatter<W>) -> fmt::Result {
        for (bit, letter) in LETTERS {
            if self.0 & bit != 0 {
                write!(f, "{letter}")?;
            }
        }
        Ok(())
    }
}

impl Selection {
    ghost use Rattle.std.specs.Prelude.{MatchOption};
    ghost use Rattle.esc_osc_values.specs.Selections.{selection_of};

    // Returns the selection that these letters name, in any order and number; no letters name
    // SELECT and CUT0.
    pub(crate) fn from_letters(text: &[u8]) -> Option<Selection>
        ensures { MatchOption result (selection_of text.now ≡ None)
            (λ s. selection_of text.now ≡ Some s.0) }
    {
        if text.is_empty() {
            return Some(Selection(24));
        }
        let mut bits = 0u16;
        for letter in text {
            let bit = letter_bit(*letter);
            if bit == 0 {
                return None;
            }
            bits |= bit;
        }
        Some(Selection(bits))
    }
}

// Returns the bit that a letter names, or 0.
fn letter_bit(letter: u8) -> u16
    ensures { result ≡ letter_bit letter }
{
    for (bit, known) in LETTERS {
        if char::from(letter) == known {
            return bit;
        }
    }
    0
}
