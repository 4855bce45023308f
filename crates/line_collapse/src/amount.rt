//! Amounts of text.
ghost use Rattle.std.specs.Prelude.{◌≡◌};
ghost use Rattle.line_collapse.specs.Amounts.{amount_with, amount, missing};

/// How much text: how many characters, and how many bytes these take in UTF-8, each up to
/// 2^64 - 1.
#[derive(Clone, Copy)]
pub struct Amount {
    /// How many characters.
    pub chars: u64,
    /// How many bytes.
    pub bytes: u64,
}

impl Amount {
    /// No text.
    pub fn none() -> Amount
        ensures { result ≡ amount 0 0 }
    {
        Amount { chars: 0, bytes: 0 }
    }

    /// Adds so many characters and bytes.
    #[inline]
    pub fn add(&mut self, chars: u64, bytes: u64)
        ensures { self.new ≡ amount_with chars bytes self.old }
    {
        self.chars = self.chars.saturating_add(chars);
        self.bytes = self.bytes.saturating_add(bytes);
    }

    /// How much less another amount is: by bytes or by characters, whichever is more, up to the
    /// bytes of this one.
    pub fn missing_in(self, other: Amount) -> u64
        ensures { result ≡ missing self other }
    {
        let chars = self.chars.saturating_sub(other.chars);
        let bytes = self.bytes.saturating_sub(other.bytes);
        chars.max(bytes).min(self.bytes)
    }
}
