//! This module counts bytes, as far as a limit allows.
#![tactic(auto)]

ghost use Rattle.std.specs.Prelude.{◌≡◌, ◌+◌, ℕ, Option, min, not, true, false};
ghost use Rattle.esc_frame.specs.Limits.{is_within, kept_within, most, Counts};

/// Returns whether `more` may be added to a count that is within the limit.
#[inline(always)]
pub fn fits(limit: Option<usize>, count: usize, more: usize) -> bool
    ensures { (n : ℕ) → is_within limit n ≡ true → count ≡ min n most
        → result ≡ is_within limit (n + more) }
{
    match limit {
        None => true,
        Some(limit) => count <= limit && more <= limit - count,
    }
}

/// The count says how many bytes came, and whether they passed the limit. Each addition is given
/// the limit: `None` means no limit. Without a limit a count past [`usize::MAX`] stays there.
#[derive(Clone, Copy, PartialEq, Eq)]
pub struct Count {
    /// The number of bytes; 0 once they passed the limit.
    pub bytes: usize,
    /// Says whether they passed the limit.
    pub is_over: bool,
}

impl Count {
    /// Returns a count of no bytes.
    pub fn new() -> Self
        ensures counts { (limit : Option ℕ) → Counts limit result 0 }
        ensures within { result.is_over ≡ false }
    {
        Count {
            bytes: 0,
            is_over: false,
        }
    }

    /// Begins anew.
    #[inline]
    pub fn clear(&mut self)
        ensures counts { (limit : Option ℕ) → Counts limit self.new 0 }
        ensures within { self.new.is_over ≡ false }
    {
        *self = Count::new();
    }

    /// Counts `more` bytes, and returns whether the count is still within the limit. Once it is
    /// not, it stays so until `clear`.
    #[inline]
    pub fn add(&mut self, limit: Option<usize>, more: usize) -> bool
        ensures counts { (n : ℕ) → Counts limit self.old n → Counts limit self.new (n + more) }
        ensures within { result ≡ not self.new.is_over }
    {
        if self.is_over {
            return false;
        }
        if fits(limit, self.bytes, more) {
            self.bytes = self.bytes.saturating_add(more);
            true
        } else {
            self.bytes = 0;
            self.is_over = true;
            false
        }
    }

    /// Returns the count, and 0 once it passed the limit.
    pub fn value(self) -> usize
        ensures { (limit : Option ℕ) (n : ℕ) → Counts limit self n
            → result ≡ min (kept_within limit n) most }
    {
        self.bytes
    }
}
