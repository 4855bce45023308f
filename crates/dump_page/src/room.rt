//! This module says how long words may be.

/// The number of bytes that words may have, and the count of those that are left out.
#[derive(Clone, Copy, Drop)]
pub struct Room {
    most: usize,
    left_out: u64,
    is_short: bool,
}

impl Room {
    /// Any number.
    pub const ANY: Room = Room {
        most: usize::MAX,
        left_out: 0,
        is_short: false,
    };

    /// Returns room for at most so many, but a text that is begun before is whole.
    pub fn of(most: usize) -> Room {
        Room {
            most,
            left_out: 0,
            is_short: false,
        }
    }

    /// Returns whether words of this length have room for more, and notes if they have not.
    #[inline]
    pub fn has_more(&mut self, length: usize) -> bool {
        let has_more = length < self.most;
        self.is_short = self.is_short || !has_more;
        has_more
    }

    /// Returns how many bytes more words of this length may have.
    pub fn left(&self, length: usize) -> usize {
        self.most.saturating_sub(length)
    }

    /// Notes that so many bytes of a text are left out.
    pub fn leave_out(&mut self, count: usize) {
        self.left_out = self.left_out.saturating_add(count as u64);
    }

    /// Returns how many bytes of texts are left out.
    pub fn left_out(&self) -> u64 {
        self.left_out
    }

    /// Returns whether words are left out.
    pub fn is_short(&self) -> bool {
        self.is_short
    }
}
