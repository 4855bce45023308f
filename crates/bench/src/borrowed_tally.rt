//! A count of borrowed actions.

use crate::count::sum_of;
use crate::counted::Counted;
use crate::tally::let_go;
use escape_stream::ActionRef;

/// Counts the borrowed actions that it is given, and adds up the bytes of their texts and how many
/// parameters they have.
#[derive(Clone, Copy)]
pub struct BorrowedTally {
    number: u64,
    total: u64,
}

impl BorrowedTally {
    /// Returns an empty tally.
    pub fn new() -> BorrowedTally {
        BorrowedTally {
            number: 0,
            total: 0,
        }
    }

    /// Counts one more.
    #[inline]
    pub fn add(&mut self, action: ActionRef<'_>) {
        self.number = self.number.wrapping_add(1);
        match action {
            ActionRef::Text(text) => self.add_bytes(text.as_bytes()),
            ActionRef::Command(text) => self.add_bytes(text),
            ActionRef::Sequence { params, .. } => self.total = self
                .total
                .wrapping_add(params.len() as u64),
            ActionRef::Print(_) | ActionRef::Control(_) | ActionRef::Sgr(_) => {}
            ActionRef::Owned(action) => let_go(action),
        }
    }

    #[inline]
    fn add_bytes(&mut self, bytes: &[u8]) {
        self.total = self.total.wrapping_add(sum_of(bytes));
    }

    /// Returns the counts.
    pub fn counted(&self) -> Counted {
        Counted::Borrowed(self.number, self.total)
    }
}
