ghost use Rattle.std.specs.Prelude.{◌≡◌, ◌+◌, ◌^◌, ◌<◌, ◌≤◌, ◌↔◌, IsTrue};

/// Says how many requests there were, and which one is refused.
#[derive(Clone, Copy)]
pub(crate) struct Tally {
    requests: u64,
    refused: u64,
}

impl Tally {
    /// Returns no request yet, and the one with the number `refused` to be refused.
    pub(crate) fn refusing(refused: u64) -> Tally
        ensures { (result.requests ≡ 0) × (result.refused ≡ refused) }
    {
        Tally {
            requests: 0,
            refused,
        }
    }

    /// Returns the tally after one more request. The count stays at the greatest number that it can
    /// hold.
    pub(crate) fn next(self) -> Tally
        ensures counted { self.requests + 1 < 2 ^ 64 → result.requests ≡ self.requests + 1 }
        ensures kept { result.refused ≡ self.refused }
    {
        Tally {
            requests: self.requests.saturating_add(1),
            refused: self.refused,
        }
    }

    /// Is the request that was counted last the one to refuse?
    pub(crate) fn is_refused(self) -> bool
        ensures { IsTrue result ↔ (self.requests ≡ self.refused) }
    {
        self.requests == self.refused
    }

    /// Has the request to refuse been counted?
    pub(crate) fn has_refused(self) -> bool
        ensures { IsTrue result ↔ ((0 < self.refused) × (self.refused ≤ self.requests)) }
    {
        self.refused > 0 && self.refused <= self.requests
    }

    /// Returns the requests that were counted.
    pub(crate) fn requests(self) -> u64
        ensures { result ≡ self.requests }
    {
        self.requests
    }
}
