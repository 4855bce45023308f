//! How many bytes had each fate.
#![tactic(auto)]

ghost use Rattle.std.specs.Prelude.{◌≡◌, ◌+◌, ◌<◌, ◌^◌};
ghost use Rattle.esc_account.specs.Accounts.{sums_with, count_of, nothing, total};

use crate::fate::Fate;

/// How many bytes had each fate.
#[derive(Clone, Copy, PartialEq, Eq, Debug)]
pub struct Sums {
    /// They are in the output as they came.
    pub passed: u64,
    /// They are in the output in another spelling.
    pub respelled: u64,
    /// They are in the output as visible text.
    pub shown: u64,
    /// The replacement character is in the output for them.
    pub replaced: u64,
    /// They mean something that does not pass.
    pub left_out: u64,
    /// They mean nothing.
    pub swallowed: u64,
    /// Other text took their place.
    pub overwritten: u64,
}

impl Sums {
    /// No byte had any.
    pub fn new() -> Sums
        ensures { result ≡ nothing }
    {
        Sums {
            passed: 0,
            respelled: 0,
            shown: 0,
            replaced: 0,
            left_out: 0,
            swallowed: 0,
            overwritten: 0,
        }
    }

    /// How many bytes there were in all. It is less than 2^67, so that a caller can see whether
    /// there is room for more: the calls that add bytes want the sum to stay below 2^64.
    pub fn total(&self) -> u128
        ensures { result ≡ total self.now }
    {
        (self.passed as u128)
            + (self.respelled as u128)
            + (self.shown as u128)
            + (self.replaced as u128)
            + (self.left_out as u128)
            + (self.swallowed as u128)
            + (self.overwritten as u128)
    }

    /// How many bytes had this one.
    pub fn of(self, fate: Fate) -> u64
        ensures { result ≡ count_of fate self }
    {
        match fate {
            Fate::Passed => self.passed,
            Fate::Respelled => self.respelled,
            Fate::Shown => self.shown,
            Fate::Replaced => self.replaced,
            Fate::LeftOut => self.left_out,
            Fate::Swallowed => self.swallowed,
            Fate::Overwritten => self.overwritten,
        }
    }

    /// So many more had this one.
    #[inline]
    pub fn with(self, fate: Fate, count: u64) -> Sums
        requires { total self + count < 2 ^ 64 }
        ensures { result ≡ sums_with fate count self }
    {
        let mut sums = self;
        match fate {
            Fate::Passed => sums.passed += count,
            Fate::Respelled => sums.respelled += count,
            Fate::Shown => sums.shown += count,
            Fate::Replaced => sums.replaced += count,
            Fate::LeftOut => sums.left_out += count,
            Fate::Swallowed => sums.swallowed += count,
            Fate::Overwritten => sums.overwritten += count,
        }
        sums
    }
}
