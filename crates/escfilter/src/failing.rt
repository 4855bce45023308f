//! The failures of streams.
ghost use Rattle.std.specs.Prelude.{◌≡◌, ◌≢◌, ◌↔◌, ◌++◌, ◌∷◌, IsTrue, List, [], if◌then◌else◌};
ghost use Rattle.std.specs.List.{list_any};
ghost use Rattle.esc_account.specs.declared.sums.Sums.{Sums as Counts};
ghost use Rattle.escfilter.specs.Failures.{HasFailure, WasTold, are_met, failing_of, has_failure};
ghost use Rattle.escfilter.specs.declared.failing.Failing.{Failing as Fates};

use crate::named_groups::has_word;
use esc_account::Sums;

/// The words of `--fail`: names of fates. Their bits are in this order.
pub const FAILING: &[&str] = &[
    "respelled",
    "shown",
    "replaced",
    "left-out",
    "swallowed",
    "overwritten",
];

// The status of a program that did what it was asked for.
const DONE: u8 = 0;

// That of one of whose streams a byte had a fate that is a failure.
const FAILURE: u8 = 3;

/// Which fates are a failure.
#[derive(Clone, Copy)]
pub struct Failing {
    pub respelled: bool,
    pub shown: bool,
    pub replaced: bool,
    pub left_out: bool,
    pub swallowed: bool,
    pub overwritten: bool,
}

impl Failing {
    /// The fates of bytes that are not in the output, in any spelling.
    pub const LESS: Failing = Failing {
        respelled: false,
        shown: true,
        replaced: true,
        left_out: true,
        swallowed: true,
        overwritten: true,
    };

    /// The fates of the words of `FAILING` whose bits are set, or `LESS` if none is.
    pub fn named(words: u64) -> Failing
        ensures { result ≡ failing_of words }
    {
        if words == 0 {
            return Failing::LESS;
        }
        Failing {
            respelled: has_word(0, words),
            shown: has_word(1, words),
            replaced: has_word(2, words),
            left_out: has_word(3, words),
            swallowed: has_word(4, words),
            overwritten: has_word(5, words),
        }
    }

    /// Whether some byte of a stream, which has these sums, had one of them.
    pub fn is_met(self, sums: Sums) -> bool
        ensures counted { result ≡ has_failure self sums }
        ensures some { IsTrue result ↔ HasFailure self sums }
    {
        has_failure(self, sums)
    }
}

// The same, one fate after another.
fn has_failure(failing: Failing, sums: Sums) -> bool
    ensures { result ≡ has_failure failing sums }
{
    are_met(failing.respelled, sums.respelled)
        || are_met(failing.shown, sums.shown)
        || are_met(failing.replaced, sums.replaced)
        || are_met(failing.left_out, sums.left_out)
        || are_met(failing.swallowed, sums.swallowed)
        || are_met(failing.overwritten, sums.overwritten)
}

// Whether there are so many bytes, at least one, and they are a failure.
fn are_met(is_failure: bool, count: u64) -> bool
    ensures { result ≡ are_met is_failure count }
{
    is_failure && count > 0
}

/// Whether some byte of the streams so far had a fate that is a failure.
#[derive(Clone, Copy)]
pub struct Gate {
    failing: Failing,
    is_met: bool,
}

impl Gate {
    /// Before the first stream.
    pub fn new(failing: Failing) -> Gate
        ensures { WasTold failing [] result }
    {
        Gate {
            failing,
            is_met: false,
        }
    }

    /// Takes the sums of a stream more, and returns whether some byte of it had such a fate.
    pub fn take(&mut self, sums: Sums) -> bool
        ensures failure { result ≡ has_failure self.old.failing sums }
        ensures told { (k : Fates) (xs : List Counts) → WasTold k xs self.old
            → WasTold k (xs ++ sums ∷ []) self.new }
    {
        let is_met = self.failing.is_met(sums);
        self.is_met |= is_met;
        is_met
    }

    /// Returns the status of the program that would end with this one otherwise: 3 exactly if it
    /// did all its work, and some byte of its streams had such a fate.
    pub fn status(self, status: u8) -> u8
        ensures done { (k : Fates) (xs : List Counts) → WasTold k xs self → status ≡ 0
            → result ≡ (if list_any (has_failure k) xs then 3 else 0) }
        ensures other { status ≢ 0 → result ≡ status }
    {
        if status == DONE && self.is_met {
            FAILURE
        } else {
            status
        }
    }
}
