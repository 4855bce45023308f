//! The account of the bytes of a stream, for C.
ghost use Rattle.std.specs.Prelude.{◌≡◌};
ghost use Rattle.esc_calls.specs.AccountRows.{length_of, row_of};

use esc_account::Account;

/// The account of the bytes of a stream: the number of bytes with each fate, and of all bytes.
#[repr(C)]
#[derive(Clone, Copy)]
pub struct AccountRow {
    /// They are in the output as they came.
    pub passed: u64,
    /// They are in the output in another spelling.
    pub respelled: u64,
    /// They are in the output as visible text.
    pub shown: u64,
    /// The replacement character is in the output for them.
    pub replaced: u64,
    /// They mean something that does not pass.
    pub left_out: u64,
    /// They mean nothing.
    pub swallowed: u64,
    /// Other text took their place.
    pub overwritten: u64,
    /// The number of all bytes, or 2^64 - 1 if there are more.
    pub length: u64,
}

impl AccountRow {
    /// Returns the row of an account.
    pub(crate) fn from_account(account: Account) -> AccountRow
        ensures { result ≡ row_of account }
    {
        let sums = account.sums;
        AccountRow {
            passed: sums.passed,
            respelled: sums.respelled,
            shown: sums.shown,
            replaced: sums.replaced,
            left_out: sums.left_out,
            swallowed: sums.swallowed,
            overwritten: sums.overwritten,
            length: length_of(sums.total()),
        }
    }
}

// Returns this number if it is less than 2^64, else the greatest below.
fn length_of(total: u128) -> u64
    ensures { result ≡ length_of total }
{
    if total <= 0xffff_ffff_ffff_ffff {
        total as u64
    } else {
        u64::MAX
    }
}
