//! Whether bytes can be counted.
#![tactic(auto)]

ghost use Rattle.std.specs.Prelude.{◌+◌, ◌↔◌, IsTrue};
ghost use Rattle.esc_account.specs.Accounts.{HasRoom};

use crate::account::Account;

// Whether what is kept and so many bytes more can be counted.
pub(crate) fn has_room(account: Account, kept: usize, more: usize) -> bool
    ensures { IsTrue result ↔ HasRoom account (kept + more) }
{
    let most = u64::MAX as u128;
    let total = account.sums.total();
    let lines = account.lines as u128;
    let bytes = kept as u128 + more as u128;
    total <= most && lines + 2 * bytes <= most - total
}
