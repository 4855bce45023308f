//! Tab stops: for each column whether it is one.
ghost use Rattle.std.specs.Prelude.{◌≡◌, ◌+◌, IfOk, OnErr, drop, false, replicate};
ghost use Rattle.esc_screen.specs.Cursors.{before_stop, eighths, stop_before};
ghost use Rattle.esc_screen.specs.Resized.{resized_tabs};
ghost use Rattle.fallible_alloc.specs.Refusals.{Refused};

use std::alloc::{AllocError, Allocator};

/// A stop in every eighth column.
pub(crate) fn set_eighths(tabs: &mut [bool])
    ensures { tabs.new ≡ eighths 0 tabs.old }
{
    for i in 0..tabs.len() {
        tabs[i] = i % 8 == 0;
    }
}

/// The first stop from a column on, or how many columns there are.
pub(crate) fn first_stop(tabs: &[bool], from: usize) -> usize
    ensures { result ≡ from + before_stop (drop from tabs.now) }
{
    for at in from..tabs.len() {
        if tabs[at] {
            return at;
        }
    }
    from.max(tabs.len())
}

/// The last stop before a column, or the first column.
pub(crate) fn last_stop(tabs: &[bool], before: u16) -> u16
    ensures { result ≡ stop_before tabs.now before }
{
    let mut at = before;
    while at > 0 {
        at -= 1;
        if let Some(true) = tabs.get(at as usize) {
            return at;
        }
    }
    0
}

/// A stop in every eighth of so many columns.
pub(crate) fn eighths<A: Allocator>(alloc: A, columns: usize) -> Result<Vec<bool, A>, AllocError>
    ensures ok { IfOk result (λ v. v.items ≡ eighths 0 (replicate columns false)) }
    ensures refused { OnErr result (Refused A) }
{
    let mut tabs = Vec::new(alloc);
    for _ in 0..columns {
        fallible_alloc::push(&mut tabs, false)?;
    }
    set_eighths(&mut tabs);
    Ok(tabs)
}

/// Returns the stops of so many columns: every eighth column is one of those that are new.
pub(crate) fn resized<A: Allocator>(
    tabs: &[bool],
    alloc: A,
    columns: usize,
) -> Result<Vec<bool, A>, AllocError>
    ensures ok { IfOk result (λ v. v.items ≡ resized_tabs columns tabs.now) }
    ensures refused { OnErr result (Refused A) }
{
    let mut all = fallible_alloc::copied(alloc, tabs)?;
    all.truncate(columns);
    for column in tabs.len()..columns {
        fallible_alloc::push(&mut all, column % 8 == 0)?;
    }
    Ok(all)
}
