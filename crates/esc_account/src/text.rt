//! Text that a policy lets pass, at once.
#![tactic(auto)]

ghost use Rattle.std.specs.Prelude.{◌≡◌, ◌≤◌, ◌<◌, ◌==◌, if◌then◌else◌, ℕ, Bool, IsTrue, None, length, take, true};
ghost use Rattle.std.specs.List.{list_all};
ghost use Rattle.esc_actions.specs.Values.{control, print};
ghost use Rattle.esc_frame.specs.Machine.Characters.{IsAhead};
ghost use Rattle.esc_frame.specs.Scans.{is_data_byte};
ghost use Rattle.esc_filter.specs.declared.guard.Guard.{Guard};
ghost use Rattle.esc_account.specs.Passing.{IsPassing};
ghost use Rattle.esc_account.specs.Rules.{rule_of};

use crate::first::after;
use esc_actions::{Action, ControlCode};
use esc_filter::{Admit, is_deceiving};
use esc_frame::runs::scans::data_run;
use esc_frame::utf8::sequence::{ahead, ahead_of_few};
use std::alloc::Allocator;

// How many bytes are looked at before the policy is asked of them.
const MOST: usize = 256;

/// Counts the first characters, tabs and line feeds that the policy admits and that do not deceive;
/// and returns the character before the next text.
pub(crate) fn text_run<P: Admit<A>, A: Allocator>(
    policy: &P,
    before: Option<char>,
    bytes: &[u8],
) -> (usize, Option<char>)
    ensures few { result.0 ≤ length bytes.now }
    ensures pass { (by_lines : Bool) (u : Guard) (limit : ℕ) → IsPassing
        (rule_of by_lines u limit (P.admits policy.now)) before (take result.0 bytes.now) result.1 }
{
    let mut at = 0;
    let mut last = before;
    while at < bytes.len() && bytes[at] != 0x1b {
        let (run, next) = run_ahead(policy, last, after(bytes, at));
        if run == 0 {
            return (at, last);
        }
        at += run;
        last = next;
    }
    (at, last)
}

// The same of a run of bytes 20 to 7E, or of one tab, line feed or character of more bytes.
fn run_ahead<P: Admit<A>, A: Allocator>(
    policy: &P,
    before: Option<char>,
    bytes: &[u8],
) -> (usize, Option<char>)
    ensures few { result.0 ≤ length bytes.now }
    ensures pass { (by_lines : Bool) (u : Guard) (limit : ℕ) → IsPassing
        (rule_of by_lines u limit (P.admits policy.now)) before (take result.0 bytes.now) result.1 }
{
    let run = data_ahead(bytes);
    if run == 0 {
        return single_ahead(policy, before, bytes);
    }
    if admits_run(policy, &bytes[..run]) {
        (run, Some(bytes[run - 1] as char))
    } else {
        (0, before)
    }
}

// Whether the policy admits each of these bytes 20 to 7E.
#[inline]
fn admits_run<P: Admit<A>, A: Allocator>(policy: &P, text: &[u8]) -> bool
    requires { list_all is_data_byte text.now ≡ true }
    ensures { IsTrue result → list_all (λ c. P.admits policy.now (print c)) text.now ≡ true }
{
    if policy.known().text {
        return true;
    }
    policy.admits_text(text)
}

// The same of a tab, a line feed or a character of more bytes.
fn single_ahead<P: Admit<A>, A: Allocator>(
    policy: &P,
    before: Option<char>,
    bytes: &[u8],
) -> (usize, Option<char>)
    ensures few { result.0 ≤ length bytes.now }
    ensures pass { (by_lines : Bool) (u : Guard) (limit : ℕ) → IsPassing
        (rule_of by_lines u limit (P.admits policy.now)) before (take result.0 bytes.now) result.1 }
{
    if bytes.is_empty() {
        return (0, before);
    }
    if bytes[0] == 0x09 {
        return control_ahead(policy, before, ControlCode::HorizontalTab);
    }
    if bytes[0] == 0x0a {
        return control_ahead(policy, before, ControlCode::LineFeed);
    }
    if bytes[0] < 0xc2 {
        return (0, before);
    }
    wide_ahead(policy, before, bytes)
}

// 1 where the policy admits the control.
fn control_ahead<P: Admit<A>, A: Allocator>(
    policy: &P,
    before: Option<char>,
    code: ControlCode,
) -> (usize, Option<char>)
    ensures few { result.0 ≤ 1 }
    ensures admits { 0 < result.0 → P.admits policy.now (control code) ≡ true }
    ensures last { result.1 ≡ (if result.0 == 0 then before else None) }
{
    let action: Action<A> = Action::Control(code);
    if policy.admits(&action) {
        (1, None)
    } else {
        (0, before)
    }
}

// How many bytes 20 to 7E come first, of those that are looked at.
fn data_ahead(bytes: &[u8]) -> usize
    ensures few { result ≤ length bytes.now }
    ensures data { list_all is_data_byte (take result bytes.now) ≡ true }
{
    let most = bytes.len().min(MOST);
    data_run(&bytes[..most])
}

// The length of the character that comes first, of more than one byte.
fn wide_ahead<P: Admit<A>, A: Allocator>(
    policy: &P,
    before: Option<char>,
    bytes: &[u8],
) -> (usize, Option<char>)
    ensures few { result.0 ≤ length bytes.now }
    ensures pass { (by_lines : Bool) (u : Guard) (limit : ℕ) → IsPassing
        (rule_of by_lines u limit (P.admits policy.now)) before (take result.0 bytes.now) result.1 }
{
    let (count, c) = character_ahead(bytes);
    if count == 0 {
        return (0, before);
    }
    if is_deceiving(c) {
        return (0, before);
    }
    let action: Action<A> = Action::Print(c);
    if policy.admits(&action) {
        (count, Some(c))
    } else {
        (0, before)
    }
}

// A whole sequence of UTF-8 that comes first and is no control, its length and its character; 0
// where there is none.
fn character_ahead(bytes: &[u8]) -> (usize, char)
    ensures { IsAhead bytes.now result.0 result.1 }
{
    if bytes.len() < 4 {
        ahead_of_few(bytes)
    } else {
        ahead(bytes)
    }
}
