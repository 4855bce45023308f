//! Operating system commands that a policy leaves out, by their text.
#![tactic(auto)]

ghost use Rattle.std.specs.Prelude.{◌≡◌, ◌+◌, ◌∷◌, ℕ, Bool, IfSome, IsTrue, List, None, Option, length, true};
ghost use Rattle.std.specs.List.{list_all};
ghost use Rattle.esc_frame.specs.Scans.{is_data_byte};
ghost use Rattle.esc_frame.specs.Segments.{AreSegments, Segment as Shape, is_finished, joined_bytes};
ghost use Rattle.esc_segments.specs.Items.{IsItem};
ghost use Rattle.esc_segments.specs.declared.kind.SegmentKind.TheVariants as kinds;
ghost use Rattle.esc_write.specs.Plain.{IsVerbatim};
ghost use Rattle.esc_filter.specs.declared.guard.Guard.{Guard};
ghost use Rattle.esc_account.specs.AtOnce.{IsTextOf, is_text_end};
ghost use Rattle.esc_account.specs.Passing.{passed_as};
ghost use Rattle.esc_account.specs.Rules.{left_as, rule_of};

use crate::fate::Fate;
use crate::first::after;
use crate::terminator::is_end;
use crate::verdict::Verdict;
use esc_filter::Admit;
use esc_frame::runs::scans::data_run;
use esc_segments::{Segment, SegmentKind};
use esc_write::is_plain_link;
use std::alloc::Allocator;

/// Returns the verdict on an operating system command of bytes 20 to 7E after `ESC ]`, if its text
/// tells the policy that it does not pass.
pub(crate) fn command_verdict<P: Admit<A>, A: Allocator>(
    policy: &P,
    limit: usize,
    before: Option<char>,
    segment: Segment<'_>,
) -> Option<Verdict>
    ensures { (lined : Bool) (u : Guard) (g : Shape) (gs : List Shape) → AreSegments (g ∷ gs)
        → IsItem segment.entry g (joined_bytes gs) → IfSome result (λ v. v
        ≡ rule_of lined u limit (P.admits policy.now) before g (is_finished g (joined_bytes gs))) }
{
    if !segment.finished || !is_osc(segment.kind) {
        return None;
    }
    let Some(text) = text_of(segment.bytes) else {
        return None;
    };
    if text.len() > limit {
        return None;
    }
    match policy.admits_command(text) {
        Some(false) => Some(Verdict {
            fate: Fate::LeftOut,
            before,
        }),
        Some(true) => passed_link::<A>(text, segment.bytes.len()),
        None => None,
    }
}

// The verdict on a command of this text that passes, where it is a plain link of so many bytes, and
// no BEL ends it: it is written as it came.
fn passed_link<A: Allocator>(text: &[u8], count: usize) -> Option<Verdict>
    requires { list_all is_data_byte text.now ≡ true }
    ensures { IfSome result (λ v. (v ≡ passed_as None)
        × (IsVerbatim A text.now × (count ≡ length text.now + 2))) }
{
    if count != text.len() + 2 || !is_plain_link::<A>(text) {
        return None;
    }
    Some(Verdict {
        fate: Fate::Passed,
        before: None,
    })
}

/// Whether it is `ESC \`, and the policy lets no escape sequence pass.
pub(crate) fn is_left_end<P: Admit<A>, A: Allocator>(policy: &P, segment: Segment<'_>) -> bool
    ensures { IsTrue result → (lined : Bool) (u : Guard) (limit : ℕ) (b : Option ℕ) (g : Shape)
        (gs : List Shape) → AreSegments (g ∷ gs) → IsItem segment.entry g (joined_bytes gs)
        → left_as b
        ≡ rule_of lined u limit (P.admits policy.now) b g (is_finished g (joined_bytes gs)) }
{
    if !policy.known().no_escapes {
        return false;
    }
    if !is_escape(segment.kind) {
        return false;
    }
    is_end(segment.bytes)
}

fn is_escape(kind: SegmentKind) -> bool
    ensures { IsTrue result → kind ≡ kinds.Escape }
{
    matches!(kind, SegmentKind::Escape)
}

fn is_osc(kind: SegmentKind) -> bool
    ensures { IsTrue result → kind ≡ kinds.Osc }
{
    matches!(kind, SegmentKind::Osc)
}

// The text of a command of these bytes, where they are `ESC ]`, bytes 20 to 7E, and BEL or nothing.
fn text_of(bytes: &[u8]) -> Option<&[u8]>
    ensures each { IfSome result (λ t. list_all is_data_byte t.now ≡ true) }
    ensures text { IfSome result (λ t. IsTextOf bytes.now t.now) }
{
    if bytes.len() < 3 || bytes[0] != 0x1b || bytes[1] != b']' {
        return None;
    }
    let rest = after(bytes, 2);
    let run = data_run(rest);
    if is_text_end(after(rest, run)) {
        Some(&rest[..run])
    } else {
        None
    }
}

// Whether it is nothing, or BEL alone.
fn is_text_end(bytes: &[u8]) -> bool
    ensures { result ≡ is_text_end bytes.now }
{
    bytes.is_empty() || (bytes.len() == 1 && bytes[0] == 0x07)
}
