//! The fate of a segment by a policy that says which actions pass.
#![tactic(auto)]

ghost use Rattle.std.specs.Prelude.{◌≡◌, ◌∷◌, ℕ, if◌then◌else◌, IfOk, IfSome, List, None, OnErr, Option, Some, false, true};
ghost use Rattle.esc_frame.specs.Segments.{AreSegments, Segment as Shape, is_finished, joined_bytes};
ghost use Rattle.esc_segments.specs.Items.{IsItem};
ghost use Rattle.esc_actions.specs.Readings.{reading_within};
ghost use Rattle.esc_actions.specs.Texts.{list_text};
ghost use Rattle.esc_actions.specs.Values.{osc, value_of};
ghost use Rattle.esc_osc.specs.Reading.{meaning as command_meant};
ghost use Rattle.esc_values.specs.Clear.{parts_of};
ghost use Rattle.fallible_alloc.specs.Refusals.{Refused};
ghost use Rattle.esc_filter.specs.Characters.{is_return, of_unicode};
ghost use Rattle.unicode_visibility.specs.Characters.{is_deceiving};
ghost use Rattle.esc_filter.specs.Passing.{is_line_feed};
ghost use Rattle.esc_account.specs.Rules.{before_next, drops, drops_returns, is_dropped, is_replaced, is_shown, is_written, last_instead, last_return, rule_of, shows, shows_returns, spelling_of};
ghost use Rattle.esc_account.specs.Weighed.{fate_by, facts_of_none, weighed_all};

use crate::command::{command_verdict, is_left_end};
use crate::fate::Fate;
use crate::judge::Judge;
use crate::reading::{is_csi, read_into, segment_text};
use crate::rendition::passed_rendition;
use crate::sequence::{left_sequence, sequence_verdict};
use crate::terminator::is_end;
use crate::text::text_run;
use crate::verdict::Verdict;
use crate::weighed::Weighed;
use crate::weighing::Weighing;
use esc_actions::{Action, ControlCode};
use esc_filter::{Admit, Guard, Returns, Unicode, is_deceiving, passes};
use esc_segments::{Segment, SegmentKind};
use std::alloc::{AllocError, Allocator, Global};
use unicode_visibility::may_follow;

/// Judges a segment as a filter with a policy does.
///
/// The actions of the segment tell it, as the filter reads them. A segment that means nothing of
/// its own is swallowed, whatever controls come within it: a string that nothing reads, a sequence
/// that is malformed or cut short, a control 80, 81 or 99, and a terminator that ends no string. A
/// segment is left out, whole, if any of its actions does not pass. If all of them pass, their text
/// is compared with the bytes of the segment.
#[derive(Drop)]
pub struct PolicyJudge<P, A: Allocator = Global> {
    policy: P,
    guard: Guard,
    limit: usize,
    by_lines: bool,
    alloc: A,
}

impl<P, A: Allocator> PolicyJudge<P, A> {
    ghost use Rattle.esc_account.specs.Judges.{GoesBy};

    /// Judges as a [`Filter`](esc_filter::Filter) does, which keeps at most `limit` bytes of a
    /// segment.
    pub fn new(alloc: A, limit: usize, policy: P, unicode: Unicode) -> Self
        ensures { GoesBy result false (of_unicode unicode) limit policy }
    {
        PolicyJudge::with_guard(alloc, limit, policy, Guard::of_unicode(unicode), false)
    }

    /// Judges as a [`LineFilter`](esc_filter::LineFilter) does, which writes the line feed of each
    /// line whatever the policy says.
    pub fn by_lines(alloc: A, limit: usize, policy: P, unicode: Unicode) -> Self
        ensures { GoesBy result true (of_unicode unicode) limit policy }
    {
        PolicyJudge::with_guard(alloc, limit, policy, Guard::of_unicode(unicode), true)
    }

    /// The one or the other, with `guard` for characters that deceive.
    pub fn with_guard(alloc: A, limit: usize, policy: P, guard: Guard, by_lines: bool) -> Self
        ensures { GoesBy result by_lines guard limit policy }
    {
        PolicyJudge {
            policy,
            guard,
            limit,
            by_lines,
            alloc,
        }
    }
}

impl<P: Admit<A>, A: Allocator + Copy> Judge<A> for PolicyJudge<P, A> {
    ghost rule = { λ j. rule_of j.by_lines j.guard j.limit (P.admits j.policy) };

    fn verdict(&self, before: Option<char>, segment: Segment<'_>) -> Result<Verdict, AllocError> {
        if !is_csi(segment.kind) {
            return self.other_verdict(before, segment);
        }
        match sequence_verdict(&self.policy, self.limit, before, segment) {
            Some(verdict) => Ok(verdict),
            None => self.other_verdict(before, segment),
        }
    }

    fn passing(&self, before: Option<char>, bytes: &[u8]) -> (usize, Option<char>) {
        text_run(&self.policy, before, bytes)
    }

    fn left_ahead(&self, bytes: &[u8]) -> usize {
        left_sequence(&self.policy, bytes)
    }

    fn passed_ahead(&self, bytes: &[u8]) -> usize {
        passed_rendition(&self.policy, bytes)
    }

    fn leaves_ends(&self) -> bool {
        self.policy.known().no_escapes
    }
}

impl<P: Admit<A>, A: Allocator + Copy> PolicyJudge<P, A> {
    // The verdict on a segment that is no control sequence which the policy knows.
    fn other_verdict(
        &self,
        before: Option<char>,
        segment: Segment<'_>,
    ) -> Result<Verdict, AllocError>
        ensures given { (g : Shape) (gs : List Shape) → AreSegments (g ∷ gs)
            → IsItem segment.entry g (joined_bytes gs) → IfOk result (λ v. v
            ≡ rule_of self.now.by_lines self.now.guard self.now.limit
            (P.admits self.now.policy) before g (is_finished g (joined_bytes gs))) }
        ensures refused { OnErr result (Refused A) }
    {
        if is_left_end(&self.policy, segment) {
            return Ok(Verdict {
                fate: Fate::LeftOut,
                before,
            });
        }
        match command_verdict(&self.policy, self.limit, before, segment) {
            Some(verdict) => Ok(verdict),
            None => self.any_verdict(before, segment),
        }
    }

    // The verdict on any segment, by its actions.
    fn any_verdict(&self, before: Option<char>, segment: Segment<'_>) -> Result<Verdict, AllocError>
        ensures given { (g : Shape) (gs : List Shape) → AreSegments (g ∷ gs)
            → IsItem segment.entry g (joined_bytes gs) → IfOk result (λ v. v
            ≡ rule_of self.now.by_lines self.now.guard self.now.limit
            (P.admits self.now.policy) before g (is_finished g (joined_bytes gs))) }
        ensures refused { OnErr result (Refused A) }
    {
        match self.weighed(before, segment) {
            Ok(weighed) => verdict_of(self.alloc, self.limit, segment, weighed),
            Err(error) => Err(error),
        }
    }

    /// Whether something is written of the command of this text, if the policy knows it.
    pub(crate) fn admits_command(&self, text: &[u8]) -> Option<bool>
        ensures { IfSome result (λ b. P.admits self.now.policy
            (osc (command_meant (parts_of text.now))) ≡ b) }
    {
        self.policy.admits_command(text)
    }

    // Says what is known of the actions of a segment that comes after this character.
    fn weighed(&self, before: Option<char>, segment: Segment<'_>) -> Result<Weighed, AllocError>
        ensures given { (g : Shape) (gs : List Shape) → AreSegments (g ∷ gs)
            → IsItem segment.entry g (joined_bytes gs) → IfOk result (λ w. w
            ≡ weighed_all self.now.by_lines self.now.guard (P.admits self.now.policy) before
            segment.entry.kind (facts_of_none before)
            (reading_within (Some self.now.limit) g (is_finished g (joined_bytes gs)))) }
        ensures refused { OnErr result (Refused A) }
    {
        let sink = Weighing::new(self, before, segment.kind);
        let again = sink.twin();
        match read_into(self.alloc, self.limit, segment, sink, again) {
            Ok(weighing) => Ok(weighing.weighed),
            Err(error) => Err(error),
        }
    }

    // The character that comes before what is written next, after this one and this action.
    pub(crate) fn before_next(&self, before: Option<char>, action: &Action<A>) -> Option<char>
        ensures { result ≡ before_next self.now.guard (P.admits self.now.policy) before
            (value_of action.now) }
    {
        if !passes(&self.policy, action) {
            return before;
        }
        match action {
            Action::Print(c) => last_character(self.guard.characters, before, *c),
            Action::Control(code) => last_control(self.guard.returns, before, *code),
            _ => None,
        }
    }

    /// Whether something is written of the action.
    pub fn writes(&self, action: &Action<A>) -> bool
        ensures { result ≡ is_written self.now.by_lines self.now.guard
            (P.admits self.now.policy) (value_of action.now) }
    {
        (self.by_lines && is_line_feed(action))
            || (passes(&self.policy, action) && !self.drops(action))
    }

    fn drops(&self, action: &Action<A>) -> bool
        ensures { result ≡ is_dropped self.now.guard (value_of action.now) }
    {
        match action {
            Action::Print(c) => drops(self.guard.characters) && is_deceiving(*c),
            Action::Control(code) => drops_returns(self.guard.returns) && is_return(*code),
            _ => false,
        }
    }

    // Whether visible text is written in place of the action, after this character.
    pub(crate) fn shows(&self, before: Option<char>, action: &Action<A>) -> bool
        ensures { result ≡ is_shown self.now.guard before (value_of action.now) }
    {
        match action {
            Action::Print(c) => is_deceiving(*c) && shows(self.guard.characters, before, *c),
            Action::Control(code) => shows_returns(self.guard.returns) && is_return(*code),
            _ => false,
        }
    }
}

// Says what becomes of a segment of whose actions this is known.
fn verdict_of<A: Allocator + Copy>(
    alloc: A,
    limit: usize,
    segment: Segment<'_>,
    weighed: Weighed,
) -> Result<Verdict, AllocError>
    ensures given { (g : Shape) (gs : List Shape) → AreSegments (g ∷ gs)
        → IsItem segment.entry g (joined_bytes gs) → IfOk result (λ v. v ≡ record {
          fate = fate_by weighed segment.entry.kind segment.entry.bytes.now (list_text {A = A}
              (reading_within (Some limit) g (is_finished g (joined_bytes gs))));
          before = weighed.last;
        }) }
    ensures refused { OnErr result (Refused A) }
{
    match fate_of(alloc, limit, segment, weighed) {
        Ok(fate) => Ok(Verdict {
            fate,
            before: weighed.last,
        }),
        Err(error) => Err(error),
    }
}

// Says what becomes of its bytes.
fn fate_of<A: Allocator + Copy>(
    alloc: A,
    limit: usize,
    segment: Segment<'_>,
    weighed: Weighed,
) -> Result<Fate, AllocError>
    ensures given { (g : Shape) (gs : List Shape) → AreSegments (g ∷ gs)
        → IsItem segment.entry g (joined_bytes gs) → IfOk result (λ f. f
        ≡ fate_by weighed segment.entry.kind segment.entry.bytes.now
        (list_text {A = A} (reading_within (Some limit) g
        (is_finished g (joined_bytes gs))))) }
    ensures refused { OnErr result (Refused A) }
{
    if !weighed.has_own {
        Ok(Fate::Swallowed)
    } else if !weighed.writes_all {
        Ok(Fate::LeftOut)
    } else if is_replaced(segment.kind) {
        Ok(Fate::Replaced)
    } else if weighed.shows_some {
        Ok(Fate::Shown)
    } else {
        spelling(alloc, limit, segment)
    }
}

// Says what becomes of the bytes of a segment whose text is written.
fn spelling<A: Allocator + Copy>(
    alloc: A,
    limit: usize,
    segment: Segment<'_>,
) -> Result<Fate, AllocError>
    ensures given { (g : Shape) (gs : List Shape) → AreSegments (g ∷ gs)
        → IsItem segment.entry g (joined_bytes gs) → IfOk result (λ f. f
        ≡ spelling_of segment.entry.bytes.now (list_text {A = A}
        (reading_within (Some limit) g (is_finished g (joined_bytes gs))))) }
    ensures refused { OnErr result (Refused A) }
{
    match segment_text(alloc, limit, segment) {
        Ok(text) => Ok(spelled(segment.bytes, text.as_bytes())),
        Err(error) => Err(error),
    }
}

fn drops(unicode: Unicode) -> bool
    ensures { result ≡ drops unicode }
{
    matches!(unicode, Unicode::Drop)
}

fn drops_returns(returns: Returns) -> bool
    ensures { result ≡ drops_returns returns }
{
    matches!(returns, Returns::Drop)
}

// Whether a character that deceives is shown by its number, after this one.
fn shows(unicode: Unicode, before: Option<char>, c: char) -> bool
    ensures { result ≡ shows unicode before c }
{
    match unicode {
        Unicode::Show => true,
        Unicode::Join => !may_follow(before, c),
        Unicode::Keep | Unicode::Drop => false,
    }
}

// The character that is written last of this one, after that before it.
fn last_character(unicode: Unicode, before: Option<char>, c: char) -> Option<char>
    ensures { result ≡ (if is_deceiving c then last_instead unicode before c else Some c) }
{
    if !is_deceiving(c) {
        return Some(c);
    }
    match unicode {
        Unicode::Keep => Some(c),
        Unicode::Join => Some(if may_follow(before, c) { c } else { '>' }),
        Unicode::Show => Some('>'),
        Unicode::Drop => before,
    }
}

// The same of a control.
fn last_control(returns: Returns, before: Option<char>, code: ControlCode) -> Option<char>
    ensures { result ≡ (if is_return code then last_return returns before else None) }
{
    if !is_return(code) {
        return None;
    }
    match returns {
        Returns::Keep => None,
        Returns::Show => Some('M'),
        Returns::Drop => before,
    }
}

fn shows_returns(returns: Returns) -> bool
    ensures { result ≡ shows_returns returns }
{
    matches!(returns, Returns::Show)
}

fn is_return(code: ControlCode) -> bool
    ensures { result ≡ is_return code }
{
    matches!(code, ControlCode::CarriageReturn)
}

fn is_line_feed<A: Allocator>(action: &Action<A>) -> bool
    ensures { result ≡ is_line_feed (value_of action.now) }
{
    matches!(action, Action::Control(ControlCode::LineFeed))
}

// Whether the replacement character stands for the segment.
fn is_replaced(kind: SegmentKind) -> bool
    ensures { result ≡ is_replaced kind }
{
    matches!(kind, SegmentKind::Broken | SegmentKind::Stray)
}

// Says what becomes of bytes that are written as this text.
fn spelled(bytes: &[u8], text: &[u8]) -> Fate
    ensures { result ≡ spelling_of bytes.now text.now }
{
    let end = text.len().saturating_sub(2);
    if text == bytes || (is_end(&text[end..]) && &text[..end] == bytes) {
        Fate::Passed
    } else {
        Fate::Respelled
    }
}
