//! This module says whether a span of a stream is kept.
ghost use Rattle.std.specs.Prelude.{◌≡◌, ◌&&◌, ◌++◌, ◌<◌, ◌≤◌, ℕ, List, [], IfOk, IfSome, OnErr, OnOk, Some, false, length, take};
ghost use Rattle.esc_actions.specs.Values.{plain, value_of};
ghost use Rattle.esc_frame.specs.Stream.{IsQuietWithin, HasConsumedWithin};
ghost use Rattle.esc_parse.specs.Fed.{Hooks};
ghost use Rattle.caret_notation.specs.Judged.{HasJudged, HasJudgedSome, IsQuietTo, begun, verdict_with, noted_verdict};
ghost use Rattle.caret_notation.specs.Revealed.{are_kept, goes_through};
ghost use Rattle.esc_filter.specs.Passing.{passes};
ghost use Rattle.esc_normal.specs.Normalising.{normal_form};
ghost use Rattle.caret_notation.specs.Spelled.{is_spelled};
ghost use Rattle.esc_actions.specs.Meaning.{meaning_within};
ghost use Rattle.fallible_alloc.specs.Refusals.{Refused};

use crate::spelled::is_spelled;
use esc_actions::{Action, ControlCode};
use esc_filter::{Admit, passes};
use esc_frame::VTParser;
use esc_parse::Sink;
use esc_parse::performer::Performer;
use esc_parse::unfinished::Unfinished;
use esc_values::CsiParam;
use std::alloc::{AllocError, Allocator};

/// The verdict about the actions so far.
#[derive(Clone, Copy)]
pub(crate) struct Verdict {
    /// Says whether there are any.
    pub some: bool,
    /// Says whether each goes through.
    pub all: bool,
    /// Says whether the last one is a string.
    pub follows: bool,
}

impl Verdict {
    // Returns the verdict about no action.
    fn begun() -> Verdict
        ensures { result ≡ begun }
    {
        Verdict {
            some: false,
            all: true,
            follows: false,
        }
    }

    // Returns the verdict after more actions, which pass or do not; `is_string` says whether the
    // last one is a string.
    fn with(self, passes: bool, is_string: bool) -> Verdict
        ensures { result ≡ noted_verdict passes is_string self }
    {
        Verdict {
            some: true,
            all: self.all && passes,
            follows: is_string,
        }
    }

    // Returns whether a span with these actions may stay.
    fn keeps(self) -> bool
        ensures { result ≡ (self.some && self.all) }
    {
        self.some && self.all
    }
}

/// Asks a policy of each action.
#[derive(Drop)]
pub(crate) struct Judge<'p, P> {
    /// The verdict so far.
    pub verdict: Verdict,
    /// The policy that admits them.
    pub policy: &'p P,
}

impl<'p, P: Admit<A>, A: Allocator> Sink<Action<A>> for Judge<'p, P> {
    ghost is_ready = { λ _. Unit {0} };

    ghost may = { λ _ _. Unit {0} };

    ghost takes = { λ p a q. (q.verdict
        ≡ verdict_with (P.admits p.policy.now) p.verdict (value_of a))
        × (q.policy.now ≡ p.policy.now) };

    ghost refuses = { λ _ _ _. ⊥ };

    fn receive(&mut self, action: Action<A>) -> Result<(), AllocError> {
        self.verdict = verdict_with(self.policy, self.verdict, action);
        Ok(())
    }

    // Each passes, or none does, so none is made.
    fn receive_sequence(
        &mut self,
        params: &[CsiParam],
        parameters_truncated: bool,
        control: u8,
    ) -> Result<bool, AllocError> {
        if parameters_truncated {
            return Ok(false);
        }
        let Some(passes) = self.policy.admits_sequence(params, control) else {
            return Ok(false);
        };
        self.verdict = self.verdict.with(passes, false);
        Ok(true)
    }

    // Does the same for a command.
    fn receive_command(&mut self, text: &[u8]) -> Result<bool, AllocError> {
        let Some(passes) = self.policy.admits_command(text) else {
            return Ok(false);
        };
        self.verdict = self.verdict.with(passes, true);
        Ok(true)
    }

    // The next methods do as by default, and are written out: at the type of an action, a method
    // that is taken over from the trait costs a proof some seconds more.
    #[inline]
    fn receive_text(&mut self, text: &[u8]) -> Result<(), AllocError> {
        for b in text {
            self.verdict = verdict_with::<_, A>(
                self.policy,
                self.verdict,
                Action::Print(*b as char),
            );
        }
        Ok(())
    }

    #[inline]
    fn receive_str(&mut self, text: &str) -> Result<(), AllocError> {
        for c in text.chars() {
            self.verdict = verdict_with::<_, A>(self.policy, self.verdict, Action::Print(c));
        }
        Ok(())
    }

    #[inline]
    fn drops_sequences(&self, _control: u8) -> bool {
        false
    }

    #[inline]
    fn drops_images(&self) -> bool {
        false
    }
}

// Returns the verdict with one action more.
fn verdict_with<P: Admit<A>, A: Allocator>(
    policy: &P,
    verdict: Verdict,
    action: Action<A>,
) -> Verdict
    ensures { result ≡ verdict_with (P.admits policy.now) verdict (value_of action) }
{
    let goes = goes_through(policy, verdict.follows, &action);
    verdict.with(goes, action.is_string())
}

// Returns whether an action passes, or is the terminator of the string that comes before it, if
// `follows` says that one does.
fn goes_through<P: Admit<A>, A: Allocator>(policy: &P, follows: bool, action: &Action<A>) -> bool
    ensures { result ≡ goes_through (P.admits policy.now) follows (value_of action.now) }
{
    if action.is_terminator() {
        follows
    } else {
        passes(policy, action)
    }
}

// Returns whether an action passes. It is dropped here, and not in the caller, which has other
// ways to return.
fn passes_itself<P: Admit<A>, A: Allocator>(policy: &P, action: Action<A>) -> bool
    ensures { result ≡ passes (P.admits policy.now) (value_of action) }
{
    passes(policy, &action)
}

// Returns a performer that asks this policy about actions, and was given none.
fn unasked<P, A: Allocator + Copy>(alloc: A, policy: &P, limit: usize) -> Performer<Judge<'_, P>, A>
    ensures hooks { Hooks (Some limit) result.unfinished plain }
    ensures verdict { result.sink.verdict ≡ begun }
    ensures policy { result.sink.policy.now ≡ policy.now }
{
    Performer {
        sink: Judge {
            verdict: Verdict::begun(),
            policy,
        },
        alloc,
        unfinished: Unfinished::new(Some(limit)),
    }
}

/// Frames the bytes that come first, if no segment is unfinished, up to the end of a span or to
/// the last byte, and asks the policy about their meaning. It returns their number, and whether
/// they mean something, all of which passes.
pub(crate) fn judge_span<P: Admit<A>, A: Allocator + Copy>(
    alloc: A,
    framer: &mut VTParser<A>,
    policy: &P,
    limit: usize,
    bytes: &[u8],
) -> Result<(usize, bool), AllocError>
    requires { 0 < length bytes.now }
    ensures count { IfOk result (λ x. (0 < x.0) × (x.0 ≤ length bytes.now)) }
    ensures given { HasConsumedWithin (Some limit) [] framer.old → IfOk result
        (HasJudgedSome P.Admit policy.now limit bytes.now framer.new) }
    ensures refused { HasConsumedWithin (Some limit) [] framer.old → OnErr result (Refused A) }
{
    if let Some(passes) = judge_control(framer, policy, bytes) {
        return Ok((1, passes));
    }
    let mut performer = unasked(alloc, policy, limit);
    let count = judge_up_to_end(framer, &mut performer, bytes);
    let keeps = performer.sink.verdict.keeps();
    match count {
        Ok(count) => Ok((count, keeps)),
        Err(error) => Err(error),
    }
}

// Frames the bytes up to the end of a span or to the last byte, and returns their number.
fn judge_up_to_end<P: Admit<A>, A: Allocator + Copy>(
    framer: &mut VTParser<A>,
    performer: &mut Performer<Judge<'_, P>, A>,
    bytes: &[u8],
) -> Result<usize, AllocError>
    requires { 0 < length bytes.now }
    ensures count { IfOk result (λ n. (0 < n) × (n ≤ length bytes.now)) }
    ensures given { (limit : ℕ) → HasJudged P.Admit limit [] framer.old performer.old
        → IfOk result (λ n. HasJudged P.Admit limit (take n bytes.now) framer.new performer.new
        × (performer.new.sink.policy.now ≡ performer.old.sink.policy.now)
        × IsQuietTo n bytes.now) }
    ensures refused { (limit : ℕ) → HasJudged P.Admit limit [] framer.old performer.old
        → OnErr result (Refused A) }
{
    let mut at = 0;
    while at < bytes.len() {
        let n = judge_some(framer, performer, &bytes[at..])?;
        at += n;
        if framer.is_ground() {
            return Ok(at);
        }
    }
    Ok(at)
}

// Returns whether the control that comes first passes. None if none comes first.
fn judge_control<P: Admit<A>, A: Allocator>(
    framer: &VTParser<A>,
    policy: &P,
    bytes: &[u8],
) -> Option<bool>
    ensures { (limit : ℕ) → HasConsumedWithin (Some limit) [] framer.now → IfSome result
        (λ k. HasConsumedWithin (Some limit) (take 1 bytes.now) framer.now × (k
        ≡ are_kept (P.admits policy.now) (meaning_within (Some limit) (take 1 bytes.now)))) }
{
    let code = ControlCode::from_byte(framer.first_control(bytes)?)?;
    Some(passes_itself::<_, A>(policy, Action::Control(code)))
}

// Frames some of these bytes, at least one.
fn judge_some<P: Admit<A>, A: Allocator + Copy>(
    framer: &mut VTParser<A>,
    performer: &mut Performer<Judge<'_, P>, A>,
    bytes: &[u8],
) -> Result<usize, AllocError>
    requires { 0 < length bytes.now }
    ensures count { IfOk result (λ n. (0 < n) × (n ≤ length bytes.now)) }
    ensures given { (limit : ℕ) (s : List ℕ)
        → HasJudged P.Admit limit s framer.old performer.old → IfOk result
        (λ n. HasJudged P.Admit limit (s ++ take n bytes.now) framer.new performer.new
        × (performer.new.sink.policy.now ≡ performer.old.sink.policy.now)
        × IsQuietWithin (Some limit) s bytes.now n) }
    ensures refused { (limit : ℕ) (s : List ℕ)
        → HasJudged P.Admit limit s framer.old performer.old → OnErr result (Refused A) }
{
    match framer.parse_some(bytes, performer) {
        Ok(n) => Ok(n),
        Err(_) => Err(AllocError),
    }
}

// Frames these bytes.
fn judge_all<P: Admit<A>, A: Allocator + Copy>(
    framer: &mut VTParser<A>,
    performer: &mut Performer<Judge<'_, P>, A>,
    bytes: &[u8],
) -> Result<(), AllocError>
    ensures given { (limit : ℕ) (s : List ℕ)
        → HasJudged P.Admit limit s framer.old performer.old → OnOk result
        (HasJudged P.Admit limit (s ++ bytes.now) framer.new performer.new
        × (performer.new.sink.policy.now ≡ performer.old.sink.policy.now)) }
    ensures refused { (limit : ℕ) (s : List ℕ)
        → HasJudged P.Admit limit s framer.old performer.old → OnErr result (Refused A) }
{
    let mut at = 0;
    while at < bytes.len() {
        let n = judge_some(framer, performer, &bytes[at..])?;
        at += n;
    }
    Ok(())
}

/// Returns whether the span, which the framer was fed, stays: each value that it means goes
/// through, and all of its bytes are in the text of these. The framer was fed it again.
pub(crate) fn stays_spelled<P: Admit<A>, A: Allocator + Copy>(
    alloc: A,
    framer: &mut VTParser<A>,
    policy: &P,
    limit: usize,
    span: &[u8],
) -> Result<bool, AllocError>
    ensures kept { HasConsumedWithin (Some limit) span.now framer.old → IfOk result
        (λ k. HasConsumedWithin (Some limit) span.now framer.new × (k
        ≡ (are_kept (P.admits policy.now) (meaning_within (Some limit) span.now)
        && is_spelled span.now (normal_form A (Some limit) span.now)))) }
    ensures refused { HasConsumedWithin (Some limit) span.now framer.old
        → OnErr result (Refused A) }
{
    let keeps = stays(alloc, framer, policy, limit, span)?;
    if keeps {
        is_spelled(alloc, limit, span)
    } else {
        Ok(false)
    }
}

// Returns whether the span means values, and each of them goes through.
fn stays<P: Admit<A>, A: Allocator + Copy>(
    alloc: A,
    framer: &mut VTParser<A>,
    policy: &P,
    limit: usize,
    span: &[u8],
) -> Result<bool, AllocError>
    ensures kept { HasConsumedWithin (Some limit) span.now framer.old → IfOk result
        (λ k. HasConsumedWithin (Some limit) span.now framer.new
        × (k ≡ are_kept (P.admits policy.now) (meaning_within (Some limit) span.now))) }
    ensures refused { HasConsumedWithin (Some limit) span.now framer.old
        → OnErr result (Refused A) }
{
    framer.restart();
    let mut performer = unasked(alloc, policy, limit);
    let done = judge_all(framer, &mut performer, span);
    let keeps = performer.sink.verdict.keeps();
    match done {
        Ok(()) => Ok(keeps),
        Err(error) => Err(error),
    }
}
