//! The fate of a segment by the options.
ghost use Rattle.std.specs.Prelude.{◌≡◌, is_some};
ghost use Rattle.esc_account.specs.Rules.{is_written};
ghost use Rattle.esc_actions.specs.Values.{value_of};
ghost use Rattle.esc_sanitize.specs.Fates.{as_itself, before_shown, is_seen, last_shown, shown_as, shown_by};

use crate::options::FilterOptions;
use caret_notation::Marking;
use esc_account::{Fate, Judge, PolicyJudge, Verdict};
use esc_actions::Action;
use esc_filter::Admit;
use esc_segments::Segment;
use std::alloc::{AllocError, Allocator, Global};

/// Judges a segment as the filter does, but that bytes that are not in the output as themselves may
/// be shown.
#[derive(Drop)]
pub struct Judging<P, A: Allocator = Global> {
    policy: PolicyJudge<P, A>,
    show: Option<Marking>,
}

impl<P: Admit<A>, A: Allocator + Copy> Judging<P, A> {
    ghost use Rattle.esc_account.specs.Judges.{GoesBy};
    ghost use Rattle.esc_sanitize.specs.Judged.{judged_rule, rule_by};

    /// By these options.
    pub fn new(alloc: A, options: FilterOptions<P>) -> Judging<P, A>
        ensures rule { judged_rule P.Admit result ≡ rule_by P.Admit options }
        ensures goes_by { GoesBy result.policy options.by_lines options.guard options.limit
            options.policy }
    {
        let FilterOptions {
            policy,
            limit,
            by_lines,
            resumes: _,
            guard,
            show,
            encoding: _,
            window: _,
            audits: _,
        } = options;
        Judging {
            policy: PolicyJudge::with_guard(alloc, limit, policy, guard, by_lines),
            show,
        }
    }

    /// Whether something is written of the action.
    pub fn writes(&self, action: &Action<A>) -> bool
        ensures { result ≡ is_written self.now.policy.by_lines self.now.policy.guard
            (P.admits self.now.policy.policy) (value_of action.now) }
    {
        self.policy.writes(action)
    }
}

impl<P: Admit<A>, A: Allocator + Copy> Judge<A> for Judging<P, A> {
    ghost use Rattle.esc_sanitize.specs.Judged.{judged_rule};

    ghost rule = { λ j. judged_rule P.Admit j };

    fn verdict(&self, before: Option<char>, segment: Segment<'_>) -> Result<Verdict, AllocError> {
        match self.policy.verdict(before, segment) {
            Ok(verdict) => Ok(shown_as(self.show, segment.bytes, verdict)),
            Err(error) => Err(error),
        }
    }

    fn passing(&self, before: Option<char>, bytes: &[u8]) -> (usize, Option<char>) {
        self.policy.passing(before, bytes)
    }

    fn left_ahead(&self, bytes: &[u8]) -> usize {
        if self.show.is_some() {
            return 0;
        }
        self.policy.left_ahead(bytes)
    }

    fn passed_ahead(&self, bytes: &[u8]) -> usize {
        self.policy.passed_ahead(bytes)
    }

    fn leaves_ends(&self) -> bool {
        if self.show.is_some() {
            return false;
        }
        self.policy.leaves_ends()
    }
}

// Judges a segment of these bytes, if bytes that are not in the output may be shown.
fn shown_as(show: Option<Marking>, bytes: &[u8], verdict: Verdict) -> Verdict
    ensures { result ≡ shown_as show bytes.now verdict }
{
    let shows = show.is_some();
    Verdict {
        fate: shown_by(shows, verdict.fate),
        before: if is_seen(shows, verdict.fate) {
            before_shown(show, bytes)
        } else {
            verdict.before
        },
    }
}

// Whether what has this fate is shown, though it is not in the output.
fn is_seen(shows: bool, fate: Fate) -> bool
    ensures { result ≡ is_seen shows fate }
{
    shows && matches!(fate, Fate::LeftOut | Fate::Swallowed | Fate::Replaced)
}

// Returns the fate of bytes of this fate, if bytes that are not in the output may be shown.
fn shown_by(shows: bool, fate: Fate) -> Fate
    ensures { result ≡ shown_by shows fate }
{
    match fate {
        Fate::LeftOut | Fate::Swallowed | Fate::Replaced => {
            if shows { Fate::Shown } else { fate }
        }
        Fate::Passed | Fate::Respelled | Fate::Shown | Fate::Overwritten => fate,
    }
}

// The character that comes before what is written next, after these bytes are shown.
fn before_shown(show: Option<Marking>, bytes: &[u8]) -> Option<char>
    ensures { result ≡ before_shown show bytes.now }
{
    match show {
        Some(Marking::Plain | Marking::Escaped) => last_shown(bytes),
        Some(Marking::Reversed) | None => None,
    }
}

// The last of the bytes, where it is shown as itself.
fn last_shown(bytes: &[u8]) -> Option<char>
    ensures { result ≡ last_shown bytes.now }
{
    if bytes.is_empty() {
        return None;
    }
    as_itself(bytes[bytes.len() - 1])
}

// The byte, where it is a character of ASCII that shows.
fn as_itself(byte: u8) -> Option<char>
    ensures { result ≡ as_itself byte }
{
    if 0x20 <= byte && byte < 0x7f {
        Some(char::from(byte))
    } else {
        None
    }
}
