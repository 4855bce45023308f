//! A sink that notes facts about the actions of a segment, and keeps none of them.
#![tactic(auto)]

ghost use Rattle.std.specs.Prelude.{◌≡◌, if◌then◌else◌, None};
ghost use Rattle.esc_actions.specs.Values.{osc, value_of};
ghost use Rattle.esc_osc.specs.declared.command.OperatingSystemCommand.{OperatingSystemCommand};
ghost use Rattle.esc_account.specs.Rules.{is_control, is_lone, is_own};
ghost use Rattle.esc_account.specs.Weighings.{BeginsWeighing, Weighs};

use crate::policy_judge::PolicyJudge;
use crate::weighed::Weighed;
use esc_actions::Action;
use esc_filter::Admit;
use esc_parse::Sink;
use esc_segments::SegmentKind;
use esc_values::CsiParam;
use std::alloc::{AllocError, Allocator, Global};

/// Weighs the actions of a segment, one after another, by a judge.
#[derive(Drop)]
pub(crate) struct Weighing<'j, P, A: Allocator = Global> {
    judge: &'j PolicyJudge<P, A>,
    before: Option<char>,
    kind: SegmentKind,
    pub weighed: Weighed,
}

impl<'j, P: Admit<A>, A: Allocator + Copy> Weighing<'j, P, A> {
    /// No action yet, in a segment of this kind that comes after this character.
    pub fn new(
        judge: &'j PolicyJudge<P, A>,
        before: Option<char>,
        kind: SegmentKind,
    ) -> Weighing<'j, P, A>
        ensures { BeginsWeighing result judge.now before kind }
    {
        Weighing {
            judge,
            before,
            kind,
            weighed: Weighed::unweighed(before),
        }
    }

    /// Returns the same value again.
    pub fn twin(&self) -> Weighing<'j, P, A>
        ensures { result ≡ self.now }
    {
        Weighing {
            judge: self.judge,
            before: self.before,
            kind: self.kind,
            weighed: self.weighed,
        }
    }

    fn weigh(&mut self, action: Action<A>)
        ensures { Weighs P.admits self.old (value_of action) self.new }
    {
        let Weighed {
            has_own,
            writes_all,
            shows_some,
            last,
        } = self.weighed;
        let is_own = is_own(self.kind, &action);
        let writes = self.judge.writes(&action);
        let shows = self.judge.shows(self.before, &action);
        self.weighed = Weighed {
            has_own: has_own | is_own,
            writes_all: writes_all & writes,
            shows_some: shows_some | shows,
            last: self.judge.before_next(last, &action),
        };
    }
}

impl<'j, P: Admit<A>, A: Allocator + Copy> Weighing<'j, P, A> {
    // Weighs a command that passes, or that does not.
    fn weigh_command(&mut self, passes: bool)
        ensures { (c : OperatingSystemCommand A)
            → P.admits self.old.judge.now.policy (osc c) ≡ passes
            → Weighs P.admits self.old (osc c) self.new }
    {
        let Weighed {
            has_own: _,
            writes_all,
            shows_some,
            last,
        } = self.weighed;
        self.weighed = Weighed {
            has_own: true,
            writes_all: writes_all & passes,
            shows_some,
            last: last_after(passes, last),
        };
    }
}

impl<'j, P: Admit<A>, A: Allocator + Copy> Sink<Action<A>> for Weighing<'j, P, A> {
    ghost is_ready = { λ _. Unit {0} };

    ghost may = { λ _ _. Unit {0} };

    ghost takes = { λ p a q. Weighs P.admits p (value_of a) q };

    ghost refuses = { λ _ _ _. ⊥ };

    fn receive(&mut self, action: Action<A>) -> Result<(), AllocError> {
        self.weigh(action);
        Ok(())
    }

    // The next methods do as by default, and are written out: at the type of an action, a method
    // that is taken over from the trait costs a proof some seconds more.
    #[inline]
    fn receive_text(&mut self, text: &[u8]) -> Result<(), AllocError> {
        for b in text {
            self.weigh(Action::Print(*b as char));
        }
        Ok(())
    }

    #[inline]
    fn receive_str(&mut self, text: &str) -> Result<(), AllocError> {
        for c in text.chars() {
            self.weigh(Action::Print(c));
        }
        Ok(())
    }

    #[inline]
    fn receive_sequence(
        &mut self,
        _params: &[CsiParam],
        _parameters_truncated: bool,
        _control: u8,
    ) -> Result<bool, AllocError> {
        Ok(false)
    }

    #[inline]
    fn drops_sequences(&self, _control: u8) -> bool {
        false
    }

    #[inline]
    fn drops_images(&self) -> bool {
        false
    }

    // Weighs a command whose text tells the policy whether it passes.
    fn receive_command(&mut self, text: &[u8]) -> Result<bool, AllocError> {
        match self.judge.admits_command(text) {
            Some(passes) => {
                self.weigh_command(passes);
                Ok(true)
            }
            None => Ok(false),
        }
    }
}

// The character that comes before what is written next, after a command that passes, or that does
// not, and this character.
fn last_after(passes: bool, last: Option<char>) -> Option<char>
    ensures { result ≡ (if passes then None else last) }
{
    if passes { None } else { last }
}

fn is_own<A: Allocator>(kind: SegmentKind, action: &Action<A>) -> bool
    ensures { result ≡ is_own kind (value_of action.now) }
{
    is_lone(kind) || !is_control(action)
}

fn is_control<A: Allocator>(action: &Action<A>) -> bool
    ensures { result ≡ is_control (value_of action.now) }
{
    matches!(action, Action::Control(_))
}

// Whether the segment is a character or a control by itself.
fn is_lone(kind: SegmentKind) -> bool
    ensures { result ≡ is_lone kind }
{
    matches!(
        kind,
        SegmentKind::Character | SegmentKind::Broken | SegmentKind::Stray | SegmentKind::Control
    )
}
