//! These methods parse device control strings.
#![tactic(auto)]

ghost use Rattle.std.specs.Prelude.{◌≡◌, ◌⊎◌, ◌<◌, ◌++◌, ℕ, List, Option, [], ◌∷◌, true, length, OnOk, OnErr};
ghost use Rattle.esc_frame.specs.Classes.{class_of};
ghost use Rattle.esc_frame.specs.Events.{Awaits};
ghost use Rattle.esc_frame.specs.Events.Event.{DcsUnhook};
ghost use Rattle.esc_frame.specs.Limits.{is_read};
ghost use Rattle.esc_frame.specs.Machine.Calls.{Stops};
ghost use Rattle.esc_frame.specs.Machine.Keeping.{Holding, KeepingDcs, KeepingHeader, InPassthrough};
ghost use Rattle.esc_frame.specs.Machine.Allowed.{KeptDcs, KeptHeader, KeptPassthrough, KeptSegment};
ghost use Rattle.esc_frame.specs.Machine.Makes.{MayEmit, Emits, Makes, StaysReady};
ghost use Rattle.esc_frame.specs.Machine.Keeps.{KeepsDcs, parameters_of};
ghost use Rattle.esc_frame.specs.Machine.Moves.{emitting, ground_move, move};
ghost use Rattle.esc_frame.specs.Segments.{hook_event};
ghost use Rattle.esc_frame.specs.Machine.Taking.{MayBeGiven, TakesPart};

use crate::classes::Class;
use crate::machine::{Machine, Result, State};
use crate::runs::scans::data_run;
use crate::taker::EventSink;
use crate::unfinished::header::{DcsHeader, is_parameter};
use crate::unfinished::store::TextRoom;
use std::alloc::Allocator;

impl<K: TextRoom, A: Allocator> Machine<K, A> {
    /// Takes a byte of a device control string's header.
    #[tactic(auto, using(crate::proofs::Emits::EventsFold::takes_moved))]
    pub fn in_dcs<V: EventSink>(&mut self, b: u8, class: Class, actor: &mut V) -> Result<()>
        requires { V.is_ready actor.old ⊎ KeptDcs K.TextRoom self.old (λ u.
            Awaits V.may V.takes actor.old (move self.old.limit u b class).1) }
        ensures moved { class ≡ class_of b → KeepingDcs K.TextRoom self (λ u.
            Makes K.TextRoom V.EventSink self.old.limit true result
            (move self.old.limit u b class) self actor) }
        ensures ready { StaysReady V.EventSink result self actor }
    {
        self.state = State::Dcs;
        match class {
            Class::Breaks(_) => self.in_ground(b, class, actor),
            Class::C0 | Class::Bell | Class::Delete | Class::High | Class::Lead => Ok(()),
            Class::Intermediate | Class::Parameter => keep(
                self.limit,
                &mut self.header,
                &mut self.text,
                b,
            ),
            Class::Introducer(_) | Class::Final => {
                if is_read(&self.header, &self.text) {
                    self.state = State::Data;
                    hook(&self.header, &self.text, &self.alloc, b, actor)
                } else {
                    self.state = State::Ignored;
                    Ok(())
                }
            }
        }
    }

    /// Takes a byte of the data of a device control string whose header has its form.
    #[tactic(auto, using(crate::proofs::Emits::EventsFold::receives_moved))]
    pub fn in_data<V: EventSink>(&mut self, b: u8, class: Class, actor: &mut V) -> Result<()>
        requires { V.is_ready actor.old ⊎ KeptPassthrough (λ limit u.
            Awaits V.may V.takes actor.old (move limit u b class).1) }
        ensures moved { InPassthrough (λ limit u.
            Makes K.TextRoom V.EventSink limit true result (move limit u b class) self actor) }
        ensures ready { StaysReady V.EventSink result self actor }
    {
        self.state = State::Data;
        match class {
            Class::Breaks(_) => self.leave_data(b, class, actor),
            Class::Delete => Ok(()),
            Class::C0
            | Class::Bell
            | Class::High
            | Class::Lead
            | Class::Intermediate
            | Class::Parameter
            | Class::Introducer(_)
            | Class::Final => actor.dcs_put(b),
        }
    }

    // Takes the breaker after a DCS's data.
    fn leave_data<V: EventSink>(&mut self, b: u8, class: Class, actor: &mut V) -> Result<()>
        requires { MayEmit V.EventSink (DcsUnhook ∷ (ground_move b class).1) actor.old }
        ensures moved { (limit : Option ℕ)
            → Makes K.TextRoom V.EventSink limit true result
            (emitting (DcsUnhook ∷ []) (ground_move b class)) self actor }
        ensures ready { StaysReady V.EventSink result self actor }
    {
        actor.dcs_unhook()?;
        self.in_ground(b, class, actor)
    }

    /// Takes the run of 20-7E in the data of a device control string.
    #[inline(always)]
    pub fn parse_in_data<V: EventSink>(&mut self, rest: &[u8], actor: &mut V) -> Result<usize>
        requires some { 0 < length rest.now }
        requires ready { MayBeGiven V.EventSink (KeptSegment K.TextRoom self.old)
            self.old.limit rest.now actor.old }
        requires state { self.old.state ≡ State.Data }
        ensures { TakesPart (Holding K.TextRoom self) K.TextRoom V.EventSink result rest.now self
            actor }
    {
        let run = data_run(rest);
        if run == 0 {
            return self.parse_one(rest, actor);
        }
        actor.dcs_put_text(&rest[..run])?;
        Ok(run)
    }
}

// Takes a byte, 20-3F, of the header.
fn keep<K: TextRoom>(
    limit: Option<usize>,
    header: &mut DcsHeader,
    parameters: &mut K,
    b: u8,
) -> Result<()>
    ensures parameters { (x : List ℕ) → K.keeps limit parameters.old (parameters_of x)
        → OnOk result (K.keeps limit parameters.new (parameters_of (x ++ b ∷ []))) }
    ensures header { (x : List ℕ) → KeepsDcs header.old x → KeepsDcs header.new (x ++ b ∷ []) }
    ensures refused { OnErr result (K.may_fail limit) }
{
    header.push(b);
    if is_parameter(b) {
        parameters.push(limit, &[b])
    } else {
        Ok(())
    }
}

// Returns whether the header is hooked: its parameters are within the limit, and it has its form.
fn is_read<K: TextRoom>(header: &DcsHeader, parameters: &K) -> bool
    ensures { KeepingHeader K.TextRoom parameters.now header.now (λ limit x.
        result ≡ is_read limit x) }
{
    !parameters.is_over() && header.is_formed()
}

// Emits the hook of a header that is read.
fn hook<K: TextRoom, A: Allocator, V: EventSink>(
    header: &DcsHeader,
    parameters: &K,
    alloc: &A,
    b: u8,
    actor: &mut V,
) -> Result<()>
    requires { V.is_ready actor.old ⊎ KeptHeader K.TextRoom parameters.now header.now (λ x.
        Awaits V.may V.takes actor.old (hook_event x b ∷ [])) }
    ensures emitted { KeepingHeader K.TextRoom parameters.now header.now (λ limit x.
        is_read limit x ≡ true
        → Emits V.EventSink (Stops V.stops A limit) result (hook_event x b ∷ []) actor) }
    ensures ready { V.is_ready actor.old → OnOk result (V.is_ready actor.new) }
{
    let kept = &header.intermediates;
    actor.dcs_header(alloc, b, parameters.bytes(), kept.as_slice(), kept.ignored)
}
