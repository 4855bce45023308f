//! These methods parse application program commands and ignored strings: SOS and PM strings, and
//! device control strings whose header has another form.
#![tactic(auto)]

ghost use Rattle.std.specs.Prelude.{◌≡◌, ◌⊎◌, ◌++◌, [], if◌then◌else◌, ◌<◌, Bool, true, false, length, OnOk};
ghost use Rattle.esc_frame.specs.Classes.{class_of, is_breaker};
ghost use Rattle.esc_frame.specs.Machine.Keeping.{Holding, KeepingText, KeepingApc, FreshApc, AnyApc, InDcsIgnore, InIgnoredString};
ghost use Rattle.esc_frame.specs.Machine.Allowed.{KeptApc, KeptSegment, KeptText, NewApc};
ghost use Rattle.esc_frame.specs.Events.{Awaits};
ghost use Rattle.esc_frame.specs.Machine.Makes.{MayEmit, Emits, Makes, StaysReady};
ghost use Rattle.esc_frame.specs.Machine.Moves.{emitting, ground_move, move};
ghost use Rattle.esc_frame.specs.Scans.{is_text_byte};
ghost use Rattle.esc_frame.specs.Segments.{apc_events};
ghost use Rattle.esc_frame.specs.Machine.Taking.{HasRun, AreAll, HasEndedRun, MayBeGiven, AtUnborrowed, TakesIn};

use crate::classes::{Class, classify};
use crate::machine::{Machine, Result, State};
use crate::runs::scans::ascii_run;
use crate::taker::EventSink;
use crate::unfinished::count::fits;
use crate::unfinished::store::TextRoom;
use std::alloc::Allocator;

impl<K: TextRoom, A: Allocator> Machine<K, A> {
    /// Takes a byte of an APC.
    pub fn in_apc<V: EventSink>(&mut self, b: u8, class: Class, actor: &mut V) -> Result<()>
        requires { V.is_ready actor.old ⊎ KeptApc K.TextRoom self.old (λ u.
            Awaits V.may V.takes actor.old (move self.old.limit u b class).1) }
        ensures moved { class ≡ class_of b → KeepingApc K.TextRoom self (λ u.
            Makes K.TextRoom V.EventSink self.old.limit true result
            (move self.old.limit u b class) self actor) }
        ensures ready { StaysReady V.EventSink result self actor }
    {
        self.state = State::Apc;
        match class {
            Class::Breaks(_) => self.leave_apc(b, class, actor),
            Class::C0 | Class::Bell | Class::High | Class::Lead => Ok(()),
            Class::Delete
            | Class::Intermediate
            | Class::Parameter
            | Class::Introducer(_)
            | Class::Final => { self.text.push(self.limit, &[b]) }
        }
    }

    // Takes the breaker after an APC.
    fn leave_apc<V: EventSink>(&mut self, b: u8, class: Class, actor: &mut V) -> Result<()>
        requires { V.is_ready actor.old ⊎ KeptText K.TextRoom self.old.text (λ limit t.
            Awaits V.may V.takes actor.old (apc_events limit t ++ (ground_move b class).1)) }
        ensures moved { KeepingText K.TextRoom self.old.text (λ limit t.
            Makes K.TextRoom V.EventSink limit true result
            (emitting (apc_events limit t) (ground_move b class)) self actor) }
        ensures ready { StaysReady V.EventSink result self actor }
    {
        emit_apc(&self.text, actor)?;
        self.in_ground(b, class, actor)
    }

    /// Takes a byte of an ignored string: only a breaker acts.
    pub fn in_ignored<V: EventSink>(&mut self, b: u8, class: Class, actor: &mut V) -> Result<()>
        requires { MayEmit V.EventSink (if is_breaker class then (ground_move b class).1 else [])
            actor.old }
        ensures ignored { InIgnoredString (λ limit u.
            Makes K.TextRoom V.EventSink limit true result (move limit u b class) self actor) }
        ensures data { InDcsIgnore (λ limit u.
            Makes K.TextRoom V.EventSink limit true result (move limit u b class) self actor) }
        ensures ready { StaysReady V.EventSink result self actor }
    {
        self.state = State::Ignored;
        match class {
            Class::Breaks(_) => self.in_ground(b, class, actor),
            Class::Delete
            | Class::C0
            | Class::Bell
            | Class::High
            | Class::Lead
            | Class::Intermediate
            | Class::Parameter
            | Class::Introducer(_)
            | Class::Final => Ok(()),
        }
    }

    /// Takes the run of 20-7F in an application program command, and the byte after it: a text that
    /// begins and ends in these bytes is lent to the actor from there, any other is kept.
    #[inline(always)]
    pub fn parse_in_apc<V: EventSink>(&mut self, rest: &[u8], actor: &mut V) -> Result<usize>
        requires some { 0 < length rest.now }
        requires ready { MayBeGiven V.EventSink (KeptApc K.TextRoom self.old) self.old.limit
            rest.now
            actor.old }
        requires state { self.old.state ≡ State.Apc }
        ensures { TakesIn (KeepingApc K.TextRoom self) AnyApc
            K.TextRoom V.EventSink result rest.now self actor }
    {
        let run = ascii_run(rest);
        if run == rest.len() {
            return self.keep_apc(rest, run, actor);
        }
        if !self.text.is_new() {
            return self.keep_apc(rest, run, actor);
        }
        if is_breaker(classify(rest[run])) {
            self.parse_lent_apc(rest, run, actor)
        } else {
            self.keep_apc(rest, run, actor)
        }
    }

    // Keeps a run in an application program command, and takes the byte after it.
    fn keep_apc<V: EventSink>(&mut self, rest: &[u8], run: usize, actor: &mut V) -> Result<usize>
        requires run { HasRun (AreAll is_text_byte) rest.now run }
        requires ready { MayBeGiven V.EventSink (KeptApc K.TextRoom self.old) self.old.limit
            rest.now
            actor.old }
        requires state { self.old.state ≡ State.Apc }
        ensures { TakesIn (AtUnborrowed rest.now (KeepingApc K.TextRoom self)) AnyApc
            K.TextRoom V.EventSink result rest.now self actor }
    {
        self.text.push(self.limit, &rest[..run])?;
        self.step_after(rest, run, actor)
    }

    // Takes a text, and the breaker that ends it.
    #[inline(always)]
    fn parse_lent_apc<V: EventSink>(
        &mut self,
        rest: &[u8],
        run: usize,
        actor: &mut V,
    ) -> Result<usize>
        requires run { HasEndedRun (AreAll is_text_byte) (λ b. is_breaker (class_of b)) rest.now
            run }
        requires ready { MayBeGiven V.EventSink NewApc self.old.limit rest.now actor.old }
        ensures { TakesIn FreshApc AnyApc K.TextRoom V.EventSink result rest.now self actor }
    {
        self.end_borrowed_apc(&rest[..run], rest[run], actor)?;
        Ok(run + 1)
    }

    // Takes the breaker after an application program command whose text is lent.
    fn end_borrowed_apc<V: EventSink>(&mut self, text: &[u8], b: u8, actor: &mut V) -> Result<()>
        requires { MayEmit V.EventSink
            (apc_events self.old.limit text.now ++ (ground_move b (class_of b)).1) actor.old }
        ensures moved { (own : Bool)
            → Makes K.TextRoom V.EventSink self.old.limit own result
            (emitting (apc_events self.old.limit text.now) (ground_move b (class_of b)))
            self actor }
        ensures ready { StaysReady V.EventSink result self actor }
    {
        emit_borrowed_apc(self.limit, text, actor)?;
        self.leave_string(b, actor)
    }

    /// Takes the run of 20-7F in an ignored string.
    #[inline(always)]
    pub fn parse_in_ignored<V: EventSink>(&mut self, rest: &[u8], actor: &mut V) -> Result<usize>
        requires some { 0 < length rest.now }
        requires ready { MayBeGiven V.EventSink (KeptSegment K.TextRoom self.old)
            self.old.limit rest.now actor.old }
        requires state { self.old.state ≡ State.Ignored }
        ensures { TakesIn (Holding K.TextRoom self) (Holding K.TextRoom self)
            K.TextRoom V.EventSink result rest.now self actor }
    {
        let run = ascii_run(rest);
        if run == 0 {
            return self.parse_one(rest, actor);
        }
        Ok(run)
    }
}

// Returns whether a byte of this class breaks off a string.
#[inline(always)]
fn is_breaker(class: Class) -> bool
    ensures { result ≡ is_breaker class }
{
    match class {
        Class::Breaks(_) => true,
        Class::C0
        | Class::Bell
        | Class::High
        | Class::Lead
        | Class::Intermediate
        | Class::Parameter
        | Class::Introducer(_)
        | Class::Final
        | Class::Delete => false,
    }
}

// Emits a lent text if it is within the limit.
fn emit_borrowed_apc<V: EventSink>(limit: Option<usize>, text: &[u8], actor: &mut V) -> Result<()>
    requires { MayEmit V.EventSink (apc_events limit text.now) actor.old }
    ensures emitted { Emits V.EventSink ⊥ result (apc_events limit text.now) actor }
    ensures ready { V.is_ready actor.old → OnOk result (V.is_ready actor.new) }
{
    if fits(limit, 0, text.len()) {
        actor.apc_dispatch(text)
    } else {
        Ok(())
    }
}

// Emits the text of an APC if it is within the limit.
#[tactic(auto, using(crate::proofs::Emits::EventsFold::receives_takes))]
fn emit_apc<K: TextRoom, V: EventSink>(text: &K, actor: &mut V) -> Result<()>
    requires { V.is_ready actor.old ⊎ KeptText K.TextRoom text.now (λ limit t.
        Awaits V.may V.takes actor.old (apc_events limit t)) }
    ensures emitted { KeepingText K.TextRoom text.now (λ limit t.
        Emits V.EventSink ⊥ result (apc_events limit t) actor) }
    ensures ready { V.is_ready actor.old → OnOk result (V.is_ready actor.new) }
{
    if text.is_over() {
        Ok(())
    } else {
        actor.apc_dispatch(text.bytes())
    }
}
