//! These methods parse operating system commands.
#![tactic(auto)]

ghost use Rattle.std.specs.Prelude.{◌≡◌, ◌⊎◌, ◌++◌, ◌<◌, List, ◌+◌, true, false, not, length, slice_index, OnOk, IsTrue};
ghost use Rattle.esc_frame.specs.Classes.{class_of};
ghost use Rattle.esc_frame.specs.Limits.{has_few_parts};
ghost use Rattle.esc_frame.specs.Leads.Unfinished.{Ground};
ghost use Rattle.esc_frame.specs.Machine.Calls.{Stops};
ghost use Rattle.esc_frame.specs.Machine.Prefixes.{prefix_of};
ghost use Rattle.esc_frame.specs.Machine.Keeping.{StoresText, KeepingText, KeepingOsc, KeepingOscPending, FreshOsc, AnyOsc};
ghost use Rattle.esc_frame.specs.Machine.Allowed.{KeptOscUnits, KeptOsc, KeptOscPending, KeptText, NewOsc};
ghost use Rattle.esc_frame.specs.Events.{Awaits};
ghost use Rattle.esc_frame.specs.Machine.Makes.{MayEmit, Emits, Makes, AlwaysMakes, ConsumesSome, StaysReady};
ghost use Rattle.esc_frame.specs.Machine.Moves.{events_all, emitting, ground_move, pair_move, osc_pending_move, osc_left, ends_osc, move};
ghost use Rattle.esc_frame.specs.Machine.TextRuns.{IsTextRun};
ghost use Rattle.esc_frame.specs.Segments.{Opener, OscUnit, text_of, osc_events};
ghost use Rattle.esc_frame.specs.Sequences.{is_from, outcome};
ghost use Rattle.esc_frame.specs.Machine.Taking.{HasRun, HasEndedRun, HasRunToPair, OpensOsc, IsBetweenUnits, MayBeGiven, AtUnborrowed, TakesIn};

use crate::classes::{Class, Kind, classify};
use crate::machine::{Machine, Result, State};
use crate::runs::scans::units_run;
use crate::taker::EventSink;
use crate::unfinished::count::fits;
use crate::unfinished::store::TextRoom;
use crate::utf8::sequence::{Outcome, Pending, lies_from};
use std::alloc::Allocator;

impl<K: TextRoom, A: Allocator> Machine<K, A> {
    /// Takes a byte after an OSC's units, with nothing pending.
    #[tactic(auto, using(crate::proofs::Emits::EventsFold::takes_moved))]
    pub fn in_osc<V: EventSink>(&mut self, b: u8, class: Class, actor: &mut V) -> Result<()>
        requires { V.is_ready actor.old ⊎ KeptOsc K.TextRoom self.old (λ u.
            Awaits V.may V.takes actor.old (move self.old.limit u b class).1) }
        ensures moved { class ≡ class_of b → KeepingOsc K.TextRoom self (λ u.
            Makes K.TextRoom V.EventSink self.old.limit true result
            (move self.old.limit u b class) self actor) }
        ensures ready { StaysReady V.EventSink result self actor }
    {
        self.state = State::Osc;
        self.pending = Pending::Nothing;
        match class {
            Class::Breaks(_) => self.leave_osc(b, class, actor),
            Class::Bell => {
                self.state = State::Ground;
                emit_osc(&self.text, &self.alloc, actor)
            }
            Class::C0 | Class::High => Ok(()),
            Class::Lead => {
                self.pending = Pending::One(b);
                Ok(())
            }
            Class::Intermediate
            | Class::Parameter
            | Class::Introducer(_)
            | Class::Final
            | Class::Delete => { self.text.push(self.limit, &[b]) }
        }
    }

    /// Takes a byte after a prefix of a sequence, in an OSC.
    pub fn in_osc_pending<V: EventSink>(&mut self, b: u8, class: Class, actor: &mut V) -> Result<()>
        requires { V.is_ready actor.old ⊎ KeptOscPending K.TextRoom self.old (λ u.
            Awaits V.may V.takes actor.old (move self.old.limit u b class).1) }
        ensures moved { class ≡ class_of b → KeepingOscPending K.TextRoom self (λ u.
            Makes K.TextRoom V.EventSink self.old.limit true result
            (move self.old.limit u b class) self actor) }
        ensures ready { StaysReady V.EventSink result self actor }
    {
        match self.pending.outcome(b) {
            Outcome::Whole => self.whole_in_osc(b, class, actor),
            Outcome::More => {
                self.state = State::Osc;
                self.pending = self.pending.with(b);
                Ok(())
            }
            Outcome::Broken => {
                self.text.push(self.limit, &[0xef, 0xbf, 0xbd])?;
                self.in_osc(b, class, actor)
            }
        }
    }

    // Takes a byte that completes a sequence in an OSC.
    fn whole_in_osc<V: EventSink>(&mut self, b: u8, class: Class, actor: &mut V) -> Result<()>
        requires { V.is_ready actor.old ⊎ KeptOscUnits K.TextRoom self.old (λ o ps.
            Awaits V.may V.takes actor.old (osc_pending_move self.old.limit o ps
            (prefix_of self.old.pending) b class Outcome.Whole).1) }
        ensures moved { (o : Opener) (ps : List OscUnit)
            → StoresText K.TextRoom self.old (text_of ps)
            → Makes K.TextRoom V.EventSink self.old.limit true result
            (osc_pending_move self.old.limit o ps (prefix_of self.old.pending) b class
            Outcome.Whole)
            self actor }
        ensures ready { StaysReady V.EventSink result self actor }
    {
        if self.pending.pairs_with(b) {
            self.leave_osc_by_pair(b, class, actor)
        } else {
            let pending = self.pending;
            self.state = State::Osc;
            self.pending = Pending::Nothing;
            pending.put(self.limit, &mut self.text, b)
        }
    }

    // Takes the breaker after an OSC.
    fn leave_osc<V: EventSink>(&mut self, b: u8, class: Class, actor: &mut V) -> Result<()>
        requires { V.is_ready actor.old ⊎ KeptText K.TextRoom self.old.text (λ limit t.
            Awaits V.may V.takes actor.old (osc_events limit t ++ (ground_move b class).1)) }
        ensures moved { KeepingText K.TextRoom self.old.text (λ limit t.
            Makes K.TextRoom V.EventSink limit true result
            (emitting (osc_events limit t) (ground_move b class)) self actor) }
        ensures ready { StaysReady V.EventSink result self actor }
    {
        emit_osc(&self.text, &self.alloc, actor)?;
        self.in_ground(b, class, actor)
    }

    // Takes a control after C2, in an OSC.
    fn leave_osc_by_pair<V: EventSink>(&mut self, b: u8, class: Class, actor: &mut V) -> Result<()>
        requires { V.is_ready actor.old ⊎ KeptText K.TextRoom self.old.text (λ limit t.
            Awaits V.may V.takes actor.old (osc_events limit t ++ (pair_move b class).1)) }
        ensures moved { KeepingText K.TextRoom self.old.text (λ limit t.
            Makes K.TextRoom V.EventSink limit true result
            (emitting (osc_events limit t) (pair_move b class)) self actor) }
        ensures ready { StaysReady V.EventSink result self actor }
    {
        emit_osc(&self.text, &self.alloc, actor)?;
        self.c1_in_utf8(b, class, actor)
    }

    /// Takes an operating system command, up to its end or the first byte that its text changes.
    #[inline(always)]
    pub fn parse_osc<V: EventSink>(&mut self, rest: &[u8], actor: &mut V) -> Result<usize>
        requires opens { OpensOsc rest.now }
        requires ready { MayEmit V.EventSink (events_all self.old.limit Ground rest.now) actor.old }
        ensures { ConsumesSome K.TextRoom V.EventSink self.old.limit result rest.now self actor }
    {
        let n = self.parse_osc_text(&rest[2..], actor)?;
        Ok(2 + n)
    }

    // Takes the text after the opener: a text that ends in these bytes is lent to the actor from
    // there, any other is kept.
    #[inline(always)]
    fn parse_osc_text<V: EventSink>(&mut self, rest: &[u8], actor: &mut V) -> Result<usize>
        requires some { 0 < length rest.now }
        requires ready { MayBeGiven V.EventSink NewOsc self.old.limit rest.now actor.old }
        ensures { TakesIn FreshOsc AnyOsc K.TextRoom V.EventSink result rest.now self actor }
    {
        let run = units_run(rest);
        if run == rest.len() {
            return self.keep_body(rest, run, actor);
        }
        if ends_osc(classify(rest[run])) {
            return self.parse_lent_osc(rest, run, actor);
        }
        if is_pair_at(rest, run) {
            self.parse_lent_osc_to_c1(rest, run, actor)
        } else {
            self.keep_body(rest, run, actor)
        }
    }

    // Keeps a text from its first byte on.
    fn keep_body<V: EventSink>(&mut self, rest: &[u8], run: usize, actor: &mut V) -> Result<usize>
        requires run { HasRun IsTextRun rest.now run }
        requires ready { MayBeGiven V.EventSink NewOsc self.old.limit rest.now actor.old }
        ensures { TakesIn (AtUnborrowed rest.now FreshOsc) AnyOsc
            K.TextRoom V.EventSink result rest.now self actor }
    {
        self.open(Kind::Osc);
        self.parse_units(rest, run, actor)
    }

    // Takes a text, and the byte that ends it.
    #[inline(always)]
    fn parse_lent_osc<V: EventSink>(
        &mut self,
        rest: &[u8],
        run: usize,
        actor: &mut V,
    ) -> Result<usize>
        requires run { HasEndedRun IsTextRun (λ b. ends_osc (class_of b)) rest.now run }
        requires ready { MayBeGiven V.EventSink NewOsc self.old.limit rest.now actor.old }
        ensures { TakesIn FreshOsc AnyOsc K.TextRoom V.EventSink result rest.now self actor }
    {
        self.end_borrowed(&rest[..run], rest[run], actor)?;
        Ok(run + 1)
    }

    // Takes a text, and the control after C2 that ends it.
    #[inline(never)]
    fn parse_lent_osc_to_c1<V: EventSink>(
        &mut self,
        rest: &[u8],
        run: usize,
        actor: &mut V,
    ) -> Result<usize>
        requires run { HasRunToPair IsTextRun rest.now run }
        requires ready { MayBeGiven V.EventSink NewOsc self.old.limit rest.now actor.old }
        ensures { TakesIn FreshOsc AnyOsc K.TextRoom V.EventSink result rest.now self actor }
    {
        self.end_borrowed_by_pair(&rest[..run], rest[run + 1], actor)?;
        Ok(run + 2)
    }

    // Takes the byte that ends a command whose text is lent.
    #[inline(always)]
    fn end_borrowed<V: EventSink>(&mut self, text: &[u8], b: u8, actor: &mut V) -> Result<()>
        requires { MayEmit V.EventSink
            (osc_events self.old.limit text.now ++ (osc_left b (class_of b)).1) actor.old }
        ensures moved { Makes K.TextRoom V.EventSink self.old.limit (not (has_few_parts text.now))
            result
            (emitting (osc_events self.old.limit text.now) (osc_left b (class_of b))) self actor }
        ensures ready { StaysReady V.EventSink result self actor }
    {
        emit_borrowed(self.limit, &self.alloc, text, actor)?;
        self.leave_borrowed(b, actor)
    }

    // Takes a control after C2 that ends a command whose text is lent.
    fn end_borrowed_by_pair<V: EventSink>(
        &mut self,
        text: &[u8],
        b: u8,
        actor: &mut V,
    ) -> Result<()>
        requires { MayEmit V.EventSink
            (osc_events self.old.limit text.now ++ (pair_move b (class_of b)).1) actor.old }
        ensures moved { Makes K.TextRoom V.EventSink self.old.limit (not (has_few_parts text.now))
            result
            (emitting (osc_events self.old.limit text.now) (pair_move b (class_of b))) self actor }
        ensures ready { StaysReady V.EventSink result self actor }
    {
        emit_borrowed(self.limit, &self.alloc, text, actor)?;
        self.c1_in_utf8(b, classify(b), actor)
    }

    // Takes a bell, or a breaker.
    #[inline(always)]
    fn leave_borrowed<V: EventSink>(&mut self, b: u8, actor: &mut V) -> Result<()>
        requires { MayEmit V.EventSink (osc_left b (class_of b)).1 actor.old }
        ensures moved { AlwaysMakes K.TextRoom V.EventSink result (osc_left b (class_of b)) self
            actor }
        ensures ready { StaysReady V.EventSink result self actor }
    {
        if b == 0x07 {
            self.state = State::Ground;
            self.pending = Pending::Nothing;
            Ok(())
        } else {
            self.leave_string(b, actor)
        }
    }

    /// Takes the units that an operating system command keeps as they are, and the byte after them.
    #[inline(never)]
    pub fn parse_in_osc<V: EventSink>(&mut self, rest: &[u8], actor: &mut V) -> Result<usize>
        requires some { 0 < length rest.now }
        requires ready { MayBeGiven V.EventSink (KeptOsc K.TextRoom self.old) self.old.limit
            rest.now
            actor.old }
        requires state { IsBetweenUnits self.old }
        ensures { TakesIn (KeepingOsc K.TextRoom self) AnyOsc
            K.TextRoom V.EventSink result rest.now self actor }
    {
        if self.text.is_new() {
            return self.parse_osc_text(rest, actor);
        }
        let run = units_run(rest);
        self.parse_units(rest, run, actor)
    }

    // Keeps a run of units, and takes the byte after them.
    #[inline(always)]
    fn parse_units<V: EventSink>(&mut self, rest: &[u8], run: usize, actor: &mut V) -> Result<usize>
        requires run { HasRun IsTextRun rest.now run }
        requires ready { MayBeGiven V.EventSink (KeptOsc K.TextRoom self.old) self.old.limit
            rest.now
            actor.old }
        requires state { IsBetweenUnits self.old }
        ensures { TakesIn (AtUnborrowed rest.now (KeepingOsc K.TextRoom self)) AnyOsc
            K.TextRoom V.EventSink result rest.now self actor }
    {
        self.text.push(self.limit, &rest[..run])?;
        self.step_after(rest, run, actor)
    }
}

// Returns whether a byte of this class ends an operating system command.
#[inline(always)]
fn ends_osc(class: Class) -> bool
    ensures { result ≡ ends_osc class }
{
    match class {
        Class::Bell | Class::Breaks(_) => true,
        Class::C0
        | Class::High
        | Class::Lead
        | Class::Intermediate
        | Class::Parameter
        | Class::Introducer(_)
        | Class::Final
        | Class::Delete => false,
    }
}

// Returns whether C2 and a control after it come there.
#[inline(always)]
fn is_pair_at(rest: &[u8], at: usize) -> bool
    requires { at < length rest.now }
    ensures some { IsTrue result
        → (at + 1 < length rest.now) × (slice_index rest.now at ≡ 0xc2)
        × (is_from 0x80 0x9f (slice_index rest.now (at + 1)) ≡ true) }
    ensures none { result ≡ false → at + 1 < length rest.now → slice_index rest.now at ≡ 0xc2
        → is_from 0x80 0x9f (slice_index rest.now (at + 1)) ≡ false }
{
    rest[at] == 0xc2 && rest.len() - at > 1 && lies_from(0x80, 0x9f, rest[at + 1])
}

// Emits a lent text if it is within the limit.
#[inline(always)]
fn emit_borrowed<A: Allocator, V: EventSink>(
    limit: Option<usize>,
    alloc: &A,
    text: &[u8],
    actor: &mut V,
) -> Result<()>
    requires { MayEmit V.EventSink (osc_events limit text.now) actor.old }
    ensures emitted { Emits V.EventSink ((not (has_few_parts text.now) ≡ true)
        × Stops V.stops A limit) result
        (osc_events limit text.now) actor }
    ensures ready { V.is_ready actor.old → OnOk result (V.is_ready actor.new) }
{
    if fits(limit, 0, text.len()) {
        actor.osc_text(alloc, text)
    } else {
        Ok(())
    }
}

// Emits the text of an operating system command if it is within the limit.
fn emit_osc<K: TextRoom, A: Allocator, V: EventSink>(
    text: &K,
    alloc: &A,
    actor: &mut V,
) -> Result<()>
    requires { V.is_ready actor.old ⊎ KeptText K.TextRoom text.now (λ limit t.
        Awaits V.may V.takes actor.old (osc_events limit t)) }
    ensures emitted { KeepingText K.TextRoom text.now (λ limit t.
        Emits V.EventSink (Stops V.stops A limit) result (osc_events limit t) actor) }
    ensures ready { V.is_ready actor.old → OnOk result (V.is_ready actor.new) }
{
    if text.is_over() {
        Ok(())
    } else {
        actor.osc_text(alloc, text.bytes())
    }
}
