//! These methods parse escape sequences and control sequences.
#![tactic(auto)]

ghost use Rattle.std.specs.Prelude.{◌≡◌, ◌⊎◌, ◌≤◌, ◌<◌, ◌++◌, ◌+◌, ℕ, List, Option, None, [], ◌∷◌, length, take, true, false, slice_index, OnOk};
ghost use Rattle.std.specs.List.{list_all};
ghost use Rattle.esc_frame.specs.Classes.{class_of};
ghost use Rattle.esc_frame.specs.Events.Event.{EscDispatch};
ghost use Rattle.esc_frame.specs.Leads.{Holds};
ghost use Rattle.esc_frame.specs.Leads.Unfinished.{Ground};
ghost use Rattle.esc_frame.specs.Machine.Keeping.{Holding, KeepingEscape, KeepingCsi};
ghost use Rattle.esc_frame.specs.Machine.Allowed.{KeptBody, KeptCsi, KeptEscape, KeptSegment};
ghost use Rattle.esc_frame.specs.Events.{Awaits};
ghost use Rattle.esc_frame.specs.Machine.Makes.{MayEmit, MayEmitAll, Emits, EmitsOne, Makes, StaysReady};
ghost use Rattle.esc_frame.specs.Machine.Keeps.{KeepsBody};
ghost use Rattle.esc_frame.specs.Scans.{StartsFrom, is_body_byte};
ghost use Rattle.esc_frame.specs.Machine.Moves.{move};
ghost use Rattle.esc_frame.specs.Segments.{csi_events, csi_event};
ghost use Rattle.esc_frame.specs.Machine.Taking.{TakesQuietly, InAny, MayBeGiven, TakesIn};

use crate::classes::{Class, Kind, classify};
use crate::machine::{Machine, Result, State};
use crate::taker::EventSink;
use crate::unfinished::body::CsiBody;
use crate::unfinished::fields::read_body;
use crate::unfinished::store::TextRoom;
use crate::utf8::sequence::{Pending, lies_from};
use std::alloc::Allocator;

impl<K: TextRoom, A: Allocator> Machine<K, A> {
    /// Takes a byte after ESC and intermediates.
    #[inline(always)]
    #[tactic(auto, using(crate::proofs::Emits::EventsFold::receives_moved))]
    pub fn in_escape<V: EventSink>(&mut self, b: u8, class: Class, actor: &mut V) -> Result<()>
        requires { V.is_ready actor.old ⊎ KeptEscape self.old (λ limit u.
            Awaits V.may V.takes actor.old (move limit u b class).1) }
        ensures moved { class ≡ class_of b → KeepingEscape self (λ limit own u.
            Makes K.TextRoom V.EventSink limit own result (move limit u b class) self actor) }
        ensures ready { StaysReady V.EventSink result self actor }
    {
        self.state = State::Escape;
        match class {
            Class::Breaks(_) => self.in_ground(b, class, actor),
            Class::C0 | Class::Bell => actor.execute_c0_or_c1(b),
            Class::Delete | Class::High | Class::Lead => Ok(()),
            Class::Intermediate => {
                self.intermediates.push(b);
                Ok(())
            }
            Class::Parameter | Class::Final => self.dispatch_escape(b, actor),
            Class::Introducer(kind) => {
                if self.intermediates.kept == 0 {
                    self.open(kind);
                    Ok(())
                } else {
                    self.dispatch_escape(b, actor)
                }
            }
        }
    }

    /// Takes a byte of an escape sequence.
    #[inline(always)]
    pub fn parse_in_escape<V: EventSink>(&mut self, rest: &[u8], actor: &mut V) -> Result<usize>
        requires some { 0 < length rest.now }
        requires ready { MayBeGiven V.EventSink (KeptSegment K.TextRoom self.old)
            self.old.limit rest.now actor.old }
        requires state { self.old.state ≡ State.Escape }
        ensures { TakesIn (Holding K.TextRoom self) InAny
            K.TextRoom V.EventSink result rest.now self actor }
    {
        self.in_escape(rest[0], classify(rest[0]), actor)?;
        Ok(1)
    }

    // Takes the final byte of an escape sequence, and dispatches the sequence.
    fn dispatch_escape<V: EventSink>(&mut self, b: u8, actor: &mut V) -> Result<()>
        requires { MayEmit V.EventSink (EscDispatch
            (take self.old.intermediates.kept self.old.intermediates.bytes)
            self.old.intermediates.ignored b ∷ []) actor.old }
        ensures holds { Holds K.keeps None self.new Ground }
        ensures emitted { EmitsOne V.EventSink result
            (EscDispatch (take self.old.intermediates.kept self.old.intermediates.bytes)
            self.old.intermediates.ignored b) actor }
        ensures ready { StaysReady V.EventSink result self actor }
    {
        self.state = State::Ground;
        self.pending = Pending::Nothing;
        actor.esc_dispatch(
            &[],
            self.intermediates.as_slice(),
            self.intermediates.ignored,
            b,
        )
    }

    /// Takes a byte after a CSI's opener and part of its body.
    #[tactic(auto, using(crate::proofs::Emits::EventsFold::receives_moved))]
    pub fn in_csi<V: EventSink>(&mut self, b: u8, class: Class, actor: &mut V) -> Result<()>
        requires { V.is_ready actor.old ⊎ KeptCsi self.old (λ limit u.
            Awaits V.may V.takes actor.old (move limit u b class).1) }
        ensures moved { class ≡ class_of b → KeepingCsi self (λ limit u.
            Makes K.TextRoom V.EventSink limit false result (move limit u b class) self actor) }
        ensures ready { StaysReady V.EventSink result self actor }
    {
        self.state = State::Csi;
        match class {
            Class::Breaks(_) => self.in_ground(b, class, actor),
            Class::C0 | Class::Bell => actor.execute_c0_or_c1(b),
            Class::Delete | Class::High | Class::Lead => Ok(()),
            Class::Intermediate | Class::Parameter => {
                self.body.push(b);
                Ok(())
            }
            Class::Introducer(_) | Class::Final => self.dispatch_csi(b, actor),
        }
    }

    // Takes the final byte of a CSI, and dispatches the sequence if its body has its form.
    #[tactic(auto, using(crate::proofs::Emits::EventsFold::quiet_moved))]
    fn dispatch_csi<V: EventSink>(&mut self, b: u8, actor: &mut V) -> Result<()>
        requires { V.is_ready actor.old ⊎ KeptBody self.old.body (λ x.
            Awaits V.may V.takes actor.old (csi_events x b)) }
        ensures moved { (limit : Option ℕ) (x : List ℕ) → KeepsBody self.old.body x
            → Makes K.TextRoom V.EventSink limit false result (Ground, csi_events x b) self actor }
        ensures ready { StaysReady V.EventSink result self actor }
    {
        self.state = State::Ground;
        self.pending = Pending::Nothing;
        if self.body.is_formed() {
            emit_csi(&mut self.body, b, actor)
        } else {
            Ok(())
        }
    }

    /// Takes a short control sequence that is whole at the start of the bytes; else takes nothing.
    #[inline(always)]
    pub fn parse_short_csi<V: EventSink>(&mut self, rest: &[u8], actor: &mut V) -> Result<usize>
        requires escape { slice_index rest.now 0 ≡ 0x1b }
        requires ready { MayEmitAll V.EventSink Ground rest.now actor.old }
        requires ground { Holds K.keeps None self.old Ground }
        ensures { TakesQuietly K.TextRoom V.EventSink result rest.now self actor }
    {
        if rest.len() <= 2 {
            return Ok(0);
        }
        if rest[1] != b'[' {
            return Ok(0);
        }
        let body = read_body(&mut self.short, &rest[2..], true);
        if !lies_from(0x40, 0x7e, body.after) {
            return Ok(0);
        }
        actor.csi_dispatch(&self.short[..body.count], false, rest[body.length + 2])?;
        Ok(body.length + 3)
    }

    /// Takes the run of 20-3F in a control sequence, and the byte after it.
    #[inline(always)]
    pub fn parse_in_csi<V: EventSink>(&mut self, rest: &[u8], actor: &mut V) -> Result<usize>
        requires some { 0 < length rest.now }
        requires ready { MayBeGiven V.EventSink (KeptSegment K.TextRoom self.old)
            self.old.limit rest.now actor.old }
        requires state { self.old.state ≡ State.Csi }
        ensures { TakesIn (Holding K.TextRoom self) (Holding K.TextRoom self)
            K.TextRoom V.EventSink result rest.now self actor }
    {
        let run = push_run(&mut self.body, rest);
        self.step_after(rest, run, actor)
    }
}

// Emits a control sequence whose body has its form.
#[tactic(auto, using(crate::proofs::Emits::EventsFold::receives_takes))]
fn emit_csi<V: EventSink>(body: &mut CsiBody, b: u8, actor: &mut V) -> Result<()>
    requires { V.is_ready actor.old ⊎ KeptBody body.old (λ x.
        Awaits V.may V.takes actor.old (csi_event x b ∷ [])) }
    ensures emitted { (x : List ℕ) → KeepsBody body.old x
        → Emits V.EventSink ⊥ result (csi_event x b ∷ []) actor }
    ensures ready { V.is_ready actor.old → OnOk result (V.is_ready actor.new) }
{
    body.finish();
    actor.csi_dispatch(
        body.csi_params.items.as_slice(),
        body.csi_params.is_truncated,
        b,
    )
}

// Pushes the run of 20-3F that comes first, and returns its length.
#[inline(always)]
fn push_run(body: &mut CsiBody, rest: &[u8]) -> usize
    ensures keeps { (x : List ℕ) → KeepsBody body.old x
        → KeepsBody body.new (x ++ take result rest.now) }
    ensures few { result ≤ length rest.now }
    ensures run { list_all is_body_byte (take result rest.now) ≡ true }
{
    let mut end = 0;
    while end < rest.len() && 0x20 <= rest[end] && rest[end] <= 0x3f {
        end += push_next(body, &rest[end..]);
    }
    end
}

// Pushes a run of digits, or a byte, and returns its length.
#[inline(always)]
fn push_next(body: &mut CsiBody, rest: &[u8]) -> usize
    requires starts { StartsFrom 0x20 0x3f rest.now }
    ensures keeps { (x : List ℕ) → KeepsBody body.old x
        → KeepsBody body.new (x ++ take result rest.now) }
    ensures run { list_all is_body_byte (take result rest.now) ≡ true }
    ensures count { (0 < result) × (result ≤ length rest.now) }
{
    if b'0' <= rest[0] && rest[0] <= b'9' {
        body.push_digits(rest)
    } else {
        body.push(rest[0]);
        1
    }
}
