//! The byte machine keeps the unfinished segment, and chooses the function that takes the next
//! bytes. Its methods are in a file for each kind of segment.
#![tactic(auto)]

mod dcs;
mod escapes;
mod ground;
mod osc;
mod strings;

ghost use Rattle.std.specs.Prelude.{◌≡◌, ◌⊎◌, ◌<◌, ◌≤◌, ℕ, Option, None, true, length, min, OnOk, IsTrue, ◌↔◌};
ghost use Rattle.esc_frame.specs.Classes.{class_of};
ghost use Rattle.esc_frame.specs.Events.{Awaits};
ghost use Rattle.esc_frame.specs.Leads.{Unfinished, Holds, kept_open};
ghost use Rattle.esc_frame.specs.Leads.Unfinished.{Ground};
ghost use Rattle.esc_frame.specs.Limits.{most};
ghost use Rattle.esc_frame.specs.Machine.Calls.{Fails, is_outside_text};
ghost use Rattle.esc_frame.specs.Machine.Prefixes.{prefix_of};
ghost use Rattle.esc_frame.specs.Machine.Keeping.{Holding, HoldingAfter, AfterStill};
ghost use Rattle.esc_frame.specs.Machine.Allowed.{KeptSegment, KeptAfter};
ghost use Rattle.esc_frame.specs.Machine.Makes.{Emits, Makes, StaysReady};
ghost use Rattle.esc_frame.specs.Machine.Moves.{move, unfinished_at_opener, may_grow_in, may_grow_within, after_all, events_all};
ghost use Rattle.esc_frame.specs.Segments.{Opener};
ghost use Rattle.esc_frame.specs.Machine.Taking.{InAny, MayBeGiven, TakesIn, TakesPart};

use crate::classes::{Class, Kind, classify};
use crate::taker::EventSink;
use crate::unfinished::body::CsiBody;
use crate::unfinished::header::DcsHeader;
use crate::unfinished::intermediates::Intermediates;
use crate::unfinished::store::TextRoom;
use crate::utf8::sequence::Pending;
use esc_values::csi_param::CsiParam;
use std::alloc::{AllocError, Allocator};

/// The error says that the actor refused a call, or that a request for memory was refused.
pub type Result<T> = std::result::Result<T, AllocError>;

/// The state says which segment is unfinished.
#[derive(Clone, Copy)]
pub enum State {
    /// no sequence or string; a character in UTF-8 may be unfinished
    Ground,
    /// an escape sequence, after ESC
    Escape,
    /// a control sequence
    Csi,
    /// an operating system command
    Osc,
    /// a device control string, in its header
    Dcs,
    /// a device control string, in its data
    Data,
    /// a string that is passed over until a breaker
    Ignored,
    /// an application program command
    Apc,
}

/// The machine stands between any two bytes of a stream, with a store for the text of an unfinished
/// string. It holds the parameters of a control sequence itself.
#[derive(Drop)]
pub struct Machine<K: TextRoom, A: Allocator> {
    pub state: State,
    // has the bytes of a UTF-8 sequence that has begun
    pub pending: Pending,
    // has the intermediates of an escape sequence
    pub intermediates: Intermediates,
    // has the body of a control sequence
    pub body: CsiBody,
    // has the parameters of a control sequence that is whole in a call's bytes
    pub short: [CsiParam; 32],
    // has the header of a DCS without its parameter bytes
    pub header: DcsHeader,
    // keeps the text of an OSC or APC, or the parameter bytes of the header of a DCS
    pub text: K,
    // gives memory to the calls that need it
    pub alloc: A,
    // is the most bytes that are kept of a string; no call changes it
    pub limit: Option<usize>,
}

impl<K: TextRoom, A: Allocator + Copy> Machine<K, A> {
    /// Returns a machine at the beginning of a stream. It keeps no more of a string than the limit.
    pub fn new(text: K, alloc: A, limit: Option<usize>) -> Self
        ensures holds { Holds K.keeps limit result Ground }
        ensures limit { result.limit ≡ limit }
    {
        Machine {
            state: State::Ground,
            pending: Pending::Nothing,
            intermediates: Intermediates::new(),
            body: CsiBody::new(),
            short: [CsiParam::Integer(0); 32],
            header: DcsHeader::new(),
            text,
            alloc,
            limit,
        }
    }
}

impl<K: TextRoom, A: Allocator> Machine<K, A> {
    /// Returns whether no segment is unfinished.
    pub fn is_ground(&self) -> bool
        ensures known { (limit : Option ℕ) (u : Unfinished) → Holds K.keeps limit self.now u
            → IsTrue result ↔ (u ≡ Ground) }
        ensures ground { IsTrue result → Holds K.keeps None self.now Ground }
    {
        match self.state {
            State::Ground => match self.pending {
                Pending::Nothing => true,
                Pending::One(_) | Pending::Two(_, _) | Pending::Three(_, _, _) => false,
            },
            State::Escape
            | State::Csi
            | State::Osc
            | State::Dcs
            | State::Data
            | State::Ignored
            | State::Apc => false,
        }
    }

    /// Returns how many bytes that count are kept of an unfinished text or header.
    pub fn kept(&self) -> usize
        ensures { (limit : Option ℕ) (u : Unfinished) → Holds K.keeps limit self.now u
            → result ≡ min (kept_open limit u) most }
    {
        match self.state {
            State::Osc | State::Dcs | State::Apc => self.text.bytes().len(),
            State::Ground | State::Escape | State::Csi | State::Data | State::Ignored => 0,
        }
    }

    /// Begins a sequence or a string of this kind.
    pub fn open(&mut self, kind: Kind)
        ensures holds { (limit : Option ℕ) (o : Opener)
            → Holds K.keeps limit self.new (unfinished_at_opener kind o) }
        ensures limit { self.new.limit ≡ self.old.limit }
    {
        self.pending = Pending::Nothing;
        match kind {
            Kind::Csi => {
                self.body.clear();
                self.state = State::Csi;
            }
            Kind::Osc => {
                self.text.clear();
                self.state = State::Osc;
            }
            Kind::Dcs => {
                self.header = DcsHeader::new();
                self.text.clear();
                self.state = State::Dcs;
            }
            Kind::Sos | Kind::Pm => self.state = State::Ignored,
            Kind::Apc => {
                self.text.clear();
                self.state = State::Apc;
            }
        }
    }

    /// Takes a byte.
    pub fn step<V: EventSink>(&mut self, b: u8, class: Class, actor: &mut V) -> Result<()>
        requires { V.is_ready actor.old ⊎ KeptSegment K.TextRoom self.old (λ u.
            Awaits V.may V.takes actor.old (move self.old.limit u b class).1) }
        ensures moved { class ≡ class_of b → Holding K.TextRoom self (λ u.
            Makes K.TextRoom V.EventSink self.old.limit (may_grow_in u) result
            (move self.old.limit u b class) self actor) }
        ensures ready { StaysReady V.EventSink result self actor }
    {
        match self.state {
            State::Ground => match self.pending {
                Pending::Nothing => self.in_ground(b, class, actor),
                Pending::One(_) | Pending::Two(_, _) | Pending::Three(_, _, _) => self.in_pending(
                    b, class, actor,
                ),
            },
            State::Escape => self.in_escape(b, class, actor),
            State::Csi => self.in_csi(b, class, actor),
            State::Osc => match self.pending {
                Pending::Nothing => self.in_osc(b, class, actor),
                Pending::One(_) | Pending::Two(_, _) | Pending::Three(_, _, _) =>
                    self.in_osc_pending(b, class, actor),
            },
            State::Dcs => self.in_dcs(b, class, actor),
            State::Data => self.in_data(b, class, actor),
            State::Ignored => self.in_ignored(b, class, actor),
            State::Apc => self.in_apc(b, class, actor),
        }
    }

    /// Takes the bytes, one after another. After an error the contract says nothing of the machine.
    pub fn parse_all<V: EventSink>(&mut self, bytes: &[u8], actor: &mut V) -> Result<()>
        requires { V.is_ready actor.old ⊎ KeptSegment K.TextRoom self.old (λ u.
            Awaits V.may V.takes actor.old (events_all self.old.limit u bytes.now)) }
        ensures holds { Holding K.TextRoom self (λ u.
            OnOk result (Holds K.keeps self.old.limit self.new (after_all u bytes.now)
            × (self.new.limit ≡ self.old.limit))) }
        ensures emitted { Holding K.TextRoom self (λ u.
            Emits V.EventSink ((may_grow_within u bytes.now ≡ true)
            × Fails K.may_fail V.stops A self.old.limit) result
            (events_all self.old.limit u bytes.now) actor) }
        ensures ready { V.is_ready actor.old → OnOk result (V.is_ready actor.new) }
    {
        let mut at = 0;
        while at < bytes.len() {
            let n = self.parse_run(&bytes[at..], actor)?;
            at += n;
        }
        Ok(())
    }

    /// Takes a prefix of the bytes, at least one, and returns its length: all but the last emit
    /// nothing and leave a segment unfinished. After an error the contract says nothing of the
    /// machine.
    #[inline(always)]
    pub fn parse_until_event<V: EventSink>(&mut self, rest: &[u8], actor: &mut V) -> Result<usize>
        requires some { 0 < length rest.now }
        requires ready { MayBeGiven V.EventSink (KeptSegment K.TextRoom self.old)
            self.old.limit rest.now actor.old }
        ensures { TakesIn (Holding K.TextRoom self) (Holding K.TextRoom self)
            K.TextRoom V.EventSink result rest.now self actor }
    {
        if self.is_ground() {
            return self.first_in_ground(rest, actor);
        }
        match self.state {
            State::Escape => self.parse_in_escape(rest, actor),
            State::Data => self.parse_one(rest, actor),
            State::Ground | State::Csi | State::Osc | State::Dcs | State::Ignored | State::Apc =>
                self.parse_unfinished(rest, actor),
        }
    }

    // Takes a prefix of the bytes, at least one, and returns its length.
    #[inline(always)]
    fn parse_run<V: EventSink>(&mut self, rest: &[u8], actor: &mut V) -> Result<usize>
        requires some { 0 < length rest.now }
        requires ready { MayBeGiven V.EventSink (KeptSegment K.TextRoom self.old)
            self.old.limit rest.now actor.old }
        ensures { TakesPart (Holding K.TextRoom self) K.TextRoom V.EventSink result rest.now self
            actor }
    {
        if self.is_ground() {
            return self.parse_in_ground(rest, actor);
        }
        match self.state {
            State::Escape => self.parse_in_escape(rest, actor),
            State::Data => self.parse_in_data(rest, actor),
            State::Ground | State::Csi | State::Osc | State::Dcs | State::Ignored | State::Apc =>
                self.parse_unfinished(rest, actor),
        }
    }

    // Takes bytes of a character, a sequence or a string, apart from the fast code for ground.
    #[inline(never)]
    fn parse_unfinished<V: EventSink>(&mut self, rest: &[u8], actor: &mut V) -> Result<usize>
        requires some { 0 < length rest.now }
        requires ready { MayBeGiven V.EventSink (KeptSegment K.TextRoom self.old)
            self.old.limit rest.now actor.old }
        ensures { TakesIn (Holding K.TextRoom self) (Holding K.TextRoom self)
            K.TextRoom V.EventSink result rest.now self actor }
    {
        match self.state {
            State::Csi => self.parse_in_csi(rest, actor),
            State::Osc => match self.pending {
                Pending::Nothing => self.parse_in_osc(rest, actor),
                Pending::One(_) | Pending::Two(_, _) | Pending::Three(_, _, _) => self.parse_one(
                    rest, actor,
                ),
            },
            State::Apc => self.parse_in_apc(rest, actor),
            State::Ignored => self.parse_in_ignored(rest, actor),
            State::Ground | State::Escape | State::Dcs | State::Data => self.parse_one(rest, actor),
        }
    }

    /// Takes one byte: not in an APC, nor between two units of an OSC.
    pub fn parse_one<V: EventSink>(&mut self, rest: &[u8], actor: &mut V) -> Result<usize>
        requires some { 0 < length rest.now }
        requires ready { MayBeGiven V.EventSink (KeptSegment K.TextRoom self.old)
            self.old.limit rest.now actor.old }
        requires between { is_outside_text self.old.state (prefix_of self.old.pending) ≡ true }
        ensures { TakesIn (Holding K.TextRoom self) InAny
            K.TextRoom V.EventSink result rest.now self actor }
    {
        self.step_after(rest, 0, actor)
    }

    /// Takes the byte, if there is one, after a run of this length that was kept.
    pub fn step_after<V: EventSink>(
        &mut self,
        rest: &[u8],
        run: usize,
        actor: &mut V,
    ) -> Result<usize>
        requires count { (0 < length rest.now) × (run ≤ length rest.now) }
        requires ready { MayBeGiven V.EventSink (KeptAfter K.TextRoom rest.now run self.old)
            self.old.limit rest.now actor.old }
        ensures { TakesIn (HoldingAfter K.TextRoom rest.now run self)
            (AfterStill self.old.limit rest.now run)
            K.TextRoom V.EventSink result rest.now self actor }
    {
        if run == rest.len() {
            return Ok(run);
        }
        self.step(rest[run], classify(rest[run]), actor)?;
        Ok(run + 1)
    }
}
