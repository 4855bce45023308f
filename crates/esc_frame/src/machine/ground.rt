//! These methods parse characters, controls and openers in ground.
#![tactic(auto)]

ghost use Rattle.std.specs.Prelude.{◌≡◌, ◌<◌, ◌++◌, ◌∷◌, ℕ, List, Option, None, [], Bool, true, length};
ghost use Rattle.esc_frame.specs.Classes.{class_of};
ghost use Rattle.esc_frame.specs.Leads.{Holds};
ghost use Rattle.esc_frame.specs.Leads.Unfinished.{Ground, InEscape};
ghost use Rattle.esc_frame.specs.Machine.Prefixes.{prefix_of};
ghost use Rattle.esc_frame.specs.Machine.Makes.{MayEmit, MayEmitAll, Makes, AlwaysMakes, ConsumesSome, StaysReady};
ghost use Rattle.esc_frame.specs.Machine.Moves.{events_all, emitting, ground_move, pair_move, pending_move};
ghost use Rattle.esc_frame.specs.Events.Event.{Print};
ghost use Rattle.esc_frame.specs.Sequences.{outcome, is_sequence};
ghost use Rattle.esc_frame.specs.Machine.Taking.{InGround, TakesInGround, TakesPart, TakesQuietly};

use crate::classes::{Breaker, Class, classify};
use crate::machine::{Machine, Result, State};
use crate::runs::printing::{execute_one, print_first, print_one};
use crate::taker::EventSink;
use crate::unfinished::intermediates::Intermediates;
use crate::unfinished::store::TextRoom;
use crate::utf8::sequence::{Outcome, Pending};
use std::alloc::Allocator;

impl<K: TextRoom, A: Allocator> Machine<K, A> {
    /// Takes a byte in ground, with nothing pending.
    #[tactic(auto, using(crate::proofs::Emits::EventsFold::receives_moved))]
    pub fn in_ground<V: EventSink>(&mut self, b: u8, class: Class, actor: &mut V) -> Result<()>
        requires { MayEmit V.EventSink (ground_move b class).1 actor.old }
        ensures moved { AlwaysMakes K.TextRoom V.EventSink result (ground_move b class) self actor }
        ensures ready { StaysReady V.EventSink result self actor }
    {
        self.state = State::Ground;
        self.pending = Pending::Nothing;
        match class {
            Class::Breaks(breaker) => self.break_in_ground(b, breaker, actor),
            Class::C0 | Class::Bell => actor.execute_c0_or_c1(b),
            Class::Lead => {
                self.pending = Pending::One(b);
                Ok(())
            }
            Class::High => actor.print('\u{fffd}'),
            Class::Intermediate
            | Class::Parameter
            | Class::Introducer(_)
            | Class::Final
            | Class::Delete => { actor.print(b as char) }
        }
    }

    /// Begins an escape sequence, after ESC.
    #[inline(always)]
    pub fn enter_escape(&mut self)
        ensures holds { (limit : Option ℕ) → Holds K.keeps limit self.new (InEscape []) }
        ensures limit { self.new.limit ≡ self.old.limit }
    {
        self.intermediates = Intermediates::new();
        self.state = State::Escape;
    }

    /// Takes a breaker after a string: mostly it is the ESC of the string terminator.
    #[inline(always)]
    pub fn leave_string<V: EventSink>(&mut self, b: u8, actor: &mut V) -> Result<()>
        requires { MayEmit V.EventSink (ground_move b (class_of b)).1 actor.old }
        ensures moved { AlwaysMakes K.TextRoom V.EventSink result
            (ground_move b (class_of b)) self actor }
        ensures ready { StaysReady V.EventSink result self actor }
    {
        if b == 0x1b {
            self.enter_escape();
            Ok(())
        } else {
            self.in_ground(b, classify(b), actor)
        }
    }

    // Takes a breaker in ground.
    #[inline(always)]
    #[tactic(auto, using(crate::proofs::Emits::EventsFold::receives_moved))]
    fn break_in_ground<V: EventSink>(
        &mut self,
        b: u8,
        breaker: Breaker,
        actor: &mut V,
    ) -> Result<()>
        requires ready { MayEmit V.EventSink
            (ground_move b (Class.Breaks breaker)).1 actor.old }
        requires ground { (self.old.state ≡ State.Ground)
            × (self.old.pending ≡ Pending.Nothing) }
        ensures moved { AlwaysMakes K.TextRoom V.EventSink result
            (ground_move b (Class.Breaks breaker)) self actor }
        ensures ready { StaysReady V.EventSink result self actor }
    {
        match breaker {
            Breaker::Cancel | Breaker::C1 => actor.execute_c0_or_c1(b),
            Breaker::Escape => {
                self.enter_escape();
                Ok(())
            }
            Breaker::C1Introducer(kind) => {
                self.open(kind);
                Ok(())
            }
            Breaker::C1Terminator => Ok(()),
        }
    }

    /// Takes a control after C2.
    #[tactic(auto, using(crate::proofs::Emits::EventsFold::receives_moved))]
    pub fn c1_in_utf8<V: EventSink>(&mut self, b: u8, class: Class, actor: &mut V) -> Result<()>
        requires { MayEmit V.EventSink (pair_move b class).1 actor.old }
        ensures moved { AlwaysMakes K.TextRoom V.EventSink result (pair_move b class) self actor }
        ensures ready { StaysReady V.EventSink result self actor }
    {
        self.state = State::Ground;
        self.pending = Pending::Nothing;
        match class {
            Class::Breaks(Breaker::C1) => actor.execute_c0_or_c1(b),
            Class::Breaks(Breaker::C1Introducer(kind)) => {
                self.open(kind);
                Ok(())
            }
            Class::Breaks(Breaker::C1Terminator | Breaker::Cancel | Breaker::Escape)
            | Class::C0
            | Class::Bell
            | Class::Lead
            | Class::High
            | Class::Intermediate
            | Class::Parameter
            | Class::Introducer(_)
            | Class::Final
            | Class::Delete => Ok(()),
        }
    }

    /// Takes a byte after a prefix of a character's sequence.
    pub fn in_pending<V: EventSink>(&mut self, b: u8, class: Class, actor: &mut V) -> Result<()>
        requires { MayEmit V.EventSink (pending_move (prefix_of self.old.pending) b class
            (outcome (prefix_of self.old.pending) b)).1 actor.old }
        ensures moved { (limit : Option ℕ) (own : Bool) (f : List ℕ)
            → prefix_of self.old.pending ≡ f
            → Makes K.TextRoom V.EventSink limit own result
            (pending_move f b class (outcome f b)) self actor }
        ensures ready { StaysReady V.EventSink result self actor }
    {
        match self.pending.outcome(b) {
            Outcome::Whole => self.whole(b, class, actor),
            Outcome::More => {
                self.state = State::Ground;
                self.pending = self.pending.with(b);
                Ok(())
            }
            Outcome::Broken => self.break_off(b, class, actor),
        }
    }

    // Takes a byte that breaks off a character's sequence.
    fn break_off<V: EventSink>(&mut self, b: u8, class: Class, actor: &mut V) -> Result<()>
        requires { MayEmit V.EventSink
            (emitting (Print 0xfffd ∷ []) (ground_move b class)).1 actor.old }
        ensures moved { AlwaysMakes K.TextRoom V.EventSink result
            (emitting (Print 0xfffd ∷ []) (ground_move b class)) self actor }
        ensures ready { StaysReady V.EventSink result self actor }
    {
        actor.print('\u{fffd}')?;
        self.in_ground(b, class, actor)
    }

    // Takes a byte that completes a sequence.
    #[tactic(auto, using(crate::proofs::Emits::EventsFold::receives_moved))]
    fn whole<V: EventSink>(&mut self, b: u8, class: Class, actor: &mut V) -> Result<()>
        requires ready { MayEmit V.EventSink (pending_move (prefix_of self.old.pending) b class
            Outcome.Whole).1 actor.old }
        requires whole { is_sequence (prefix_of self.old.pending ++ b ∷ []) ≡ true }
        ensures moved { AlwaysMakes K.TextRoom V.EventSink result
            (pending_move (prefix_of self.old.pending) b class Outcome.Whole) self actor }
        ensures ready { StaysReady V.EventSink result self actor }
    {
        if self.pending.pairs_with(b) {
            self.c1_in_utf8(b, class, actor)
        } else {
            let c = self.pending.character(b);
            self.state = State::Ground;
            self.pending = Pending::Nothing;
            actor.print(c)
        }
    }

    /// Takes characters, controls and short control sequences while they come, and then an
    /// operating system command or one byte.
    #[inline(always)]
    pub fn parse_in_ground<V: EventSink>(&mut self, rest: &[u8], actor: &mut V) -> Result<usize>
        requires some { 0 < length rest.now }
        requires ready { MayEmit V.EventSink (events_all self.old.limit Ground rest.now) actor.old }
        requires ground { Holds K.keeps self.old.limit self.old Ground }
        ensures { TakesPart InGround K.TextRoom V.EventSink result rest.now self actor }
    {
        let mut at = 0;
        while at < rest.len() {
            match self.parse_fast(&rest[at..], actor) {
                Ok(0) => {
                    let n = self.parse_osc_or_byte(&rest[at..], actor)?;
                    return Ok(at + n);
                }
                Ok(n) => at += n,
                Err(e) => return Err(e),
            }
        }
        Ok(at)
    }

    // Takes characters, a control, or a short control sequence; nothing if anything else comes.
    #[inline(always)]
    fn parse_fast<V: EventSink>(&mut self, rest: &[u8], actor: &mut V) -> Result<usize>
        requires some { 0 < length rest.now }
        requires ready { MayEmitAll V.EventSink Ground rest.now actor.old }
        requires ground { Holds K.keeps None self.old Ground }
        ensures { TakesInGround K.TextRoom V.EventSink result rest.now self actor }
    {
        if rest[0] >= 0x20 {
            return print_one(rest, actor);
        }
        if rest[0] == 0x1b {
            self.parse_short_csi(rest, actor)
        } else {
            execute_one(rest, actor)
        }
    }

    /// Takes one character, short control sequence, operating system command or byte.
    #[inline(always)]
    pub fn first_in_ground<V: EventSink>(&mut self, rest: &[u8], actor: &mut V) -> Result<usize>
        requires some { 0 < length rest.now }
        requires ready { MayEmit V.EventSink (events_all self.old.limit Ground rest.now) actor.old }
        requires ground { Holds K.keeps self.old.limit self.old Ground }
        ensures { ConsumesSome K.TextRoom V.EventSink self.old.limit result rest.now self actor }
    {
        match self.first_fast(rest, actor) {
            Ok(0) => self.parse_osc_or_byte(rest, actor),
            Ok(n) => Ok(n),
            Err(e) => Err(e),
        }
    }

    // Takes a character, or a short control sequence; takes nothing if anything else comes.
    #[inline(always)]
    fn first_fast<V: EventSink>(&mut self, rest: &[u8], actor: &mut V) -> Result<usize>
        requires some { 0 < length rest.now }
        requires ready { MayEmitAll V.EventSink Ground rest.now actor.old }
        requires ground { Holds K.keeps None self.old Ground }
        ensures { TakesQuietly K.TextRoom V.EventSink result rest.now self actor }
    {
        if rest[0] == 0x1b {
            self.parse_short_csi(rest, actor)
        } else {
            print_first(rest, actor)
        }
    }

    // Takes an operating system command that ESC opens, or a byte.
    #[inline(always)]
    fn parse_osc_or_byte<V: EventSink>(&mut self, rest: &[u8], actor: &mut V) -> Result<usize>
        requires some { 0 < length rest.now }
        requires ready { MayEmit V.EventSink (events_all self.old.limit Ground rest.now) actor.old }
        ensures { ConsumesSome K.TextRoom V.EventSink self.old.limit result rest.now self actor }
    {
        if rest.len() > 2 && rest[0] == 0x1b && rest[1] == b']' {
            self.parse_osc(rest, actor)
        } else {
            self.parse_one_in_ground(rest, actor)
        }
    }

    /// Takes one byte in ground.
    #[inline(always)]
    pub fn parse_one_in_ground<V: EventSink>(&mut self, rest: &[u8], actor: &mut V) -> Result<usize>
        requires some { 0 < length rest.now }
        requires ready { MayEmitAll V.EventSink Ground rest.now actor.old }
        ensures { (limit : Option ℕ)
            → ConsumesSome K.TextRoom V.EventSink limit result rest.now self actor }
    {
        self.in_ground(rest[0], classify(rest[0]), actor)?;
        Ok(1)
    }
}
