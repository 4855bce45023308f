//! Calls that take a prefix of the bytes: up to the first action, or to the first ones after which
//! no segment is unfinished.
ghost use Rattle.std.specs.Prelude.{◌≡◌, ◌<◌, ◌+◌, [], ◌∷◌, ◌++◌, IfSome, IsTrue, None, Option, Some, length, take};
ghost use Rattle.std.specs.Option.{option_map};
ghost use Rattle.esc_parse.specs.Calls.{After, AfterMore, FindsFirst, FindsFirstList, FindsFirsts, GivesPrefix, MayFeed, TakesPrefix, Yields};
ghost use Rattle.esc_parse.specs.Collected.{Adds, AddsSome};
ghost use Rattle.esc_parse.specs.Firsts.{IsStop, first};
ghost use Rattle.esc_frame.specs.Memory.{MayTake};
ghost use Rattle.esc_actions.specs.Meaning.{MayWant, yield_within};
ghost use Rattle.esc_actions.specs.Values.{control, value_of};
ghost use Rattle.fallible_alloc.specs.Refusals.{Refused};

use crate::parser::Parser;
use crate::performer::Performer;
use crate::sink::{Collect, First, Sink};
use esc_actions::{Action, ControlCode, laws};
use esc_frame::error::ParseError;
use esc_frame::runs::printing::first_char;
use std::alloc::Allocator;
use std::mem;

// Returns the list, with the number of bytes that it was read from, if there is one.
#[inline]
fn listed<L: Drop>(list: L, found: Option<usize>) -> Option<(L, usize)>
    ensures { result ≡ option_map (λ n. (list, n)) found }
{
    match found {
        Some(n) => Some((list, n)),
        None => None,
    }
}

impl<A: Allocator + Copy> Parser<A> {
    ghost use Rattle.esc_parse.specs.Fed.{IsBroken, ParserHasConsumedWithin};

    // Gives the sink, in order, the actions that a prefix of `bytes` adds, and hands it back, with
    // the length of the prefix. All but the last byte of it add nothing and leave a segment
    // unfinished.
    #[tactic(auto, unfolding(crate::specs::Fed::ParserHasConsumedWithin))]
    fn feed_next<S: Sink<Action<A>>>(
        &mut self,
        bytes: &[u8],
        sink: S,
    ) -> (Result<usize, ParseError>, S)
        requires { MayFeed S.Sink self.old sink bytes.now }
        ensures { GivesPrefix S.Sink self.old bytes.now sink result.0 self.new result.1 }
    {
        let mut performer = Performer {
            sink,
            alloc: self.alloc,
            unfinished: self.unfinished.take(),
        };
        let result = self.framer.parse_some(bytes, &mut performer);
        let Performer {
            sink,
            alloc: _,
            unfinished,
        } = performer;
        match result {
            Ok(taken) => {
                self.unfinished = unfinished;
                (Ok(taken), sink)
            }
            Err(error) => (Err(error), sink),
        }
    }

    // Does the same; a run of data that gives no action by itself counts as one byte.
    fn feed_some<S: Sink<Action<A>>>(
        &mut self,
        bytes: &[u8],
        sink: S,
    ) -> (Result<usize, ParseError>, S)
        requires { MayFeed S.Sink self.old sink bytes.now }
        ensures { GivesPrefix S.Sink self.old bytes.now sink result.0 self.new result.1 }
    {
        let n = self.unfinished.data_ahead(bytes);
        if n == 0 {
            return self.feed_next(bytes, sink);
        }
        let (result, sink) = self.parse_into(&bytes[..n], sink);
        match result {
            Ok(()) => (Ok(n), sink),
            Err(error) => (Err(error), sink),
        }
    }

    // Returns the first action that a prefix of `bytes` adds, if one does, and the length of the
    // prefix.
    fn first_in(&mut self, bytes: &[u8]) -> (Result<usize, ParseError>, Option<Action<A>>)
        ensures { TakesPrefix self.old bytes.now result.0 self.new (result.1 ≡ None)
            (λ vs. option_map value_of result.1 ≡ first vs)
            (λ limit s. MayTake (s ++ bytes.now) × Refused A) }
    {
        let (taken, First { action }) = self.feed_some(bytes, First { action: None });
        (taken, action)
    }

    // Returns the first action of the shortest prefix of `bytes` that adds one, and the length of
    // the prefix.
    fn first_of(&mut self, bytes: &[u8]) -> Result<Option<(Action<A>, usize)>, ParseError>
        ensures { FindsFirst self.old bytes.now result self.new }
    {
        laws::yield_handed_out::<A>();
        let mut at = 0;
        'prefixes: loop {
            let (taken, action) = self.first_in(&bytes[at..]);
            match taken {
                Ok(taken) => at += taken,
                Err(error) => return Err(error),
            }
            if let Some(action) = action {
                return Ok(Some((action, at)));
            }
            if at == bytes.len() {
                return Ok(None);
            }
        }
    }

    // Returns the control that comes first, in ground.
    #[tactic(auto, unfolding(crate::specs::Fed::ParserHasConsumedWithin))]
    #[cold]
    fn first_control(&self, bytes: &[u8]) -> Option<ControlCode>
        ensures given { After self.now (λ limit s. IfSome result
            (λ c. Yields limit s (take 1 bytes.now) self.now (control c ∷ []))) }
        ensures count { IfSome result (λ c. 0 < length bytes.now) }
        ensures failed { IsBroken self.now → result ≡ None }
    {
        ControlCode::from_byte(self.framer.first_control(bytes)?)
    }

    /// Returns the first action of the shortest prefix of `bytes` that adds one to the meaning of
    /// the bytes fed before, and the length of this prefix, which is all that was fed; further
    /// actions of its last byte are dropped. `None` says that `bytes` add none: then all were fed.
    /// It can be written, but for the four kinds of
    /// [`is_exception`](esc_actions::exceptions::is_exception).
    ///
    /// `ParseError::Memory` says that a request for memory was refused; the parser has failed. It
    /// does not come if the bytes fed before and `bytes` hold no control sequence and no string,
    /// whole or cut short. `ParseError::Failed` says that an earlier call returned `Memory`, also
    /// if `bytes` are empty.
    #[tactic(auto, unfolding(crate::specs::Fed::ParserHasConsumedWithin))]
    #[inline]
    pub fn parse_first(&mut self, bytes: &[u8]) -> Result<Option<(Action<A>, usize)>, ParseError>
        ensures { FindsFirst self.old bytes.now result self.new }
    {
        laws::yield_handed_out::<A>();
        match self.framer.first_char(bytes) {
            Some((c, n)) => Ok(Some((Action::Print(c), n))),
            None => match self.first_control(bytes) {
                Some(code) => Ok(Some((Action::Control(code), 1))),
                None => self.first_of(bytes),
            },
        }
    }

    // Appends the actions that a prefix of `bytes` adds, and hands the list back with the length of
    // the prefix.
    #[inline]
    fn more_in(
        &mut self,
        bytes: &[u8],
        actions: Vec<Action<A>, A>,
    ) -> (Result<usize, ParseError>, Vec<Action<A>, A>)
        ensures { TakesPrefix self.old bytes.now result.0 self.new
            (result.1.items ≡ actions.items) (λ vs. Adds actions.items vs result.1.items)
            (λ limit s. (MayWant A limit s bytes.now
            × AddsSome actions.items (yield_within limit s bytes.now) result.1.items)
            × Refused A) }
    {
        let (taken, Collect { actions }) = self.feed_some(bytes, Collect { actions });
        (taken, actions)
    }

    // Returns whether actions came after the first `had`, and no segment is unfinished.
    #[tactic(auto, unfolding(crate::specs::Fed::ParserHasConsumedWithin))]
    fn stops(&self, had: usize, actions: &[Action<A>]) -> bool
        ensures some { IsTrue result → had < length actions.now }
        ensures yes { AfterMore self.now had (length actions.now)
            (λ limit s b. IsTrue result → IsStop A limit s b) }
        ensures no { AfterMore self.now had (length actions.now)
            (λ limit s b. IsStop A limit s b → IsTrue result) }
    {
        actions.len() > had && self.framer.is_ground()
    }

    // Appends the first actions, and hands the list back.
    fn firsts_after(
        &mut self,
        bytes: &[u8],
        mut actions: Vec<Action<A>, A>,
    ) -> (Result<Option<usize>, ParseError>, Vec<Action<A>, A>)
        ensures { FindsFirsts self.old bytes.now actions.items result.0 self.new result.1.items }
    {
        laws::yield_handed_out::<A>();
        let had = actions.as_slice().len();
        let mut at = 0;
        'prefixes: loop {
            let (taken, all) = self.more_in(&bytes[at..], actions);
            actions = all;
            match taken {
                Ok(taken) => at += taken,
                Err(error) => return (Err(error), actions),
            }
            if self.stops(had, actions.as_slice()) {
                return (Ok(Some(at)), actions);
            }
            if at == bytes.len() {
                return (Ok(None), actions);
            }
        }
    }

    // Does the same, in the caller's list, which may have no room yet, apart from the code that
    // appends one character.
    #[inline(never)]
    fn firsts_of(
        &mut self,
        bytes: &[u8],
        actions: &mut Vec<Action<A>, A>,
    ) -> Result<Option<usize>, ParseError>
        ensures { FindsFirsts self.old bytes.now actions.old.items result self.new
            actions.new.items }
    {
        let had = mem::replace(actions, Vec::new(self.alloc));
        let (found, all) = self.firsts_after(bytes, had);
        *actions = all;
        found
    }

    /// Appends to the list all actions of the shortest prefix of `bytes` that adds one and leaves
    /// no segment unfinished, and returns the length of this prefix, which is all that was fed: it
    /// finds the actions of [`parse_first_as_vec`](Parser::parse_first_as_vec). `None` says that
    /// there is no such prefix: then all `bytes` were fed, and the actions that they added were
    /// appended.
    ///
    /// Clear the list and pass it again, and its memory is used again. In ground a character of 20
    /// to 7F or a control then takes a short path; this is speed, and no clause promises it.
    ///
    /// `ParseError::Memory` says that a request for memory was refused, the parser's or the list's:
    /// a prefix of the actions that `bytes` add was appended, and the parser has failed.
    /// `ParseError::Failed` says that an earlier call returned `Memory`, also if `bytes` are empty;
    /// the list stays as it was.
    #[tactic(auto, unfolding(crate::specs::Fed::ParserHasConsumedWithin))]
    #[inline]
    pub fn parse_first_into(
        &mut self,
        bytes: &[u8],
        actions: &mut Vec<Action<A>, A>,
    ) -> Result<Option<usize>, ParseError>
        ensures { FindsFirsts self.old bytes.now actions.old.items result self.new
            actions.new.items }
    {
        laws::yield_handed_out::<A>();
        if actions.len() < actions.capacity() && self.framer.is_ground() {
            if let Some((c, n)) = first_char(bytes) {
                actions.push_reserved(Action::Print(c));
                return Ok(Some(n));
            }
            if let Some(code) = self.first_control(bytes) {
                actions.push_reserved(Action::Control(code));
                return Ok(Some(1));
            }
        }
        self.firsts_of(bytes, actions)
    }

    /// Returns all actions of the shortest prefix of `bytes` that adds one and leaves no segment
    /// unfinished, and the length of this prefix, which is all that was fed. So no later action
    /// belongs to a sequence or a string that began before: a string comes with its terminator.
    /// `None` says that there is no such prefix: then all `bytes` were fed, and the actions that
    /// they added are dropped.
    ///
    /// `ParseError::Memory` says that a request for memory was refused; the actions so far are
    /// dropped, and the parser has failed. `ParseError::Failed` says that an earlier call returned
    /// `Memory`, also if `bytes` are empty.
    pub fn parse_first_as_vec(
        &mut self,
        bytes: &[u8],
    ) -> Result<Option<(Vec<Action<A>, A>, usize)>, ParseError>
        ensures { FindsFirstList (λ l. l.items) self.old bytes.now result self.new }
    {
        let (found, actions) = self.firsts_after(bytes, Vec::new(self.alloc));
        match found {
            Ok(found) => Ok(listed(actions, found)),
            Err(error) => Err(error),
        }
    }
}
