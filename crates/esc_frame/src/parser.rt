//! This module defines the parser.
#![tactic(auto)]

ghost use Rattle.std.specs.Prelude.{◌≡◌, ◌≢◌, ◌<◌, ◌≤◌, ◌∷◌, [], length, take, IsTrue, ◌↔◌, IfSome, IsSome, None, Some, false};
ghost use Rattle.esc_frame.specs.Events.Event.{Execute, Print};
ghost use Rattle.esc_frame.specs.Parses.{MayGive, After, AfterGround, FirstByte, AddsOne, Parses, ParsesSome, IsRefusedByActor, TakesSome, Leaves, IsKeptOf};
ghost use Rattle.esc_frame.specs.Memory.{AreBorrowed};
ghost use Rattle.esc_frame.specs.Stream.{HasConsumed, HasConsumedWithin, HasFailed, IsAtGround, IsQuietWithin};

use crate::actor::VTActor;
use crate::classes::classify;
use crate::error::ParseError;
use crate::machine::{Machine, State};
use crate::runs::printing::{first_char, first_control};
use crate::unfinished::kept::HeapBuffer;
use crate::utf8::sequence::Pending;
use std::alloc::{Allocator, Global};

/// Splits a stream of bytes, in chunks of any size, into the events of its segments, and gives them
/// to an actor: the machine of <https://vt100.net/emu/dec_ansi_parser>, with UTF-8 in text and in
/// operating system commands, and with application program commands handed out.
///
/// The parser keeps only the unfinished segment: two intermediates of an escape sequence, 256
/// parameters of a control sequence, the text of an operating system command or an application
/// program command, the header of a device control string. It keeps nothing of that string's data,
/// of a start of string (SOS) or of a privacy message (PM). [`with_limit`](VTParser::with_limit)
/// bounds what it keeps of a string. Intermediates, and the parameters of control sequences, lie in
/// the parser, in some 5 KB: only a string takes memory.
///
/// A call that returns `ParseError::Memory` is the last that parses: from then on each call that is
/// given bytes for an actor returns `ParseError::Failed`, and gives the actor nothing.
#[derive(Drop)]
pub struct VTParser<A: Allocator = Global> {
    machine: Machine<HeapBuffer<A>, A>,
    has_failed: bool,
}

impl<A: Allocator> VTParser<A> {
    /// Returns a parser at the beginning of a stream. The parser takes no memory before a string
    /// begins that it keeps.
    #[tactic(auto, unfolding(crate::specs::Stream::HasConsumedWithin))]
    pub fn new(alloc: A) -> Self
    where
        A: Copy,
        ensures { HasConsumed [] result }
    {
        VTParser {
            machine: Machine::new(HeapBuffer::new(alloc), alloc, None),
            has_failed: false,
        }
    }

    /// Returns a parser at the beginning of a stream that keeps at most `limit` bytes of a string:
    /// of the text of an operating system command in UTF-8, of the bytes 20 to 7F of an application
    /// program command, or of the bytes 30 to 39 and 3B of a device control string's header. Once a
    /// string passes the limit, the parser lets its bytes go, and does not dispatch or hook it; it
    /// parses what follows as a parser without a limit does.
    #[tactic(auto, unfolding(crate::specs::Stream::HasConsumedWithin))]
    pub fn with_limit(alloc: A, limit: usize) -> Self
    where
        A: Copy,
        ensures { HasConsumedWithin (Some limit) [] result }
    {
        VTParser {
            machine: Machine::new(HeapBuffer::new(alloc), alloc, Some(limit)),
            has_failed: false,
        }
    }

    /// Begins a new stream: an unfinished segment is dropped, without its events. The limit stays,
    /// and so does the memory that strings took. A parser that has failed stays so.
    #[tactic(auto, unfolding(crate::specs::Stream::HasConsumedWithin, crate::specs::Stream::HasFailed))]
    pub fn restart(&mut self)
        ensures fed { After self.old (λ limit s. HasConsumedWithin limit [] self.new) }
        ensures failed { HasFailed self.old → HasFailed self.new }
    {
        self.machine.state = State::Ground;
        self.machine.pending = Pending::Nothing;
    }

    /// Returns how many bytes of the unfinished string are kept, counted as for
    /// [`with_limit`](VTParser::with_limit). It is 0 if the string passed the limit, if no such
    /// text or header is unfinished, and after a failure. Without a limit a count past
    /// [`usize::MAX`] is returned as `usize::MAX`.
    #[tactic(auto, unfolding(crate::specs::Stream::HasConsumedWithin, crate::specs::Stream::HasFailed))]
    pub fn kept(&self) -> usize
        ensures given { After self.now (IsKeptOf result) }
        ensures within { After self.now (λ limit s. IfSome limit (λ n. result ≤ n)) }
        ensures failed { HasFailed self.now → result ≡ 0 }
    {
        if self.has_failed {
            0
        } else {
            self.machine.kept()
        }
    }

    /// Returns whether the bytes so far leave no unfinished segment. After a failure it is false.
    #[tactic(auto, unfolding(crate::specs::Stream::HasConsumedWithin, crate::specs::Stream::HasFailed))]
    pub fn is_ground(&self) -> bool
        ensures ground { After self.now (λ limit s. IsTrue result ↔ IsAtGround s) }
        ensures failed { HasFailed self.now → result ≡ false }
    {
        !self.has_failed && self.machine.is_ground()
    }

    /// Returns whether an earlier call returned an error. Then each call that is given bytes for an
    /// actor returns `ParseError::Failed`, `kept` returns 0, and no first character or control
    /// comes.
    #[tactic(auto, unfolding(crate::specs::Stream::HasConsumedWithin, crate::specs::Stream::HasFailed))]
    pub fn has_failed(&self) -> bool
        ensures failed { IsTrue result ↔ HasFailed self.now }
        ensures fed { After self.now (λ limit s. result ≡ false) }
    {
        self.has_failed
    }

    /// Returns the character that comes first in `bytes`, and its length in bytes, if that is seen
    /// without a change of the parser. These bytes then count as fed: they add this character and
    /// nothing else, and the parser is as before. So a caller that takes characters one at a time
    /// needs no actor for them.
    ///
    /// After `None` nothing counts as fed, and the caller goes on by a call of another kind. It is
    /// always `None` after a failure, and never if no segment is unfinished and the first byte is
    /// 20 to 7F.
    #[inline]
    pub fn first_char(&self, bytes: &[u8]) -> Option<(char, usize)>
        ensures count { IfSome result (λ x. (0 < x.1) × (x.1 ≤ length bytes.now)) }
        ensures given { After self.now (λ limit s. IfSome result (λ x.
            AddsOne limit s (take x.1 bytes.now) (Print x.0) self.now
            × IsQuietWithin limit s bytes.now x.1)) }
        ensures text { AfterGround self.now (λ limit s.
            FirstByte bytes.now (λ b. 0x20 ≤ b → b < 0x80 → IsSome result)) }
        ensures failed { HasFailed self.now → result ≡ None }
    {
        if self.is_ground() {
            first_char(bytes)
        } else {
            None
        }
    }

    /// Returns the control that comes first in `bytes`, if that is seen without a change of the
    /// parser: the first byte, if it is 00 to 1F but not ESC. As with
    /// [`first_char`](VTParser::first_char), this byte then counts as fed, and adds this control
    /// and nothing else.
    ///
    /// It is always `None` after a failure, and never if no segment is unfinished and the first
    /// byte is such a control.
    #[inline]
    pub fn first_control(&self, bytes: &[u8]) -> Option<u8>
        ensures count { IfSome result (λ b. 0 < length bytes.now) }
        ensures given { After self.now (λ limit s. IfSome result (λ b.
            AddsOne limit s (take 1 bytes.now) (Execute b) self.now)) }
        ensures control { AfterGround self.now (λ limit s.
            FirstByte bytes.now (λ b. b < 0x20 → b ≢ 0x1b → IsSome result)) }
        ensures failed { HasFailed self.now → result ≡ None }
    {
        if !self.is_ground() {
            return None;
        }
        first_control(bytes)
    }

    /// Takes the next byte of the stream, and gives the actor, in order, the events that it adds to
    /// those of the bytes before. The actor has to be ready for any event, or to await these.
    ///
    /// The error is `Memory` if the actor refused a call, or if memory was refused for a string
    /// that is unfinished or begins here: nothing else asks for memory. Then the actor received a
    /// prefix of these events, and the parser has failed. The error is `Failed` if the parser had
    /// failed before, and the actor is as it was.
    #[tactic(auto, unfolding(crate::specs::Stream::HasConsumedWithin, crate::specs::Stream::HasFailed))]
    pub fn parse_byte<V: VTActor>(&mut self, byte: u8, actor: &mut V) -> Result<(), ParseError>
        requires { MayGive V.VTActor self.old (byte ∷ []) actor.old }
        ensures parsed { After self.old (Parses A V.VTActor result (byte ∷ []) self actor) }
        ensures after { Leaves V.VTActor result self actor }
    {
        if self.has_failed {
            return Err(ParseError::Failed);
        }
        match self.machine.step(byte, classify(byte), actor) {
            Ok(()) => Ok(()),
            Err(_) => {
                self.has_failed = true;
                Err(ParseError::Memory)
            }
        }
    }

    /// Takes the next bytes of the stream, however many, and gives the actor, in order, the events
    /// that they add to those of the bytes before. The actor has to be ready for any event, or to
    /// await these. However a stream is cut into calls, its events are the same.
    ///
    /// The error is `Memory` if the actor refused a call, or if memory was refused for a string
    /// that is unfinished or in these bytes: nothing else asks for memory. Then the actor received
    /// a prefix of these events, and the parser has failed. The error is `Failed` if the parser had
    /// failed before, and the actor is as it was.
    ///
    /// If no segment is unfinished before and after these bytes, and they hold only text, controls,
    /// escape sequences, control sequences and two kinds of string, the error comes only of a call
    /// that the actor refused. These kinds are an operating system command of at most 16 parts with
    /// a text of bytes 20 to 7F and well-formed UTF-8 alone, and an application program command
    /// with a text of bytes 20 to 7F alone. Their texts are slices of `bytes`, and take no memory.
    #[tactic(auto, unfolding(crate::specs::Stream::HasConsumedWithin, crate::specs::Stream::HasFailed))]
    pub fn parse<V: VTActor>(&mut self, bytes: &[u8], actor: &mut V) -> Result<(), ParseError>
        requires { MayGive V.VTActor self.old bytes.now actor.old }
        ensures parsed { After self.old (Parses A V.VTActor result bytes.now self actor) }
        ensures borrowed { AfterGround self.old (λ limit s. AreBorrowed bytes.now
            → IsRefusedByActor V.VTActor result bytes.now actor limit s) }
        ensures after { Leaves V.VTActor result self actor }
    {
        if self.has_failed {
            return Err(ParseError::Failed);
        }
        match self.machine.parse_all(bytes, actor) {
            Ok(()) => Ok(()),
            Err(_) => {
                self.has_failed = true;
                Err(ParseError::Memory)
            }
        }
    }

    /// Takes a prefix of the bytes, at least one byte unless there is none, gives the actor, in
    /// order, the events that it adds to those of the bytes before, and returns its length. All but
    /// the last of its bytes add no event and leave a segment unfinished. So a caller can stop at
    /// the first event, or at the first place without an unfinished segment, and give the bytes
    /// after it to a later call. The actor has to be ready for any event, or to await those that
    /// `bytes` add.
    ///
    /// The error is `Memory` if the actor refused a call, or if memory was refused for a string
    /// that is unfinished or in these bytes. Then the actor received a prefix of the events that
    /// they add, and the parser has failed. The error is `Failed` if the parser had failed before,
    /// and the actor is as it was.
    #[tactic(auto, unfolding(crate::specs::Stream::HasConsumedWithin, crate::specs::Stream::HasFailed))]
    pub fn parse_some<V: VTActor>(
        &mut self,
        bytes: &[u8],
        actor: &mut V,
    ) -> Result<usize, ParseError>
        requires { MayGive V.VTActor self.old bytes.now actor.old }
        ensures count { TakesSome result bytes.now actor }
        ensures parsed { After self.old (ParsesSome A V.VTActor result bytes.now self actor) }
        ensures after { Leaves V.VTActor result self actor }
    {
        if self.has_failed {
            return Err(ParseError::Failed);
        }
        if bytes.is_empty() {
            return Ok(0);
        }
        match self.machine.parse_until_event(bytes, actor) {
            Ok(n) => Ok(n),
            Err(_) => {
                self.has_failed = true;
                Err(ParseError::Memory)
            }
        }
    }
}
