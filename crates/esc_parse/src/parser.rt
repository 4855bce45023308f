//! The parser.
ghost use Rattle.std.specs.Prelude.{◌≡◌, ◌≤◌, ◌+◌, min, List, [], IfOk, IfSome, Some, map};
ghost use Rattle.esc_frame.specs.Counts.{kept_of_cut};
ghost use Rattle.esc_frame.specs.Limits.{most};
ghost use Rattle.esc_frame.specs.Segments.{IsCut, Segment};
ghost use Rattle.esc_actions.specs.Limited.{data_kept};
ghost use Rattle.esc_parse.specs.Calls.{After, CallsBack, GivesAll, IsRefused, MayCall, MayFeed, StaysBroken, Yields};
ghost use Rattle.esc_actions.specs.Meaning.{MayWant};
ghost use Rattle.esc_actions.specs.Values.{value_of};
ghost use Rattle.esc_actions.specs.Writable.{EmittedAreWritable};

mod firsts;

use crate::performer::Performer;
use crate::sink::{Calls, Collect, Sink};
use crate::unfinished::Unfinished;
use esc_actions::{Action, laws};
use esc_frame::error::ParseError;
use esc_frame::parser::VTParser;
pub use esc_sixel::SixelBuilder;
use std::alloc::{Allocator, Global};
pub use xtgettcap::GetTcapBuilder;

/// Reads a stream of bytes, in whatever chunks it comes, as actions.
///
/// The stream is cut into segments as vt100.net's parser for DEC terminals cuts it, with UTF-8 read
/// by Unicode's Table 3-7, application program commands read like other strings, 3A a parameter
/// byte of a control sequence, 07 an end of an operating system command, and A0-FF no control or
/// letter. `parse`, `parse_into` and `parse_as_vec` hand out all that their bytes add to the
/// meaning of the bytes fed since the beginning or the last `restart`, so the chunks make no
/// difference. The calls for first actions may drop some, as they say.
///
/// After a call that returned `ParseError::Memory` every call that is fed bytes returns
/// `ParseError::Failed`, and nothing is handed out any more.
#[derive(Drop)]
pub struct Parser<A: Allocator = Global> {
    framer: VTParser<A>,
    alloc: A,
    unfinished: Unfinished<A>,
}

impl<A: Allocator + Copy> Parser<A> {
    ghost use Rattle.esc_parse.specs.Fed.{IsBroken, ParserHasConsumed, ParserHasConsumedWithin};

    /// Returns a parser at the beginning of a stream. Takes no memory.
    #[tactic(auto, unfolding(crate::specs::Fed::ParserHasConsumedWithin))]
    pub fn new(alloc: A) -> Parser<A>
        ensures { ParserHasConsumed [] result }
    {
        Parser {
            framer: VTParser::new(alloc),
            alloc,
            unfinished: Unfinished::new(None),
        }
    }

    /// Returns a parser at the beginning of a stream that keeps at most `limit` bytes of a segment.
    /// Takes no memory.
    ///
    /// An operating system command, an application program command, and a sixel image, termcap
    /// query or short control with more data give no action but the controls in their openers, and
    /// a device control string with more parameter bytes in its header is passed over. A short
    /// control is a device control string with the intermediate `$` and the final byte `q`, as a
    /// query of a setting. The segments of the stream are the same as without a limit.
    #[tactic(auto, unfolding(crate::specs::Fed::ParserHasConsumedWithin))]
    pub fn with_limit(alloc: A, limit: usize) -> Parser<A>
        ensures { ParserHasConsumedWithin (Some limit) [] result }
    {
        Parser {
            framer: VTParser::with_limit(alloc, limit),
            alloc,
            unfinished: Unfinished::new(Some(limit)),
        }
    }

    /// Begins a new stream: an unfinished segment is dropped, and gives no action. The limit stays,
    /// and so does the memory that strings took. A parser that has failed stays so.
    pub fn restart(&mut self)
        ensures fed { After self.old (λ limit s. ParserHasConsumedWithin limit [] self.new) }
        ensures failed { IsBroken self.old → IsBroken self.new }
    {
        self.framer.restart();
        self.unfinished.restart();
    }

    /// Returns the number of bytes that are kept of the unfinished segment. An operating system
    /// command keeps its text in UTF-8; an application program command its bytes 20 to 7F; a device
    /// control string its parameter bytes 30 to 39 and 3B until its final byte, and after it the
    /// data of a sixel image, termcap query or short control. Any other device control string keeps
    /// no data: a mode hands it out as it comes, and one whose header does not have its form is
    /// passed over. The count is 0 also once the limit was passed, if no such segment is
    /// unfinished, and after a failure. Without a limit a count past [`usize::MAX`] is returned as
    /// `usize::MAX`.
    pub fn kept(&self) -> usize
        ensures given { After self.now (λ limit s. (gs : List Segment) → IsCut s gs
            → result ≡ min (kept_of_cut limit gs + data_kept limit s) most) }
        ensures within { After self.now (λ limit s. IfSome limit (λ n. result ≤ n)) }
        ensures failed { IsBroken self.now → result ≡ 0 }
    {
        laws::has_cut();
        laws::keeps_once();
        let text = self.framer.kept();
        let bytes = self.unfinished.kept();
        text.saturating_add(bytes)
    }

    /// Gives the sink, in order, exactly the actions that `bytes` add to the meaning of the bytes
    /// fed before, and hands the sink back. They can be written, but for the four kinds of
    /// [`is_exception`](esc_actions::exceptions::is_exception), by the law
    /// [`yield_handed_out`](esc_actions::laws::yield_handed_out).
    ///
    /// The sink has to be ready for any action; or, if the parser was fed a stream, for these, in
    /// this order; or, if the parser has failed, for none.
    ///
    /// `ParseError::Memory` says that a request of the parser for memory was refused, or that the
    /// sink returned an error: it was given a prefix of these actions, and the parser has failed.
    /// Unless the sink causes it, it does not come while the stream so far holds only characters,
    /// stray and broken bytes, controls, lone terminators and escape sequences, whole or cut short.
    /// Only the bytes of the unfinished segment matter here among the bytes fed before, by the law
    /// [`unfinished_alone`](crate::laws::unfinished_alone). `ParseError::Failed` says that an
    /// earlier call returned `Memory`: the sink comes back as it was.
    #[tactic(auto, unfolding(crate::specs::Fed::ParserHasConsumedWithin))]
    pub fn parse_into<S: Sink<Action<A>>>(
        &mut self,
        bytes: &[u8],
        sink: S,
    ) -> (Result<(), ParseError>, S)
        requires { MayFeed S.Sink self.old sink bytes.now }
        ensures { GivesAll S.Sink self.old bytes.now sink result.0 self.new result.1 }
    {
        let mut performer = Performer {
            sink,
            alloc: self.alloc,
            unfinished: self.unfinished.take(),
        };
        let result = self.framer.parse(bytes, &mut performer);
        let Performer {
            sink,
            alloc: _,
            unfinished,
        } = performer;
        match result {
            Ok(()) => {
                self.unfinished = unfinished;
                (Ok(()), sink)
            }
            Err(error) => (Err(error), sink),
        }
    }

    /// Returns the actions that `bytes` add to the meaning of the bytes fed before, in order. They
    /// can be written, but for the four kinds of
    /// [`is_exception`](esc_actions::exceptions::is_exception).
    ///
    /// `ParseError::Memory` says that a request for memory was refused; the actions so far are
    /// dropped, and the parser has failed. It does not come if the bytes fed before and these hold
    /// no control sequence and no string, whole or cut short, and add no action.
    /// `ParseError::Failed` says that an earlier call returned `Memory`; the parser has still
    /// failed.
    pub fn parse_as_vec(&mut self, bytes: &[u8]) -> Result<Vec<Action<A>, A>, ParseError>
        ensures given { After self.old (λ limit s. IfOk result
            (λ v. Yields limit s bytes.now self.new (map value_of v.items))) }
        ensures handed_out { After self.old (λ limit s. IfOk result
            (λ v. EmittedAreWritable (map value_of v.items))) }
        ensures refused { After self.old (λ limit s. IsRefused result self.new
            (MayWant A limit s bytes.now)) }
        ensures failed { StaysBroken self.old result self.new }
    {
        laws::yield_handed_out::<A>();
        self.collect(bytes)
    }

    fn collect(&mut self, bytes: &[u8]) -> Result<Vec<Action<A>, A>, ParseError>
        ensures given { After self.old (λ limit s. IfOk result
            (λ v. Yields limit s bytes.now self.new (map value_of v.items))) }
        ensures refused { After self.old (λ limit s. IsRefused result self.new
            (MayWant A limit s bytes.now)) }
        ensures failed { StaysBroken self.old result self.new }
    {
        let sink = Collect {
            actions: Vec::new(self.alloc),
        };
        let (result, Collect { actions }) = self.parse_into(bytes, sink);
        match result {
            Ok(()) => Ok(actions),
            Err(error) => Err(error),
        }
    }
}

impl Parser {
    /// Calls `callback` on each action that `bytes` add to the meaning of the bytes fed before, in
    /// order. They can be written, but for the four kinds of
    /// [`is_exception`](esc_actions::exceptions::is_exception).
    ///
    /// This call is for the global allocator alone, since the language does not accept a bound
    /// `FnMut(Action<A>)` with a type parameter `A` yet: [`parse_into`](Parser::parse_into) is for
    /// any. The closure has to be callable always; or, if the parser was fed a stream, on these
    /// actions, in this order, and no others; or, if the parser has failed, never.
    ///
    /// `ParseError::Memory` says that a request for memory was refused, after a prefix of these
    /// actions; the parser has failed. It does not come while the stream so far holds only
    /// characters, stray and broken bytes, controls, lone terminators and escape sequences, whole
    /// or cut short: for these no memory is taken. `ParseError::Failed` says that an earlier call
    /// returned `Memory`: the closure, which need not be callable then, is not called, and the
    /// parser has still failed.
    #[tactic(auto, unfolding(crate::specs::Fed::ParserHasConsumedWithin))]
    pub fn parse<F: FnMut(Action)>(&mut self, bytes: &[u8], callback: F) -> Result<(), ParseError>
        requires { MayCall F.FnMut self.old callback bytes.now }
        ensures { CallsBack F.FnMut self.old bytes.now callback result self.new }
    {
        laws::yield_handed_out::<Global>();
        self.parse_into(bytes, Calls { callback }).0
    }
}
