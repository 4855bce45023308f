//! Reading a stream as borrowed actions.
ghost use Rattle.escape_stream.specs.BorrowedCalls.{CallsBorrowed, GivesBorrowed, MayCall, MayFeed};

use crate::borrow_adapter::BorrowAdapter;
use crate::borrowed::ActionRef;
use crate::borrowing::{BorrowingCalls, BorrowingSink};
use esc_actions::{Action, laws};
use esc_frame::error::ParseError;
use esc_parse::Parser;
use std::alloc::{Allocator, Global};

/// Gives the sink, in order, borrowed actions that together are exactly the actions that `bytes`
/// add to the meaning of the bytes fed before, and hands the sink back. The actions are those that
/// [`Parser::parse_into`] would give, with no copy of text, parameters and commands.
///
/// The sink has to be ready for any borrowed action; or, if the parser was fed a stream, for these,
/// in order; or, if the parser has failed, for none.
///
/// `ParseError::Memory` says that a request for memory was refused, the parser's or the sink's: the
/// sink was given borrowed actions that together are a prefix of these actions, and the parser has
/// failed. Without the sink's doing it does not come while the stream so far holds only characters,
/// stray and broken bytes, controls, lone terminators and escape sequences, whole or cut short.
/// `ParseError::Failed` says that an earlier call had been refused one: the sink comes back as it
/// was.
pub fn parse_borrowed_into<A: Allocator + Copy, S: BorrowingSink<Action<A>>>(
    parser: &mut Parser<A>,
    bytes: &[u8],
    sink: S,
) -> (Result<(), ParseError>, S)
    requires { MayFeed S.BorrowingSink parser.old sink bytes.now }
    ensures { GivesBorrowed S.BorrowingSink parser.old bytes.now sink result.0 parser.new
        result.1 }
{
    let (result, borrow_adapter) = parser.parse_into(bytes, BorrowAdapter::new(sink));
    (result, borrow_adapter.into_sink())
}

/// Calls `callback`, in order, on borrowed actions that together are exactly the actions that
/// `bytes` add to the meaning of the bytes fed before. The actions are those on which
/// [`Parser::parse`] would call it, with no copy of text, parameters and commands.
///
/// As [`Parser::parse`] it is for the global allocator alone, and [`parse_borrowed_into`] is for
/// any. The closure has to be callable always; or, if the parser was fed a stream, on borrowed
/// actions that together are these, in order, and no others; or, if the parser has failed, never.
/// So it is called in no other way.
///
/// `ParseError::Memory` says that a request for memory was refused, after borrowed actions that
/// together are a prefix of these; the parser has failed. It comes as from [`Parser::parse`].
/// `ParseError::Failed` says that an earlier call had been refused one: the closure is not called,
/// since on such a parser it need not be callable, and the parser has still failed.
///
/// A closure takes a clause, `ensures { ⊤ }` or a better one, since without one no proof is found
/// of a closure whose argument has a lifetime; the name of a function takes none.
///
/// ```text
/// parse_borrowed(&mut parser, b"\x1b[2Jabc", |action| ensures { ⊤ } {
///     match action {
///         ActionRef::Text(text) => screen.show(text),
///         ActionRef::Print(c) => screen.show_one(c),
///         ActionRef::Control(code) => screen.control(code),
///         ActionRef::Sgr(sgr) => screen.look(sgr),
///         ActionRef::Sequence { params, control, .. } => screen.run(params, control),
///         ActionRef::Command(text) => screen.command(text),
///         ActionRef::Owned(action) => screen.act(action),
///     }
/// })?;
/// ```
pub fn parse_borrowed<F: FnMut(ActionRef<'_>)>(
    parser: &mut Parser,
    bytes: &[u8],
    callback: F,
) -> Result<(), ParseError>
    requires { MayCall F.FnMut parser.old callback bytes.now }
    ensures { CallsBorrowed F.FnMut parser.old bytes.now callback result parser.new }
{
    laws::yield_handed_out::<Global>();
    let (result, _calls) = parse_borrowed_into(parser, bytes, BorrowingCalls { callback });
    result
}
