//! A parser of terminal escape sequences for C, and for programs that link C's libraries: it takes
//! a stream in chunks, keeps all in its caller's memory, and takes none itself. `heapless_parser`
//! is that parser.
//!
//! `include/escape_stream_parser.h` declares the calls for C. The archive needs no other.
//!
//! ```text
//! escape_stream_begin(&parser);
//! taken = escape_stream_next(&parser, buffer, sizeof buffer, bytes, length, &event);
//! // of "\x1b[1mbold": taken is 4, event.kind is ESCAPE_STREAM_CSI, and event.byte is 'm'
//! ```
#![tactic(auto)]

ghost use Rattle.std.specs.Prelude.{◌≡◌, ◌↔◌, ℕ, List, [], IsTrue, false, true};
ghost use Rattle.esc_frame.specs.Events.{Event};
ghost use Rattle.esc_frame.specs.Stream.{IsAtGround};
ghost use Rattle.heapless_parser.specs.States.{HasConsumed, lower};
ghost use Rattle.heapless_parser.specs.Next.{Next, NeverFails, halves};

use heapless_parser::event::EscEvent;
use heapless_parser::next::next;
use heapless_parser::parser::EscParser;

/// Begins a stream.
#[unsafe(no_mangle)]
pub extern "C" fn escape_stream_begin(parser: &mut EscParser)
    ensures { (memory : List ℕ) → HasConsumed [] [] parser.new memory }
{
    *parser = EscParser::new();
}

/// Takes bytes of the stream up to the next event, notes the event, and returns how many bytes were
/// taken: all of them, if there is no event.
///
/// The buffer is the same at each call of a parser. Its lower half keeps the unfinished string,
/// which nobody else may write, its upper half receives the texts that are handed out. A string
/// longer than the lower half is not handed out.
///
/// Its promises are the record `Next` of `heapless_parser`. It fails only if the parser or the
/// buffer hold other bytes than its calls left there.
#[unsafe(no_mangle)]
pub extern "C" fn escape_stream_next(
    parser: &mut EscParser,
    buffer: &mut [u8],
    bytes: &[u8],
    event: &mut EscEvent,
) -> usize
    ensures holds { Next parser (halves buffer.old) (halves buffer.new) bytes.now event.new result }
    ensures sound { NeverFails parser.old (lower buffer.old) event.new }
{
    next(parser, buffer, bytes, event)
}

/// Returns whether no character, sequence or string of the stream so far is unfinished. After a
/// failure it is false.
#[unsafe(no_mangle)]
pub extern "C" fn escape_stream_is_ground(parser: &EscParser) -> bool
    ensures ground { (s : List ℕ) (es : List Event) (memory : List ℕ)
        → HasConsumed s es parser.now memory → IsTrue result ↔ IsAtGround s }
    ensures failed { parser.now.has_failed ≡ true → result ≡ false }
{
    parser.is_ground()
}
