//! A law of the parser: the finished segments of its stream have no effect on later ones.
ghost use Rattle.std.specs.Prelude.{List, Option, ℕ};
ghost use Rattle.esc_frame.specs.Stream.{IsAfterFinished};
ghost use Rattle.esc_parse.specs.Fed.{ParserHasConsumedWithin};
ghost use Rattle.esc_parse.specs.declared.parser.Parser.{Parser};

use std::alloc::Allocator;

/// A parser that was fed a stream is as one that was fed only the rest of it after some finished
/// segments. So each promise of a call after a stream holds as well after the unfinished part of
/// the stream alone: the actions of the call, and that memory is asked for only if the cut of that
/// part and of the call's bytes holds a string or a control sequence.
#[tactic(auto, using(crate::proofs::Values::NothingIsKept::unfinished_alone))]
pub fn unfinished_alone<A: Allocator>()
    ensures { (limit : Option ℕ) (s u : List ℕ) (p : Parser A) → IsAfterFinished s u
        → ParserHasConsumedWithin limit s p → ParserHasConsumedWithin limit u p }
{}
