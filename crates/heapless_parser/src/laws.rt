//! Laws of a parser and its memory.

ghost use Rattle.std.specs.Prelude.{◌++◌, ℕ, List, length};
ghost use Rattle.esc_frame.specs.Events.{Event};
ghost use Rattle.esc_frame.specs.Segments.{IsCut, Segment};
ghost use Rattle.heapless_parser.specs.Growing.{AreShort};
ghost use Rattle.heapless_parser.specs.States.{HasConsumed};
ghost use Rattle.heapless_parser.specs.declared.parser.EscParser.{EscParser};

/// A parser that gets more memory, which begins with the bytes of the old one, goes on as if it had
/// had all of it from the beginning, if no string so far was longer than the old memory.
#[tactic(auto, using(crate::proofs::Growing::grows))]
pub fn memory_grows()
    ensures { (s : List ℕ) (es : List Event) (gs : List Segment) (p : EscParser)
        (memory more : List ℕ) → IsCut s gs → AreShort (length memory) gs
        → HasConsumed s es p memory → HasConsumed s es p (memory ++ more) }
{}
