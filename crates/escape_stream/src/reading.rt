//! The actions of a segment by itself.
ghost use Rattle.std.specs.Prelude.{◌≡◌, IfOk, List, OnErr, map, ℕ};
ghost use Rattle.esc_actions.specs.Readings.{reading};
ghost use Rattle.esc_actions.specs.Values.{value_of};
ghost use Rattle.esc_frame.specs.Segments.{HasShape, Segment as Shape};
ghost use Rattle.esc_segments.specs.Items.{IsItem};
ghost use Rattle.fallible_alloc.specs.Refusals.{Refused};
ghost use Rattle.escape_stream.specs.Reading.{MayWantToRead};

use esc_actions::Action;
use esc_parse::Collect;
use esc_parse::performer::Performer;
use esc_parse::unfinished::Unfinished;
use esc_segments::{Segment, segment_events};
use std::alloc::{AllocError, Allocator};

/// Returns the actions of a segment, in order, as a [`Parser`](crate::Parser) would hand them out
/// wherever the segment comes in a stream. They are found by splitting the segment's bytes, without
/// a parser.
///
/// The segment is one that [`Segments`](esc_segments::Segments) gave. If it is unfinished, these
/// are its actions so far. For any other value of the type, the promise is only that the call
/// returns. `AllocError` says that memory was refused; then nothing is handed out. A segment
/// without actions gives this error only if it is a string or a control sequence, whole or cut
/// short.
pub fn read_segment<A: Allocator + Copy>(
    alloc: A,
    segment: &Segment<'_>,
) -> Result<Vec<Action<A>, A>, AllocError>
    ensures ok { (g : Shape) (after : List ℕ) → HasShape g after → IsItem segment.now g after
        → IfOk result (λ v. map value_of v.items ≡ reading g segment.now.finished) }
    ensures refused { (g : Shape) (after : List ℕ) → HasShape g after → IsItem segment.now g after
        → OnErr result (MayWantToRead A g segment.now.finished × Refused A) }
{
    let mut performer = Performer {
        sink: Collect::new(alloc),
        alloc,
        unfinished: Unfinished::new(None),
    };
    match segment_events(alloc, segment, &mut performer) {
        Ok(()) => Ok(performer.sink.actions),
        Err(error) => Err(error),
    }
}
