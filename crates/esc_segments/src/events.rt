//! The events of a segment by itself.
#![tactic(auto)]

ghost use Rattle.std.specs.Prelude.{◌≡◌, ◌∷◌, Bool, List, OnOk, [], if◌then◌else◌, true, ℕ};
ghost use Rattle.esc_frame.specs.Events.{Takes};
ghost use Rattle.esc_frame.specs.Events.Event.{Execute, Print};
ghost use Rattle.esc_frame.specs.Memory.{may_grow};
ghost use Rattle.esc_frame.specs.Segments.{HasShape, Segment as Shape, after_c2, events_of};
ghost use Rattle.esc_segments.specs.Items.{IsItem};
ghost use Rattle.fallible_alloc.specs.Refusals.{Refused};

use crate::characters::character_of;
use crate::dispatch::{csi, cut_short, escape, execute_in};
use crate::item::Segment;
use crate::kind::SegmentKind;
use crate::openers::split_opener;
use crate::strings::{apc, dcs, osc};
use esc_frame::VTActor;
use std::alloc::{AllocError, Allocator};

/// Gives an actor the events of a segment, by splitting its bytes: those that a parser gives for
/// it, wherever it comes in a stream.
///
/// The segment is one that [`Segments`](crate::Segments) gave. If it is unfinished, these are its
/// events so far. For any other value of the type, the promise is only that the call returns. It
/// takes memory only for a string, and only while it runs. `AllocError` says that memory was
/// refused, here or by the actor, after a prefix of the events.
pub fn segment_events<A: Allocator + Copy, V: VTActor>(
    alloc: A,
    segment: &Segment<'_>,
    actor: &mut V,
) -> Result<(), AllocError>
    requires { V.is_ready actor.old }
    ensures emitted { (g : Shape) (after : List ℕ) → HasShape g after → IsItem segment.now g after
        → Takes ((may_grow g ≡ true) × Refused A) V.takes V.refuses result actor.old
        (events_of g segment.now.finished) actor.new }
    ensures ready { OnOk result (V.is_ready actor.new) }
{
    let bytes = segment.bytes;
    match segment.kind {
        SegmentKind::Character => actor.print(character_of(bytes)),
        SegmentKind::Broken => broken(segment.finished, actor),
        SegmentKind::Stray => actor.print('\u{fffd}'),
        SegmentKind::Control => control(bytes, actor),
        SegmentKind::Terminator => Ok(()),
        SegmentKind::Escape => escape(bytes, actor),
        SegmentKind::Csi => csi(bytes, actor),
        SegmentKind::Dcs => dcs(alloc, bytes, segment.finished, actor),
        SegmentKind::Osc => osc(alloc, bytes, segment.finished, actor),
        SegmentKind::Apc => apc(alloc, bytes, segment.finished, actor),
        SegmentKind::Ignored => execute_in(split_opener(bytes).0, actor),
        SegmentKind::CutShort => cut_short(bytes, actor),
    }
}

// Gives a prefix of a character, which prints nothing as long as it may go on.
fn broken<V: VTActor>(finished: bool, actor: &mut V) -> Result<(), AllocError>
    requires { V.is_ready actor.old }
    ensures emitted { Takes ⊥ V.takes V.refuses result actor.old
        (if finished then Print 0xfffd ∷ [] else []) actor.new }
    ensures ready { OnOk result (V.is_ready actor.new) }
{
    if finished {
        actor.print('\u{fffd}')
    } else {
        Ok(())
    }
}

// Executes a control, raw or after C2: its last byte.
fn control<V: VTActor>(bytes: &[u8], actor: &mut V) -> Result<(), AllocError>
    requires { V.is_ready actor.old }
    ensures emitted { (p : Bool) (b : ℕ) → bytes.now ≡ after_c2 p b
        → Takes ⊥ V.takes V.refuses result actor.old (Execute b ∷ []) actor.new }
    ensures ready { OnOk result (V.is_ready actor.new) }
{
    if bytes.is_empty() {
        return Ok(());
    }
    actor.execute_c0_or_c1(bytes[bytes.len() - 1])
}
