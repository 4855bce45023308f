//! The actions of a segment by itself, under a limit.
#![tactic(auto)]

ghost use Rattle.std.specs.Prelude.{◌≡◌, ◌∷◌, ◌++◌, IfOk, IfSome, IsTrue, List, OnErr, OnOk, Some, [], false, map, take, ℕ};
ghost use Rattle.std.specs.List.{FoldsTo};
ghost use Rattle.esc_actions.specs.Meaning.{meaning_within};
ghost use Rattle.esc_actions.specs.Readings.{reading_within};
ghost use Rattle.esc_actions.specs.Texts.{list_text};
ghost use Rattle.esc_actions.specs.Values.{Value, value_of};
ghost use Rattle.esc_actions.specs.Writable.{EmittedAreWritable};
ghost use Rattle.esc_frame.specs.Segments.{AreSegments, HasShape, Segment as Shape, events_of, is_finished, joined_bytes};
ghost use Rattle.esc_frame.specs.Events.Event.{CsiDispatch};
ghost use Rattle.esc_parse.specs.Given.{At};
ghost use Rattle.esc_segments.specs.Items.{IsItem};
ghost use Rattle.esc_segments.specs.declared.kind.SegmentKind.TheVariants as kinds;
ghost use Rattle.esc_account.specs.Brief.{brief};
ghost use Rattle.esc_account.specs.Briefs.{TookHandedOut};
ghost use Rattle.esc_account.specs.Short.{IsShort, is_dcs};
ghost use Rattle.fallible_alloc.specs.Refusals.{Refused};

use crate::brief::Brief;
use esc_actions::{Action, laws};
use esc_frame::VTActor;
use esc_frame::unfinished::short::Short;
use esc_normal::{TextSink, normal_text};
use esc_parse::performer::Performer;
use esc_parse::unfinished::Unfinished;
use esc_parse::{Parser, Sink};
use esc_segments::{Segment, SegmentKind, segment_events};
use esc_values::Text;
use std::alloc::{AllocError, Allocator};

/// Gives a sink the actions of a segment, by splitting its bytes.
pub(crate) fn split_into<A: Allocator + Copy, S: Sink<Action<A>> + Drop>(
    alloc: A,
    limit: usize,
    segment: Segment<'_>,
    sink: S,
) -> Result<S, AllocError>
    requires ready { S.is_ready sink }
    requires short { IsShort limit segment.kind segment.bytes.now }
    ensures { (g : Shape) (gs : List Shape) → AreSegments (g ∷ gs)
        → IsItem segment.entry g (joined_bytes gs)
        → IfOk result (λ q. FoldsTo (At value_of S.takes) sink
        (reading_within (Some limit) g (is_finished g (joined_bytes gs))) q) }
{
    let mut performer = Performer {
        sink,
        alloc,
        unfinished: Unfinished::new(Some(limit)),
    };
    match give_events(alloc, segment, &mut performer) {
        Ok(()) => Ok(performer.sink),
        Err(error) => Err(error),
    }
}

// Gives an actor the events of a segment.
fn give_events<A: Allocator + Copy, V: VTActor>(
    alloc: A,
    segment: Segment<'_>,
    actor: &mut V,
) -> Result<(), AllocError>
    requires { V.is_ready actor.old }
    ensures { (g : Shape) (after : List ℕ) → HasShape g after → IsItem segment.entry g after
        → OnOk result (FoldsTo V.takes actor.old (events_of g segment.entry.finished) actor.new) }
{
    if is_csi(segment.kind) {
        give_sequence(alloc, segment, actor)
    } else {
        segment_events(alloc, &segment, actor)
    }
}

// The same of a control sequence: that of a short one at once.
fn give_sequence<A: Allocator + Copy, V: VTActor>(
    alloc: A,
    segment: Segment<'_>,
    actor: &mut V,
) -> Result<(), AllocError>
    requires { V.is_ready actor.old }
    ensures { (g : Shape) (after : List ℕ) → HasShape g after → IsItem segment.entry g after
        → OnOk result (FoldsTo V.takes actor.old (events_of g segment.entry.finished) actor.new) }
{
    let mut params = Short::new();
    match short_final(&mut params, segment) {
        Some(last) => actor.csi_dispatch(params.as_slice(), false, last),
        None => segment_events(alloc, &segment, actor),
    }
}

// The final byte of a control sequence after `ESC [` that is short, whose parameters are read.
pub(crate) fn short_final(params: &mut Short, segment: Segment<'_>) -> Option<u8>
    ensures told { IfSome result (λ f. (g : Shape) (after : List ℕ) → HasShape g after
        → IsItem segment.entry g after → events_of g segment.entry.finished
        ≡ CsiDispatch (take params.new.count params.new.items) false f ∷ []) }
    ensures csi { IfSome result (λ f. segment.entry.kind ≡ kinds.Csi) }
{
    let bytes = segment.bytes;
    if !is_csi(segment.kind) || bytes.len() < 3 || bytes[0] != 0x1b || bytes[1] != b'[' {
        return None;
    }
    let last = bytes.len() - 1;
    let body = &bytes[2..last];
    if params.read(body) < body.len() {
        None
    } else {
        Some(bytes[last])
    }
}

pub(crate) fn is_csi(kind: SegmentKind) -> bool
    ensures { IsTrue result → kind ≡ kinds.Csi }
{
    matches!(kind, SegmentKind::Csi)
}

/// Whether the limit takes nothing from the meaning of the segment, by a look at its length.
pub(crate) fn is_short(limit: usize, segment: Segment<'_>) -> bool
    ensures { IsTrue result → IsShort limit segment.entry.kind segment.entry.bytes.now }
{
    !is_dcs(segment.kind) && 3 * (segment.bytes.len() as u128) <= limit as u128
}

fn is_dcs(kind: SegmentKind) -> bool
    ensures { result ≡ is_dcs kind }
{
    matches!(kind, SegmentKind::Dcs)
}

/// Gives a sink the actions of a segment, by a parser that keeps no more than the limit of a
/// string. `AllocError` says that the parser or the sink was refused memory.
pub(crate) fn parse_into<A: Allocator + Copy, S: Sink<Action<A>> + Drop>(
    alloc: A,
    limit: usize,
    segment: Segment<'_>,
    sink: S,
) -> Result<S, AllocError>
    requires { S.is_ready sink }
    ensures given { (g : Shape) (gs : List Shape) → AreSegments (g ∷ gs)
        → IsItem segment.entry g (joined_bytes gs)
        → IfOk result (λ q. FoldsTo (At value_of S.takes) sink
        (reading_within (Some limit) g (is_finished g (joined_bytes gs))) q) }
    ensures handed_out { IfOk result (λ q. TookHandedOut S.takes sink q) }
    ensures refused { ((p : S) (a : Action A) (q : S) → S.refuses p a q → Refused A)
        → OnErr result (Refused A) }
{
    laws::meaning_of_the_cut::<A>();
    if !segment.finished {
        return feed_into(alloc, limit, segment.bytes, sink);
    }
    match ended(alloc, segment.bytes) {
        Ok(bytes) => feed_into(alloc, limit, bytes.as_slice(), sink),
        Err(error) => Err(error),
    }
}

/// Gives a sink the actions of a segment: by splitting it, if that is short and memory is not
/// refused, and else by a parser, which gives them to the other sink, which is the same.
pub(crate) fn read_into<A: Allocator + Copy, S: Sink<Action<A>> + Drop>(
    alloc: A,
    limit: usize,
    segment: Segment<'_>,
    sink: S,
    again: S,
) -> Result<S, AllocError>
    requires { S.is_ready sink × (again ≡ sink) }
    ensures given { (g : Shape) (gs : List Shape) → AreSegments (g ∷ gs)
        → IsItem segment.entry g (joined_bytes gs)
        → IfOk result (λ q. FoldsTo (At value_of S.takes) sink
        (reading_within (Some limit) g (is_finished g (joined_bytes gs))) q) }
    ensures refused { ((p : S) (a : Action A) (q : S) → S.refuses p a q → Refused A)
        → OnErr result (Refused A) }
{
    if !is_short(limit, segment) {
        return parse_into(alloc, limit, segment, sink);
    }
    match split_into(alloc, limit, segment, sink) {
        Ok(sink) => Ok(sink),
        Err(_) => parse_into(alloc, limit, segment, again),
    }
}

// The same of bytes that are a stream of their own.
fn feed_into<A: Allocator + Copy, S: Sink<Action<A>> + Drop>(
    alloc: A,
    limit: usize,
    bytes: &[u8],
    sink: S,
) -> Result<S, AllocError>
    requires { S.is_ready sink }
    ensures given { IfOk result (λ q. FoldsTo (At value_of S.takes) sink
        (meaning_within (Some limit) bytes.now) q) }
    ensures handed_out { IfOk result (λ q. TookHandedOut S.takes sink q) }
    ensures refused { ((p : S) (a : Action A) (q : S) → S.refuses p a q → Refused A)
        → OnErr result (Refused A) }
{
    laws::handed_out::<A>();
    let mut parser = Parser::with_limit(alloc, limit);
    let (result, sink) = parser.parse_into(bytes, sink);
    match result {
        Ok(()) => Ok(sink),
        Err(_) => Err(AllocError),
    }
}

/// The text of the actions of a segment.
pub(crate) fn segment_text<A: Allocator + Copy>(
    alloc: A,
    limit: usize,
    segment: Segment<'_>,
) -> Result<Text<A>, AllocError>
    ensures given { (g : Shape) (gs : List Shape) → AreSegments (g ∷ gs)
        → IsItem segment.entry g (joined_bytes gs) → IfOk result (λ t. t
        ≡ list_text {A = A} (reading_within (Some limit) g (is_finished g (joined_bytes gs)))) }
    ensures refused { OnErr result (Refused A) }
{
    match text_at_once(alloc, limit, segment) {
        Some(text) => Ok(text),
        None => text_by_parser(alloc, limit, segment),
    }
}

// The same by splitting the segment, where it is short and memory is not refused.
fn text_at_once<A: Allocator + Copy>(
    alloc: A,
    limit: usize,
    segment: Segment<'_>,
) -> Option<Text<A>>
    ensures { (g : Shape) (gs : List Shape) → AreSegments (g ∷ gs)
        → IsItem segment.entry g (joined_bytes gs) → IfSome result (λ t. t
        ≡ list_text {A = A} (reading_within (Some limit) g (is_finished g (joined_bytes gs)))) }
{
    if !is_short(limit, segment) {
        return None;
    }
    match split_into(alloc, limit, segment, TextSink::new(alloc)) {
        Ok(spell) => Some(spell.text),
        Err(_) => None,
    }
}

// The same by a parser.
fn text_by_parser<A: Allocator + Copy>(
    alloc: A,
    limit: usize,
    segment: Segment<'_>,
) -> Result<Text<A>, AllocError>
    ensures given { (g : Shape) (gs : List Shape) → AreSegments (g ∷ gs)
        → IsItem segment.entry g (joined_bytes gs) → IfOk result (λ t. t
        ≡ list_text {A = A} (reading_within (Some limit) g (is_finished g (joined_bytes gs)))) }
    ensures refused { OnErr result (Refused A) }
{
    laws::meaning_of_the_cut::<A>();
    if !segment.finished {
        return normal_text(alloc, segment.bytes, Some(limit));
    }
    match ended(alloc, segment.bytes) {
        Ok(bytes) => normal_text(alloc, bytes.as_slice(), Some(limit)),
        Err(error) => Err(error),
    }
}

/// Returns the actions of a segment, which is the first of those that are left of a stream: those
/// of its reading, if no more than the limit is kept of a string; but of the data of a device
/// control string the first byte alone. A segment that is finished is read with an ESC after it,
/// which ends every segment and is no action if nothing follows. `AllocError` says that a request
/// for memory was refused.
pub fn read_segment<A: Allocator + Copy>(
    alloc: A,
    limit: usize,
    segment: Segment<'_>,
) -> Result<Vec<Action<A>, A>, AllocError>
    ensures given { (g : Shape) (gs : List Shape) → AreSegments (g ∷ gs)
        → IsItem segment.entry g (joined_bytes gs) → IfOk result (λ v. map value_of v.items
        ≡ brief (reading_within (Some limit) g (is_finished g (joined_bytes gs)))) }
    ensures handed_out { IfOk result (λ v. EmittedAreWritable (map value_of v.items)) }
    ensures refused { OnErr result (Refused A) }
{
    let sink = Brief {
        actions: Vec::new(alloc),
        has_datum: false,
    };
    match parse_into(alloc, limit, segment, sink) {
        Ok(brief) => Ok(brief.actions),
        Err(error) => Err(error),
    }
}

/// The same by splitting the bytes of the segment, in less time: if it is no device control string,
/// has so few bytes that the limit leaves nothing out, and memory is not refused.
pub fn read_short<A: Allocator + Copy>(
    alloc: A,
    limit: usize,
    segment: Segment<'_>,
) -> Option<Vec<Action<A>, A>>
    ensures { (g : Shape) (gs : List Shape) → AreSegments (g ∷ gs)
        → IsItem segment.entry g (joined_bytes gs) → IfSome result (λ v. map value_of v.items
        ≡ brief (reading_within (Some limit) g (is_finished g (joined_bytes gs)))) }
{
    if !is_short(limit, segment) {
        return None;
    }
    let sink = Brief {
        actions: Vec::new(alloc),
        has_datum: false,
    };
    match split_into(alloc, limit, segment, sink) {
        Ok(brief) => Some(brief.actions),
        Err(_) => None,
    }
}

// Copies the bytes, and appends ESC.
fn ended<A: Allocator>(alloc: A, bytes: &[u8]) -> Result<Vec<u8, A>, AllocError>
    ensures given { IfOk result (λ v. v.items ≡ bytes.now ++ 0x1b ∷ []) }
    ensures refused { OnErr result (Refused A) }
{
    let mut ended = fallible_alloc::copied(alloc, bytes)?;
    fallible_alloc::push(&mut ended, 0x1b)?;
    Ok(ended)
}
