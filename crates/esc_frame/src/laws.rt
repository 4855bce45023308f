//! Laws over all streams say that a stream has one cut, that its events are those of the cut, and
//! which texts give their events whatever follows them.
#![tactic(auto)]

ghost use Rattle.std.specs.Prelude.{◌≡◌, ◌++◌, ◌&&◌, ℕ, List, Option, [], ◌∷◌, true, false};
ghost use Rattle.std.specs.Char.{encode_utf8};
ghost use Rattle.std.specs.List.{list_any};
ghost use Rattle.esc_values.specs.Clear.{is_clear, IsClearText, parts_of, string_terminator};
ghost use Rattle.esc_frame.specs.Classes.{class_of, AllOf, is_control, is_c1, is_intermediate, is_text, is_put, in_body, ends_escape, ends_csi, opens};
ghost use Rattle.esc_frame.specs.Bodies.{is_csi_body, is_dcs_header, kept_intermediates, has_more_intermediates};
ghost use Rattle.esc_frame.specs.Events.{Event};
ghost use Rattle.esc_frame.specs.Events.Event.{Print, Execute, EscDispatch, OscDispatch, DcsUnhook, ApcDispatch};
ghost use Rattle.esc_frame.specs.Segments.{Segment, IsCut, HasEvents, HasEventsWithin, joined_bytes, is_empty, csi_event, hook_event, puts};
ghost use Rattle.esc_frame.specs.Leads.{AreFinished, finished_events};
ghost use Rattle.esc_frame.specs.Stream.{events, events_within, added_events, added_within, HasConsumedWithin, Says, IsAfterFinished, IsAtGround, IsUnfinished};
ghost use Rattle.esc_frame.specs.declared.parser.VTParser.{VTParser};
ghost use Rattle.esc_frame.specs.Counts.{AreWithin};
ghost use Rattle.esc_frame.specs.Fits.{AreFit, IsOneSegment};
ghost use Rattle.esc_frame.specs.Memory.{may_grow, MayGrow, may_take, MayTake};

use std::alloc::Allocator;

/// Any two cuts of a stream are equal.
#[tactic(auto, using(crate::proofs::Cut::CutIsUnique::one_cut))]
pub fn one_cut()
    ensures { (stream : List ℕ) (gs hs : List Segment) → IsCut stream gs → IsCut stream hs
        → gs ≡ hs }
{}

/// Every stream has a cut.
#[tactic(auto, using(crate::proofs::Cut::CutExists::has_cut))]
pub fn has_cut()
    ensures { (stream : List ℕ) → (gs : List Segment) × IsCut stream gs }
{}

/// A stream has one list of events.
pub fn events_once()
    ensures { (stream : List ℕ) (xs ys : List Event) → HasEvents stream xs → HasEvents stream ys
        → xs ≡ ys }
{}

/// The events of a stream are those of its cut.
pub fn events_of_the_cut()
    ensures { (s : List ℕ) → HasEvents s (events s) }
{}

/// The events of a prefix come first, and then those that the rest adds.
#[tactic(auto, using(crate::proofs::Emits::EventsAreTheCuts::events_more))]
pub fn events_more()
    ensures { (s b : List ℕ) → events s ++ added_events s b ≡ events (s ++ b) }
{}

/// The events that two chunks add one after another are those that they add joined: no division of
/// the input into calls changes the events.
#[tactic(auto, using(crate::proofs::Emits::EventsAreTheCuts::added_append))]
pub fn added_append()
    ensures { (s b c : List ℕ) → added_events s (b ++ c) ≡ added_events s b
        ++ added_events (s ++ b) c }
{}

/// Bytes after a stream with nothing unfinished add their own events.
pub fn ground_added()
    ensures { (s b : List ℕ) → IsAtGround s → added_events s b ≡ events b }
{}

/// The events of any stream have these forms.
pub fn events_fit()
    ensures { (s : List ℕ) → AreFit (events s) }
{}

/// Under a limit a stream has one list of events too.
pub fn events_once_within()
    ensures { (limit : Option ℕ) (stream : List ℕ) (xs ys : List Event)
        → HasEventsWithin limit stream xs → HasEventsWithin limit stream ys → xs ≡ ys }
{}

/// Under a limit the events of a stream are those of its cut.
pub fn events_of_the_cut_within()
    ensures { (limit : Option ℕ) (s : List ℕ) → HasEventsWithin limit s (events_within limit s) }
{}

/// If no segment of a stream passes the limit, its events are those without a limit.
pub fn same_within()
    ensures { (limit : Option ℕ) (s : List ℕ) (gs : List Segment) → IsCut s gs → AreWithin limit gs
        → events_within limit s ≡ events s }
{}

/// Under a limit too, the events of a prefix come first, and then those that the rest adds.
#[tactic(auto, using(crate::proofs::Emits::EventsAreTheCuts::events_more))]
pub fn events_more_within()
    ensures { (limit : Option ℕ) (s b : List ℕ)
        → events_within limit s ++ added_within limit s b ≡ events_within limit (s ++ b) }
{}

/// Under a limit too, two chunks one after another add what they add joined.
#[tactic(auto, using(crate::proofs::Emits::EventsAreTheCuts::added_append))]
pub fn added_append_within()
    ensures { (limit : Option ℕ) (s b c : List ℕ)
        → added_within limit s (b ++ c) ≡ added_within limit s b ++ added_within limit (s ++ b) c }
{}

/// Under a limit too, bytes after a stream with nothing unfinished add their own events.
pub fn ground_added_within()
    ensures { (limit : Option ℕ) (s b : List ℕ) → IsAtGround s
        → added_within limit s b ≡ events_within limit b }
{}

/// The events of any stream have these forms under a limit too.
pub fn events_fit_within()
    ensures { (limit : Option ℕ) (s : List ℕ) → AreFit (events_within limit s) }
{}

/// Finished segments do not act on later bytes: a parser that was fed a stream is as one that was
/// fed the stream without some of its first finished segments. So each clause of a call also holds
/// with the stream's unfinished segment in place of the stream.
#[tactic(auto, using(crate::proofs::Emits::FinishedIsForgotten::unfinished_alone))]
pub fn unfinished_alone<A: Allocator>()
    ensures { (limit : Option ℕ) (s u : List ℕ) (p : VTParser A) → IsAfterFinished s u
        → HasConsumedWithin limit s p → HasConsumedWithin limit u p }
{}

/// Bytes add to a stream what they add to its rest after finished segments.
#[tactic(auto, using(crate::proofs::Emits::FinishedIsForgotten::added_alone))]
pub fn added_alone()
    ensures { (limit : Option ℕ) (s u b : List ℕ) → IsAfterFinished s u
        → added_within limit s b ≡ added_within limit u b }
{}

/// Every stream has an unfinished part, which may be empty.
#[tactic(auto, using(crate::proofs::Emits::FinishedIsForgotten::has_unfinished))]
pub fn has_unfinished()
    ensures { (s : List ℕ) → (u : List ℕ) × IsUnfinished s u }
{}

/// The empty text says no event.
#[tactic(auto, using(crate::proofs::Emits::EventsAreTheCuts::says_nil))]
pub fn says_nil()
    ensures { Says [] [] }
{}

/// Joined texts say their events one after another.
#[tactic(auto, using(crate::proofs::Emits::EventsAreTheCuts::says_append))]
pub fn says_append()
    ensures { (t u : List ℕ) (es fs : List Event) → Says t es → Says u fs
        → Says (t ++ u) (es ++ fs) }
{}

/// The events that a text says are its events as a stream.
pub fn says_events()
    ensures { (t : List ℕ) (es : List Event) → Says t es → events t ≡ es }
{}

/// Segments that are finished whatever follows say their events.
#[tactic(auto, using(crate::proofs::Emits::EventsAreTheCuts::says_segments))]
pub fn says_segments()
    ensures { (gs : List Segment) → ((rest : List ℕ) → AreFinished gs rest)
        → Says (joined_bytes gs) (finished_events gs) }
{}

/// One segment that is finished by itself says its events.
#[tactic(auto, using(crate::proofs::Emits::SegmentsSay::says_itself))]
pub fn says_itself()
    ensures { (t : List ℕ) (es : List Event) → IsOneSegment t es → Says t es }
{}

/// The UTF-8 of a clear character prints it.
#[tactic(auto, using(crate::proofs::Emits::SegmentsSay::says_print))]
pub fn says_print()
    ensures { (c : ℕ) → is_clear c ≡ true → Says (encode_utf8 c) (Print c ∷ []) }
{}

/// A C0 control but ESC is executed.
#[tactic(auto, using(crate::proofs::Emits::SegmentsSay::says_control))]
pub fn says_control()
    ensures { (b : ℕ) → is_control (class_of b) ≡ true → Says (b ∷ []) (Execute b ∷ []) }
{}

/// A C1 control in UTF-8 that opens and ends nothing is executed.
#[tactic(auto, using(crate::proofs::Emits::SegmentsSay::says_high_control))]
pub fn says_high_control()
    ensures { (b : ℕ) → is_c1 (class_of b) ≡ true → Says (0xc2 ∷ b ∷ []) (Execute b ∷ []) }
{}

/// An escape sequence is dispatched: ESC, intermediates 20-2F and a final byte 30-7E that does not
/// open a sequence.
#[tactic(auto, using(crate::proofs::Emits::SequencesSay::says_escape))]
pub fn says_escape()
    ensures { (is : List ℕ) (f : ℕ) → AllOf is_intermediate is → ends_escape (class_of f) ≡ true
        → (is_empty is && opens (class_of f)) ≡ false
        → Says ((0x1b ∷ is) ++ f ∷ [])
        (EscDispatch (kept_intermediates is) (has_more_intermediates is) f ∷ []) }
{}

/// A control sequence with a body of its form and a final byte 40-7E is dispatched.
#[tactic(auto, using(crate::proofs::Emits::SequencesSay::says_csi))]
pub fn says_csi()
    ensures { (x : List ℕ) (f : ℕ) → AllOf in_body x → is_csi_body x ≡ true
        → ends_csi (class_of f) ≡ true → Says ((0x1b ∷ 0x5b ∷ x) ++ f ∷ []) (csi_event x f ∷ []) }
{}

/// An operating system command with a clear text and its string terminator is dispatched, in parts.
#[tactic(auto, using(crate::proofs::Emits::StringsSay::says_osc))]
pub fn says_osc()
    ensures { (t : List ℕ) → IsClearText t
        → Says ((0x1b ∷ 0x5d ∷ t) ++ string_terminator)
        (OscDispatch (parts_of t) ∷ EscDispatch [] false 0x5c ∷ []) }
{}

/// An application program command of 20-7F with its string terminator is dispatched whole.
#[tactic(auto, using(crate::proofs::Emits::StringsSay::says_apc))]
pub fn says_apc()
    ensures { (t : List ℕ) → AllOf is_text t
        → Says ((0x1b ∷ 0x5f ∷ t) ++ string_terminator)
        (ApcDispatch t ∷ EscDispatch [] false 0x5c ∷ []) }
{}

/// A device control string with a header of its form, a final byte 40-7E and data that no byte
/// breaks off is hooked, put byte by byte and unhooked.
#[tactic(auto, using(crate::proofs::Emits::StringsSay::says_dcs))]
pub fn says_dcs()
    ensures { (x d : List ℕ) (f : ℕ) → AllOf in_body x → is_dcs_header x ≡ true
        → ends_csi (class_of f) ≡ true → AllOf is_put d
        → Says ((((0x1b ∷ 0x50 ∷ []) ++ x ++ f ∷ []) ++ d) ++ string_terminator)
        (((hook_event x f ∷ puts d) ++ DcsUnhook ∷ []) ++ EscDispatch [] false 0x5c ∷ []) }
{}

/// The cut of a stream shows whether the stream may make a parser's memory grow.
#[tactic(auto, using(crate::proofs::Limit::GrowingSegments::cut_grows))]
pub fn cut_grows()
    ensures { (s : List ℕ) (gs : List Segment) → IsCut s gs → MayGrow s
        → list_any may_grow gs ≡ true }
{}

/// If a prefix of a stream may make a parser's memory grow, the stream may.
#[tactic(auto, using(crate::proofs::Limit::GrowingSegments::more_grows))]
pub fn more_grows()
    ensures { (s t : List ℕ) → MayGrow s → MayGrow (s ++ t) }
{}

/// The cut of a stream shows whether an actor may want memory for it.
#[tactic(auto, using(crate::proofs::Limit::GrowingSegments::cut_takes))]
pub fn cut_takes()
    ensures { (s : List ℕ) (gs : List Segment) → IsCut s gs → MayTake s
        → list_any may_take gs ≡ true }
{}

/// If a prefix of a stream holds such a segment, the stream does.
#[tactic(auto, using(crate::proofs::Limit::GrowingSegments::more_takes))]
pub fn more_takes()
    ensures { (s t : List ℕ) → MayTake s → MayTake (s ++ t) }
{}
