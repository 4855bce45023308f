//! Laws of streams of actions: a stream means the readings of its one cut, a written list reads
//! back, and actions that are handed out can be written. Each holds for every allocator `A`, which
//! the type of the actions names.
ghost use Rattle.std.specs.Prelude.{◌≡◌, ◌++◌, ◌↔◌, ◌⊎◌, List, [], ℕ, Option, false};
ghost use Rattle.std.specs.List.{list_any};
ghost use Rattle.esc_frame.specs.Stream.{IsAfterFinished, IsAtGround, events_within};
ghost use Rattle.esc_frame.specs.Counts.{kept_of_cut};
ghost use Rattle.esc_frame.specs.Segments.{Segment, IsCut};
ghost use Rattle.esc_actions.specs.Appending.{appended_all, gathered_values};
ghost use Rattle.esc_actions.specs.Limited.{IsWithin, data_kept};
ghost use Rattle.esc_actions.specs.Headline.{Headline};
ghost use Rattle.esc_actions.specs.Groups.{JoinsGroups, MeansGroups, MeansWritable, ends_in_mode};
ghost use Rattle.esc_actions.specs.LowerLaws.{LowerLaws};
ghost use Rattle.esc_actions.specs.Meaning.{meaning, meaning_within, mode_from, yield_within, Reads};
ghost use Rattle.esc_actions.specs.Readings.{MeansItsCut, MeansItsSegments};
ghost use Rattle.esc_actions.specs.Texts.{list_text, normal};
ghost use Rattle.esc_actions.specs.Values.{Value, plain};
ghost use Rattle.esc_actions.specs.Writable.{EmittedAreWritable, AreWritable, is_exception};

pub use esc_frame::laws::{has_cut, has_unfinished, one_cut};
use std::alloc::Allocator;

/// Everything at once, for every stream: it has exactly one cut; it means the readings of the cut's
/// segments, in order; each of these values is writable, but for the four exceptions; and if it is
/// the text of a writable list, it means the list's normal list, which has the same text.
pub fn headline<A: Allocator>()
    ensures { (s : List ℕ) → Headline {A = A} s (meaning s) }
{
    has_cut();
    one_cut();
    meaning_of_the_cut::<A>();
    handed_out::<A>();
    reads_back::<A>();
    same_text::<A>();
}

/// A stream means the readings of the segments of its cut, one after another, whatever limit there
/// is: nothing is unfinished between two segments.
pub fn meaning_of_the_cut<A: Allocator>()
    ensures { MeansItsCut A }
{
    esc_frame::laws::events_once_within();
    esc_frame::laws::events_of_the_cut_within();
}

/// So the meaning of a stream is told segment by segment: reading starts anew at each, and its
/// values are those of the segment by itself, finished or not by the bytes after it.
pub fn meaning_by_segments<A: Allocator>()
    ensures { MeansItsSegments A }
{
    meaning_of_the_cut::<A>();
}

// The laws of the crates below.
fn lower_laws<A: Allocator>()
    ensures { LowerLaws A }
{
    esc_frame::laws::says_print();
    esc_frame::laws::says_control();
    esc_frame::laws::says_high_control();
    esc_frame::laws::says_itself();
    esc_frame::laws::says_osc();
    esc_frame::laws::says_apc();
    esc_frame::laws::events_fit_within();
    esc_osc::laws::writes_clear::<A>();
    esc_osc::laws::reads_back::<A>();
    esc_osc::laws::clear_is_writable::<A>();
    esc_kitty::laws::reads_back::<A>();
    esc_kitty::laws::kept_is_writable::<A>();
    esc_sequences::laws::csi_reads_back();
    esc_sequences::laws::csi_truncated();
    esc_device::laws::enter_says::<A>();
    esc_device::laws::short_says::<A>();
    esc_device::laws::sixel_says::<A>();
    esc_device::laws::query_says();
    esc_device::laws::params_are_natural();
    esc_device::laws::hook_is_writable::<A>();
    esc_device::laws::short_is_writable::<A>();
    esc_sixel::laws::data_is_writable::<A>();
    xtgettcap::laws::data_is_writable();
}

/// The text of a writable list means its normal list.
pub fn reads_back<A: Allocator>()
    ensures { (vs : List (Value A)) → AreWritable vs → meaning (list_text vs) ≡ normal vs }
{
    lower_laws::<A>();
}

/// It has that meaning whatever bytes follow it, and these have their own meaning.
pub fn reads_by_itself<A: Allocator>()
    ensures { (vs : List (Value A)) → AreWritable vs → Reads (list_text vs) (normal vs) }
{
    lower_laws::<A>();
}

/// So it does under a limit within which all that counts of its segments is.
pub fn reads_back_within<A: Allocator>()
    ensures { (limit : Option ℕ) (vs : List (Value A)) → AreWritable vs
        → IsWithin limit (list_text vs) → meaning_within limit (list_text vs) ≡ normal vs }
{
    reads_back::<A>();
    esc_frame::laws::events_once();
    esc_frame::laws::events_of_the_cut();
    esc_frame::laws::same_within();
}

/// Only one part of an unfinished segment is kept: its text or header, or its data.
pub fn keeps_once()
    ensures { (limit : Option ℕ) (s : List ℕ) (gs : List Segment) → IsCut s gs
        → (kept_of_cut limit gs ≡ 0) ⊎ (data_kept limit s ≡ 0) }
{
    esc_frame::laws::events_once_within();
    esc_frame::laws::events_of_the_cut_within();
}

/// A writable list and its normal list have the same text.
#[tactic(auto, using(crate::proofs::Writing::NormalIsWritable::same_text))]
pub fn same_text<A: Allocator>()
    ensures { (vs : List (Value A)) → AreWritable vs → list_text (normal vs) ≡ list_text vs }
{}

/// Two writable lists have the same text exactly if they have the same normal list.
pub fn same_normal<A: Allocator>()
    ensures { (vs ws : List (Value A)) → AreWritable vs → AreWritable ws
        → (list_text vs ≡ list_text ws) ↔ (normal vs ≡ normal ws) }
{
    reads_back::<A>();
}

/// The normal list of a writable list is writable.
#[tactic(auto, using(crate::proofs::Writing::NormalIsWritable::normal_writable))]
pub fn normal_writable<A: Allocator>()
    ensures { (vs : List (Value A)) → AreWritable vs → AreWritable (normal vs) }
{}

/// A normal list is its own normal list.
#[tactic(auto, using(crate::proofs::Writing::NormalIsWritable::normal_normal))]
pub fn normal_normal<A: Allocator>()
    ensures { (vs : List (Value A)) → normal (normal vs) ≡ normal vs }
{}

/// Every value that any stream means, whatever limit there is, is writable, but for an escape
/// sequence without intermediate whose letter opens a string or a control sequence; a control
/// sequence with parameters left out; the header of a mode with intermediates left out; and a byte
/// A0 to FF of a mode, or a short control that has one.
pub fn handed_out<A: Allocator>()
    ensures { (limit : Option ℕ) (s : List ℕ)
        → EmittedAreWritable {A = A} (meaning_within limit s) }
{
    lower_laws::<A>();
}

/// So is every value that one call hands out, whatever was fed before.
pub fn yield_handed_out<A: Allocator>()
    ensures { (limit : Option ℕ) (s b : List ℕ)
        → EmittedAreWritable {A = A} (yield_within limit s b) }
{
    handed_out::<A>();
}

/// The values that calls hand out one after another, joined, are the meaning of the bytes that they
/// were fed.
#[tactic(auto, using(crate::proofs::Meaning::MeaningsJoin::meaning_more))]
pub fn meaning_of_more<A: Allocator>()
    ensures { (limit : Option ℕ) (s b : List ℕ)
        → meaning_within {A = A} limit s ++ yield_within limit s b
        ≡ meaning_within limit (s ++ b) }
{}

/// If no segment of a stream is unfinished, none of its actions is.
pub fn plain_at_ground()
    ensures { (limit : Option ℕ) (s : List ℕ) → IsAtGround s
        → mode_from plain (events_within limit s) ≡ plain }
{
    esc_frame::laws::events_once_within();
    esc_frame::laws::events_of_the_cut_within();
}

/// Finished segments have no effect on later bytes: bytes yield the same values after a stream as
/// after the rest of the stream without some finished segments.
pub fn yield_alone<A: Allocator>()
    ensures { (limit : Option ℕ) (s u b : List ℕ) → IsAfterFinished s u
        → yield_within {A = A} limit s b ≡ yield_within limit u b }
{}

/// A list is writable exactly if it is writable single values and writable groups, joined.
pub fn writable_is_joined<A: Allocator>()
    ensures { (vs : List (Value A)) → AreWritable vs ↔ JoinsGroups vs }
{}

/// The values of a stream come in groups: a mode that is entered, its bytes, and its end.
pub fn means_groups<A: Allocator>()
    ensures { MeansGroups A }
{
    esc_frame::laws::events_of_the_cut();
}

/// So a stream without these four that does not end inside a mode means a writable list.
pub fn means_writable<A: Allocator>()
    ensures { MeansWritable A }
{
    means_groups::<A>();
    handed_out::<A>();
}

/// If a stream means a writable list, the text of this list means a list with the same text.
pub fn normal_once<A: Allocator>()
    ensures { (s : List ℕ) → AreWritable {A = A} (meaning s)
        → list_text (meaning {A = A} (list_text (meaning {A = A} s)))
        ≡ list_text (meaning {A = A} s) }
{
    reads_back::<A>();
}

/// So normalising is idempotent if none of the four occurs and no mode is unfinished.
pub fn normal_is_idempotent<A: Allocator>()
    ensures { (s : List ℕ) → list_any is_exception (meaning {A = A} s) ≡ false
        → ends_in_mode s ≡ false
        → list_text (meaning {A = A} (list_text (meaning {A = A} s)))
        ≡ list_text (meaning {A = A} s) }
{
    means_writable::<A>();
    normal_once::<A>();
}

/// Actions that are appended to an empty list one by one, as
/// [`Action::append_to`](crate::Action::append_to) appends each, make the list in which each run of
/// characters is one string.
pub fn appended_one_by_one<A: Allocator>()
    ensures { (vs : List (Value A)) → appended_all [] vs ≡ gathered_values vs }
{}
