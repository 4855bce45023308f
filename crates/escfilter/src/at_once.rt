//! The names of control sequences that a policy leaves out, by a look at them. No action is made of
//! them.
ghost use Rattle.std.specs.Prelude.{◌≡◌, ◌∷◌, IfSome, IsTrue, List, Some, false, map, take};
ghost use Rattle.std.specs.Global.{Global};
ghost use Rattle.esc_actions.specs.Readings.{reading_within};
ghost use Rattle.esc_actions.specs.Values.{csi};
ghost use Rattle.esc_frame.specs.Segments.{AreSegments, Segment as Shape, is_finished, joined_bytes};
ghost use Rattle.esc_segments.specs.Items.{IsItem};
ghost use Rattle.esc_segments.specs.declared.kind.SegmentKind.TheVariants as kinds;
ghost use Rattle.esc_sequences.specs.Csis.{csi_of};
ghost use Rattle.escfilter.specs.Rows.{IsLeftName, IsOutFirst};

use crate::name::{Name, sequence_name};
use crate::named_groups::Choice;
use control_functions::ControlFunction;
use esc_filter::Admit;
use esc_frame::unfinished::short::Short;
use esc_sanitize::FilterOptions;
use esc_segments::{Segment, SegmentKind};
use esc_values::CsiParam;
use std::alloc::Global;

/// Returns the name of a control sequence if the policy knows by its parameters that nothing is
/// written of it.
pub fn name_at_once(options: &FilterOptions<Choice<'_>>, segment: Segment<'_>) -> Option<Name>
    ensures { IfSome result (IsOutFirst options.now segment.entry) }
{
    let mut params = Short::new();
    match final_of(options.limit, segment, &mut params) {
        Some(last) => left_name(options.policy, params.as_slice(), last),
        None => None,
    }
}

// The final byte of a control sequence after `ESC [`, whose parameters are then these: where it has
// no noise and no intermediates.
fn final_of(limit: usize, segment: Segment<'_>, params: &mut Short) -> Option<u8>
    ensures { (g : Shape) (gs : List Shape) → AreSegments (g ∷ gs)
        → IsItem segment.entry g (joined_bytes gs) → IfSome result (λ f.
        reading_within {A = Global} (Some limit) g (is_finished g (joined_bytes gs))
        ≡ map csi (csi_of (take params.new.count params.new.items) false f)) }
{
    let bytes = segment.bytes;
    if !is_csi(segment.kind) || bytes.len() < 3 || bytes[0] != 0x1b || bytes[1] != b'[' {
        return None;
    }
    let last = bytes.len() - 1;
    let body = &bytes[2..last];
    if params.read(body) < body.len() {
        None
    } else {
        Some(bytes[last])
    }
}

fn is_csi(kind: SegmentKind) -> bool
    ensures { IsTrue result → kind ≡ kinds.Csi }
{
    matches!(kind, SegmentKind::Csi)
}

// The name of a control sequence of these parameters, of which this policy knows that it does not
// pass. One that ends in `m` may be more than one rendition.
fn left_name(policy: Choice<'_>, params: &[CsiParam], last: u8) -> Option<Name>
    ensures { IfSome result (IsLeftName policy.entry params.now last) }
{
    if last == b'm' {
        return None;
    }
    match <Choice<'_> as Admit<Global>>::admits_sequence(&policy, params, last) {
        Some(false) => Some(sequence_name(ControlFunction::of_csi_params(params, last))),
        Some(true) | None => None,
    }
}
