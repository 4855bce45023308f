//! The events of escape sequences and control sequences. An error is that the actor refused a call,
//! or that memory was refused.
#![tactic(auto)]

ghost use Rattle.std.specs.Prelude.{◌≡◌, ◌∷◌, Bool, List, OnOk, [], ℕ};
ghost use Rattle.esc_frame.specs.Classes.{without_noise};
ghost use Rattle.esc_frame.specs.Events.{Takes};
ghost use Rattle.esc_frame.specs.Machine.Keeps.{Keeps, KeepsBody};
ghost use Rattle.esc_frame.specs.Segments.{Opener, Segment, csi_events, escape_event, executes};
ghost use Rattle.esc_frame.specs.Segments.Segment.{Csi, Escape};
ghost use Rattle.esc_segments.specs.Items.{kind_of};
ghost use Rattle.esc_segments.specs.Parts.{Emits};
ghost use Rattle.esc_segments.specs.declared.kind.SegmentKind.TheVariants as kinds;

use crate::bytes::{is_c0, is_noise};
use crate::openers::{opens_dcs, split_opener};
use esc_frame::VTActor;
use esc_frame::unfinished::body::CsiBody;
use esc_frame::unfinished::intermediates::Intermediates;
use std::alloc::AllocError;

type Result<T> = std::result::Result<T, AllocError>;

/// Executes the plain controls among the bytes, in order.
pub fn execute_in<V: VTActor>(bytes: &[u8], actor: &mut V) -> Result<()>
    requires { V.is_ready actor.old }
    ensures emitted { Takes ⊥ V.takes V.refuses result actor.old (executes bytes.now) actor.new }
    ensures ready { OnOk result (V.is_ready actor.new) }
{
    for b in bytes {
        if is_c0(*b) {
            match actor.execute_c0_or_c1(*b) {
                Ok(()) => {}
                Err(e) => return Err(e),
            }
        }
    }
    Ok(())
}

/// Gives an escape sequence: the controls inside it, and then its dispatch.
pub fn escape<V: VTActor>(bytes: &[u8], actor: &mut V) -> Result<()>
    requires { V.is_ready actor.old }
    ensures emitted { (finished : Bool) (x : List ℕ) (f : ℕ)
        → Emits ⊥ V.takes V.refuses result actor.old actor.new bytes.now finished (Escape x f) }
    ensures ready { OnOk result (V.is_ready actor.new) }
{
    if bytes.len() < 2 {
        return Ok(());
    }
    let last = bytes.len() - 1;
    execute_in(bytes, actor)?;
    dispatch_escape(&bytes[1..last], bytes[last], actor)
}

// Dispatches an escape sequence with these intermediates and noise, and this final byte.
fn dispatch_escape<V: VTActor>(x: &[u8], last: u8, actor: &mut V) -> Result<()>
    requires { V.is_ready actor.old }
    ensures emitted { Takes ⊥ V.takes V.refuses result actor.old
        (escape_event (without_noise x.now) last ∷ []) actor.new }
    ensures ready { OnOk result (V.is_ready actor.new) }
{
    let kept = intermediates_of(x);
    actor.esc_dispatch(&[], kept.as_slice(), kept.ignored, last)
}

// Returns the bytes but noise.
fn intermediates_of(x: &[u8]) -> Intermediates
    ensures { Keeps result (without_noise x.now) }
{
    let mut kept = Intermediates::new();
    for b in x {
        if !is_noise(*b) {
            kept.push(*b);
        }
    }
    kept
}

/// Gives a control sequence: the controls inside it, and then its dispatch, if its body has its
/// form.
pub fn csi<V: VTActor>(bytes: &[u8], actor: &mut V) -> Result<()>
    requires { V.is_ready actor.old }
    ensures emitted { (finished : Bool) (o : Opener) (x : List ℕ) (f : ℕ)
        → Emits ⊥ V.takes V.refuses result actor.old actor.new bytes.now finished (Csi o x f) }
    ensures ready { OnOk result (V.is_ready actor.new) }
{
    execute_in(bytes, actor)?;
    let (_, body) = split_opener(bytes);
    if body.is_empty() {
        return Ok(());
    }
    let last = body.len() - 1;
    dispatch_csi(&body[..last], body[last], actor)
}

// Dispatches a control sequence with this body and final byte.
fn dispatch_csi<V: VTActor>(x: &[u8], last: u8, actor: &mut V) -> Result<()>
    requires { V.is_ready actor.old }
    ensures emitted { Takes ⊥ V.takes V.refuses result actor.old
        (csi_events (without_noise x.now) last) actor.new }
    ensures ready { OnOk result (V.is_ready actor.new) }
{
    let mut body = body_of(x);
    emit_body(&mut body, last, actor)
}

// Does the same for a body that was read.
fn emit_body<V: VTActor>(body: &mut CsiBody, last: u8, actor: &mut V) -> Result<()>
    requires { V.is_ready actor.old }
    ensures emitted { (x : List ℕ) → KeepsBody body.old x
        → Takes ⊥ V.takes V.refuses result actor.old (csi_events x last) actor.new }
    ensures ready { OnOk result (V.is_ready actor.new) }
{
    if !body.is_formed() {
        return Ok(());
    }
    body.finish();
    actor.csi_dispatch(
        body.csi_params.items.as_slice(),
        body.csi_params.is_truncated,
        last,
    )
}

// Returns the body that the bytes but noise are.
fn body_of(x: &[u8]) -> CsiBody
    ensures { KeepsBody result (without_noise x.now) }
{
    let mut body = CsiBody::new();
    for b in x {
        if !is_noise(*b) {
            body.push(*b);
        }
    }
    body
}

/// Gives a sequence or header that is cut short: the controls inside it, but of a device control
/// string only those in its opener.
pub fn cut_short<V: VTActor>(bytes: &[u8], actor: &mut V) -> Result<()>
    requires { V.is_ready actor.old }
    ensures emitted { (finished : Bool) (g : Segment) → kind_of g ≡ kinds.CutShort
        → Emits ⊥ V.takes V.refuses result actor.old actor.new bytes.now finished g }
    ensures ready { OnOk result (V.is_ready actor.new) }
{
    if opens_dcs(bytes) {
        execute_in(split_opener(bytes).0, actor)
    } else {
        execute_in(bytes, actor)
    }
}
