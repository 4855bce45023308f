//! The events of strings. An error is that the actor refused a call, or that memory was refused.
#![tactic(auto)]

ghost use Rattle.std.specs.Prelude.{◌≡◌, ◌++◌, ◌∷◌, IfOk, List, OnErr, OnOk, [], if◌then◌else◌, map, pos, ℕ};
ghost use Rattle.esc_values.specs.Clear.{parts_of};
ghost use Rattle.esc_frame.specs.Bodies.{capped_at_i64, is_dcs_header, value_after};
ghost use Rattle.esc_frame.specs.Classes.{is_text, without_noise, bytes_of_class};
ghost use Rattle.esc_frame.specs.Events.{Takes};
ghost use Rattle.esc_frame.specs.Events.Event.{ApcDispatch, DcsUnhook};
ghost use Rattle.esc_frame.specs.Machine.Keeps.{KeepsDcs, parameters_of};
ghost use Rattle.esc_frame.specs.Segments.{Ending, Opener, OscUnit, hook_event, puts};
ghost use Rattle.esc_frame.specs.Segments.Segment.{Apc, Dcs, Osc};
ghost use Rattle.esc_segments.specs.Parts.{Emits, HoldsHeader};
ghost use Rattle.fallible_alloc.specs.Refusals.{Refused};

use crate::bytes::{is_noise, is_put, is_text};
use crate::dispatch::execute_in;
use crate::kept::kept_text;
use crate::openers::split_opener;
use crate::runs::header_run;
use esc_frame::VTActor;
use esc_frame::unfinished::header::{DcsHeader, is_parameter, params_of};
use std::alloc::{AllocError, Allocator};

type Result<T> = std::result::Result<T, AllocError>;

/// Gives an operating system command: the controls in its opener, and once it is finished the
/// dispatch of its parts.
pub fn osc<A: Allocator + Copy, V: VTActor>(
    alloc: A,
    bytes: &[u8],
    finished: bool,
    actor: &mut V,
) -> Result<()>
    requires { V.is_ready actor.old }
    ensures emitted { (o : Opener) (ps : List OscUnit) (e : Ending)
        → Emits (Refused A) V.takes V.refuses result actor.old actor.new bytes.now finished
        (Osc o ps e) }
    ensures ready { OnOk result (V.is_ready actor.new) }
{
    let (opener, text) = split_opener(bytes);
    execute_in(opener, actor)?;
    if !finished {
        return Ok(());
    }
    let kept = kept_text(alloc, text)?;
    actor.osc_text(alloc, &kept)
}

/// Gives an application program command: the controls in its opener, and once it is finished the
/// dispatch of its bytes 20 to 7F.
pub fn apc<A: Allocator, V: VTActor>(
    alloc: A,
    bytes: &[u8],
    finished: bool,
    actor: &mut V,
) -> Result<()>
    requires { V.is_ready actor.old }
    ensures emitted { (o : Opener) (d : List ℕ)
        → Emits (Refused A) V.takes V.refuses result actor.old actor.new bytes.now
        finished (Apc o d) }
    ensures ready { OnOk result (V.is_ready actor.new) }
{
    let (opener, content) = split_opener(bytes);
    execute_in(opener, actor)?;
    if finished {
        dispatch_apc(alloc, content, actor)
    } else {
        Ok(())
    }
}

// Dispatches the bytes 20 to 7F.
fn dispatch_apc<A: Allocator, V: VTActor>(alloc: A, content: &[u8], actor: &mut V) -> Result<()>
    requires { V.is_ready actor.old }
    ensures emitted { Takes (Refused A) V.takes V.refuses result actor.old
        (ApcDispatch (bytes_of_class is_text content.now) ∷ []) actor.new }
    ensures ready { OnOk result (V.is_ready actor.new) }
{
    let text = text_of(alloc, content)?;
    actor.apc_dispatch(&text)
}

// Returns the bytes 20 to 7F.
fn text_of<A: Allocator>(alloc: A, content: &[u8]) -> Result<Vec<u8, A>>
    ensures ok { IfOk result (λ v. v.items ≡ bytes_of_class is_text content.now) }
    ensures refused { OnErr result (Refused A) }
{
    fallible_alloc::collect(alloc, content.iter().copied().filter(|b| is_text(*b)))
}

/// Gives a device control string: the controls in its opener, and if its header has its form the
/// hook, its data byte by byte, and once it is finished the unhook.
pub fn dcs<A: Allocator + Copy, V: VTActor>(
    alloc: A,
    bytes: &[u8],
    finished: bool,
    actor: &mut V,
) -> Result<()>
    requires { V.is_ready actor.old }
    ensures emitted { (o : Opener) (x : List ℕ) (f : ℕ) (d : List ℕ)
        → Emits (Refused A) V.takes V.refuses result actor.old actor.new bytes.now finished
        (Dcs o x f d) }
    ensures ready { OnOk result (V.is_ready actor.new) }
{
    let (opener, body) = split_opener(bytes);
    execute_in(opener, actor)?;
    let run = header_run(body);
    if run == body.len() {
        return Ok(());
    }
    emit_dcs(
        alloc,
        &body[..run],
        body[run],
        &body[run + 1..],
        finished,
        actor,
    )
}

// Gives the hook, the data and the unhook of a string with this header, final byte and data.
fn emit_dcs<A: Allocator + Copy, V: VTActor>(
    alloc: A,
    x: &[u8],
    last: u8,
    content: &[u8],
    finished: bool,
    actor: &mut V,
) -> Result<()>
    requires { V.is_ready actor.old }
    ensures emitted { Takes (Refused A) V.takes V.refuses result actor.old
        (if is_dcs_header (without_noise x.now)
        then (hook_event (without_noise x.now) last ∷ puts content.now)
        ++ (if finished then DcsUnhook ∷ [] else []) else []) actor.new }
    ensures ready { OnOk result (V.is_ready actor.new) }
{
    let header = header_of(x);
    if !header.is_formed() {
        return Ok(());
    }
    hook(alloc, &header, x, last, actor)?;
    put_and_end(content, finished, actor)
}

// Returns the bytes without noise, as a header.
fn header_of(x: &[u8]) -> DcsHeader
    ensures { KeepsDcs result (without_noise x.now) }
{
    let mut header = DcsHeader::new();
    for b in x {
        if !is_noise(*b) {
            header.push(*b);
        }
    }
    header
}

// Gives the hook of a header of its form.
fn hook<A: Allocator + Copy, V: VTActor>(
    alloc: A,
    header: &DcsHeader,
    x: &[u8],
    last: u8,
    actor: &mut V,
) -> Result<()>
    requires ready { V.is_ready actor.old }
    requires header { HoldsHeader header.now x.now }
    ensures emitted { Takes (Refused A) V.takes V.refuses result actor.old
        (hook_event (without_noise x.now) last ∷ []) actor.new }
    ensures ready { OnOk result (V.is_ready actor.new) }
{
    let params = params_in(alloc, x)?;
    let kept = &header.intermediates;
    actor.dcs_hook(last, &params, kept.as_slice(), kept.ignored)
}

// Returns the parameters that the bytes write.
fn params_in<A: Allocator + Copy>(alloc: A, x: &[u8]) -> Result<Vec<i64, A>>
    ensures ok { IfOk result (λ v. v.items ≡ map (λ p. pos (capped_at_i64 (value_after 0 p)))
        (parts_of (parameters_of (without_noise x.now)))) }
    ensures refused { OnErr result (Refused A) }
{
    let bytes = parameter_bytes(alloc, x)?;
    params_of(alloc, &bytes)
}

// Returns the bytes 30 to 39 and 3B.
fn parameter_bytes<A: Allocator>(alloc: A, x: &[u8]) -> Result<Vec<u8, A>>
    ensures ok { IfOk result (λ v. v.items ≡ parameters_of x.now) }
    ensures refused { OnErr result (Refused A) }
{
    fallible_alloc::collect(alloc, x.iter().copied().filter(|b| is_parameter(*b)))
}

// Gives the data, and the unhook.
fn put_and_end<V: VTActor>(content: &[u8], finished: bool, actor: &mut V) -> Result<()>
    requires { V.is_ready actor.old }
    ensures emitted { Takes ⊥ V.takes V.refuses result actor.old
        (puts content.now ++ (if finished then DcsUnhook ∷ [] else [])) actor.new }
    ensures ready { OnOk result (V.is_ready actor.new) }
{
    put_all(content, actor)?;
    if finished { actor.dcs_unhook() } else { Ok(()) }
}

// Gives the data, byte by byte.
fn put_all<V: VTActor>(content: &[u8], actor: &mut V) -> Result<()>
    requires { V.is_ready actor.old }
    ensures emitted { Takes ⊥ V.takes V.refuses result actor.old (puts content.now) actor.new }
    ensures ready { OnOk result (V.is_ready actor.new) }
{
    for b in content {
        if is_put(*b) {
            match actor.dcs_put(*b) {
                Ok(()) => {}
                Err(e) => return Err(e),
            }
        }
    }
    Ok(())
}
