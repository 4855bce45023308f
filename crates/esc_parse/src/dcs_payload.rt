//! The state that is kept of an unfinished device control string.
ghost use Rattle.std.specs.Prelude.{◌≡◌, [], ◌∷◌, ℕ, IfOk, OnErr, Option, option_to_list};
ghost use Rattle.std.specs.Option.{option_map};
ghost use Rattle.esc_actions.specs.Values.{Mode, unhook_values, mode_at_hook, hook_values, value_of};
ghost use Rattle.esc_device.specs.declared.kind.StringKind.TheVariants as kind;
ghost use Rattle.esc_frame.specs.declared.unfinished.count.Count.{Count};
ghost use Rattle.esc_parse.specs.Fed.{Begins, Keeps};
ghost use Rattle.fallible_alloc.specs.Refusals.{Refused};

use crate::sixel_text::SixelText;
use esc_actions::Action;
use esc_device::{DeviceControlMode, EnterDeviceControlMode, ShortBuilder, StringKind};
use esc_values::Boxed;
use std::alloc::{AllocError, Allocator, Global};
use xtgettcap::GetTcapBuilder;

/// The string that was dcs_payload and is unfinished.
#[derive(Drop)]
pub enum DcsPayload<A: Allocator = Global> {
    /// No string is unfinished.
    Nothing,
    /// A sixel image.
    Sixel(Box<SixelText<A>, A>),
    /// A termcap query.
    Termcap(GetTcapBuilder<A>),
    /// A short device control.
    Short(Box<ShortBuilder<A>, A>),
    /// A mode: nothing of it has to be kept.
    Entered,
    /// A string with more data than the limit allows: nothing of it is kept.
    Over,
}

// Returns the state that is kept of a string that begins.
#[tactic(auto, using(crate::proofs::Data::CountedToLimit::zero_within))]
pub(crate) fn begin<A: Allocator + Copy>(
    alloc: A,
    kind: StringKind,
    byte: u8,
    params: &[i64],
    intermediates: &[u8],
) -> Result<DcsPayload<A>, AllocError>
    ensures ok { (limit : Option ℕ)
        → IfOk result (λ h. Begins limit h (mode_at_hook kind byte params.now intermediates.now)) }
    ensures refused { OnErr result (Refused A) }
{
    match kind {
        StringKind::Sixel => match fallible_alloc::boxed(alloc, SixelText::new(alloc, params)) {
            Ok(text) => Ok(DcsPayload::Sixel(text)),
            Err(_) => Err(AllocError),
        },
        StringKind::Termcap => Ok(DcsPayload::Termcap(GetTcapBuilder::new(alloc))),
        StringKind::Short => {
            let builder = ShortBuilder::new(alloc, params, intermediates, byte)?;
            match fallible_alloc::boxed(alloc, builder) {
                Ok(builder) => Ok(DcsPayload::Short(builder)),
                Err(_) => Err(AllocError),
            }
        }
        StringKind::Other => Ok(DcsPayload::Entered),
    }
}

// Returns the action of a header that enters a mode.
pub(crate) fn header_action<A: Allocator + Copy>(
    alloc: A,
    byte: u8,
    params: &[i64],
    intermediates: &[u8],
    ignored: bool,
) -> Result<Action<A>, AllocError>
    ensures ok { IfOk result
        (λ a. value_of a ∷ [] ≡ hook_values kind.Other byte params.now intermediates.now ignored) }
    ensures refused { OnErr result (Refused A) }
{
    let enter = EnterDeviceControlMode::from_header(alloc, byte, params, intermediates, ignored)?;
    let enter = Boxed::new(alloc, enter)?;
    Ok(Action::DeviceControl(DeviceControlMode::Enter(enter)))
}

// Returns the action at the end of a string, if it has one.
#[tactic(auto, using(crate::proofs::Data::CountedToLimit::over_gives))]
pub(crate) fn end<A: Allocator + Copy>(
    alloc: A,
    dcs_payload: DcsPayload<A>,
) -> Result<Option<Action<A>>, AllocError>
    ensures ok { (limit : Option ℕ) (count : Count) (m : Mode) → Keeps limit dcs_payload count m
        → IfOk result (λ o. option_to_list (option_map value_of o) ≡ unhook_values limit m) }
    ensures refused { OnErr result (Refused A) }
{
    match dcs_payload {
        DcsPayload::Nothing | DcsPayload::Over => Ok(None),
        DcsPayload::Sixel(text) => {
            let sixel = Box::into_inner(text).finish()?;
            Ok(Some(Action::Sixel(Boxed::new(alloc, sixel)?)))
        }
        DcsPayload::Termcap(builder) => Ok(Some(Action::XtGetTcap(builder.finish()?))),
        DcsPayload::Short(builder) => {
            let short = Boxed::new(alloc, Box::into_inner(builder).finish())?;
            Ok(Some(Action::DeviceControl(DeviceControlMode::ShortDeviceControl(short))))
        }
        DcsPayload::Entered => Ok(Some(Action::DeviceControl(DeviceControlMode::Exit))),
    }
}
