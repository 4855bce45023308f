//! The device control string that is unfinished. An error is that memory was refused.
ghost use Rattle.std.specs.Prelude.{◌≡◌, ◌<◌, ◌≤◌, IfOk, IsTrue, OnErr, OnOk, Option, length, min, option_to_list, take, true};
ghost use Rattle.std.specs.List.{FoldsTo, list_all};
ghost use Rattle.std.specs.Option.{option_map};
ghost use Rattle.esc_frame.specs.Limits.{kept_within, most};
ghost use Rattle.esc_frame.specs.Scans.{is_data_byte};
ghost use Rattle.esc_actions.specs.Values.{unhook_values, data_count, mode_at_hook, plain, mode_with_byte, value_of};
ghost use Rattle.esc_actions.specs.Groups.{is_entered};
ghost use Rattle.esc_parse.specs.Fed.{HasRoom, Hooking, Hooks, TakesData, is_mode, keeps_data};
ghost use Rattle.esc_parse.specs.Images.{is_image};
ghost use Rattle.esc_parse.specs.declared.dcs_payload.DcsPayload.TheVariants as dcs_payload;
ghost use Rattle.fallible_alloc.specs.Refusals.{Refused};

use crate::dcs_payload::{DcsPayload, begin, end};
use esc_actions::Action;
use esc_device::StringKind;
use esc_frame::Count;
use esc_frame::runs::scans::data_run;
use std::alloc::{AllocError, Allocator, Global};
use std::mem;

/// The state that is kept of a device control string, as far as a limit allows.
#[derive(Drop)]
pub struct Unfinished<A: Allocator = Global> {
    /// The string itself.
    pub dcs_payload: DcsPayload<A>,
    /// Says how many bytes of data came.
    pub data: Count,
    /// Says how many are kept at most.
    pub limit: Option<usize>,
}

impl<A: Allocator + Copy> Unfinished<A> {
    /// Returns a value with nothing unfinished. Takes no memory.
    #[tactic(auto, unfolding(crate::specs::Fed::Hooks))]
    pub fn new(limit: Option<usize>) -> Unfinished<A>
        ensures hooks { Hooks limit result plain }
        ensures nothing { result.dcs_payload ≡ dcs_payload.Nothing }
    {
        Unfinished {
            dcs_payload: DcsPayload::Nothing,
            data: Count::new(),
            limit,
        }
    }

    /// Drops the unfinished string.
    #[tactic(auto, unfolding(crate::specs::Fed::Hooks))]
    pub fn restart(&mut self)
        ensures hooks { Hooking self.old (λ limit m. Hooks limit self.new plain) }
        ensures nothing { self.new.dcs_payload ≡ dcs_payload.Nothing }
    {
        if let DcsPayload::Nothing = self.dcs_payload {
            return;
        }
        self.dcs_payload = DcsPayload::Nothing;
    }

    /// Returns the unfinished string; nothing is unfinished after that.
    pub fn take(&mut self) -> Unfinished<A>
        ensures taken { result ≡ self.old }
        ensures nothing { self.new.dcs_payload ≡ dcs_payload.Nothing }
    {
        let empty = Unfinished::new(self.limit);
        mem::replace(self, empty)
    }

    /// Begins a string.
    #[tactic(auto, unfolding(crate::specs::Fed::Hooks))]
    pub fn begin(
        &mut self,
        alloc: A,
        kind: StringKind,
        byte: u8,
        params: &[i64],
        intermediates: &[u8],
    ) -> Result<(), AllocError>
        ensures ok { Hooking self.old (λ limit m. OnOk result
            (Hooks limit self.new (mode_at_hook kind byte params.now intermediates.now))) }
        ensures refused { OnErr result (Refused A) }
    {
        self.dcs_payload = begin(alloc, kind, byte, params, intermediates)?;
        self.data.clear();
        Ok(())
    }

    /// Returns whether it is a mode, which keeps nothing.
    #[tactic(auto, unfolding(crate::specs::Fed::Hooks))]
    #[inline]
    pub fn is_entered(&self) -> bool
        ensures entered { Hooking self.now (λ limit m. result ≡ is_entered m) }
        ensures mode { result ≡ is_mode self.now.dcs_payload }
    {
        matches!(self.dcs_payload, DcsPayload::Entered)
    }

    /// Returns the number of bytes of its data that come first in `bytes`, if only its end makes an
    /// action: the bytes 20 to 7E, for a string that is no mode.
    #[tactic(auto, unfolding(crate::specs::Fed::Hooks), using(crate::proofs::Data::DataWithoutMode::keeps_over, crate::proofs::Data::DataWithoutMode::run_is_data))]
    #[inline]
    pub fn data_ahead(&self, bytes: &[u8]) -> usize
        ensures few { result ≤ length bytes.now }
        ensures run { list_all is_data_byte (take result bytes.now) ≡ true }
        ensures kept { 0 < result → Hooking self.now (λ limit m. keeps_data m ≡ true) }
        ensures nothing { self.now.dcs_payload ≡ dcs_payload.Nothing → result ≡ 0 }
    {
        match self.dcs_payload {
            DcsPayload::Nothing | DcsPayload::Entered => 0,
            DcsPayload::Sixel(_)
            | DcsPayload::Termcap(_)
            | DcsPayload::Short(_)
            | DcsPayload::Over => { data_run(bytes) }
        }
    }

    /// Takes one more byte of its data. Past the limit all that was kept of it is dropped.
    #[tactic(auto, unfolding(crate::specs::Fed::Hooks), using(crate::proofs::Data::CountedToLimit::counts_more, crate::proofs::Data::CountedToLimit::passed, crate::proofs::Data::CountedToLimit::over_stays))]
    #[inline]
    pub fn push(&mut self, byte: u8) -> Result<(), AllocError>
        ensures hooks { Hooking self.old (λ limit m. OnOk result
            (Hooks limit self.new (mode_with_byte m byte))) }
        ensures mode { OnOk result (is_mode self.new.dcs_payload ≡ is_mode self.old.dcs_payload) }
        ensures refused { OnErr result (Refused A) }
    {
        match &mut self.dcs_payload {
            DcsPayload::Nothing | DcsPayload::Entered | DcsPayload::Over => return Ok(()),
            DcsPayload::Sixel(text) => {
                if self.data.add(self.limit, 1) {
                    return text.push(byte);
                }
            }
            DcsPayload::Termcap(builder) => {
                if self.data.add(self.limit, 1) {
                    return builder.push(byte);
                }
            }
            DcsPayload::Short(builder) => {
                if self.data.add(self.limit, 1) {
                    return builder.push(byte);
                }
            }
        }
        self.dcs_payload = DcsPayload::Over;
        Ok(())
    }

    /// More bytes of its data, with the effect of a `push` of each. They are taken at once if the
    /// limit has room for all.
    pub fn push_run(&mut self, bytes: &[u8]) -> Result<(), AllocError>
        ensures ok { OnOk result (FoldsTo TakesData self.old bytes.now self.new) }
        ensures refused { OnErr result (Refused A) }
    {
        if self.has_room(bytes.len()) {
            return self.push_whole(bytes);
        }
        for byte in bytes {
            self.push(*byte)?;
        }
        Ok(())
    }

    // Returns whether so many bytes more are within the limit.
    fn has_room(&self, more: usize) -> bool
        ensures { result ≡ true → HasRoom self.now.limit self.now.data more }
    {
        let most = self.limit.unwrap_or(usize::MAX);
        !self.data.is_over && self.data.bytes <= most && more <= most - self.data.bytes
    }

    // More bytes of its data, for which the limit has room.
    fn push_whole(&mut self, bytes: &[u8]) -> Result<(), AllocError>
        requires { HasRoom self.old.limit self.old.data (length bytes.now) }
        ensures ok { OnOk result (FoldsTo TakesData self.old bytes.now self.new) }
        ensures refused { OnErr result (Refused A) }
    {
        self.data.bytes += bytes.len();
        match &mut self.dcs_payload {
            DcsPayload::Nothing | DcsPayload::Entered | DcsPayload::Over => Ok(()),
            DcsPayload::Sixel(text) => text.push_run(bytes),
            DcsPayload::Termcap(builder) => builder.push_run(bytes),
            DcsPayload::Short(builder) => builder.push_run(bytes),
        }
    }

    /// Returns whether it is a sixel image: then its end gives an image or nothing.
    #[tactic(auto, unfolding(crate::specs::Fed::Hooks), using(crate::proofs::Data::ImagesLeaveSink::sixel_images))]
    #[inline]
    pub fn is_sixel(&self) -> bool
        ensures { IsTrue result → Hooking self.now (λ limit m.
            list_all (is_image {A = A}) (unhook_values limit m) ≡ true) }
    {
        matches!(self.dcs_payload, DcsPayload::Sixel(_))
    }

    /// Drops all that is kept. Nothing is unfinished then.
    #[tactic(auto, unfolding(crate::specs::Fed::Hooks))]
    pub fn clear(&mut self)
        ensures { Hooking self.old (λ limit m. Hooks limit self.new plain) }
    {
        self.dcs_payload = DcsPayload::Nothing;
    }

    /// Returns the action of its end, if it has one. Nothing is unfinished then.
    #[tactic(auto, unfolding(crate::specs::Fed::Hooks))]
    pub fn end(&mut self, alloc: A) -> Result<Option<Action<A>>, AllocError>
        ensures hooks { Hooking self.old (λ limit m. Hooks limit self.new plain) }
        ensures gives { Hooking self.old (λ limit m. IfOk result
            (λ o. option_to_list (option_map value_of o) ≡ unhook_values limit m)) }
        ensures refused { OnErr result (Refused A) }
    {
        end(
            alloc,
            mem::replace(&mut self.dcs_payload, DcsPayload::Nothing),
        )
    }

    /// Returns the number of bytes of its data that are kept; 0 once they passed the limit, and for
    /// a string that keeps none.
    #[tactic(auto, unfolding(crate::specs::Fed::Hooks), using(crate::proofs::Data::CountedToLimit::zero_within))]
    pub fn kept(&self) -> usize
        ensures counts { Hooking self.now (λ limit m.
            result ≡ min (kept_within limit (data_count m)) most) }
        ensures nothing { self.now.dcs_payload ≡ dcs_payload.Nothing → result ≡ 0 }
    {
        match self.dcs_payload {
            DcsPayload::Nothing | DcsPayload::Entered | DcsPayload::Over => 0,
            DcsPayload::Sixel(_) | DcsPayload::Termcap(_) | DcsPayload::Short(_) => self
                .data
                .value(),
        }
    }
}
