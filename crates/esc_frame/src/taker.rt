//! This module defines the trait of receivers of a machine's events.
#![tactic(auto)]

ghost use Rattle.std.specs.Prelude.{◌≡◌, ◌<◌, [], ◌∷◌, ℕ, List, map, not, true};
ghost use Rattle.std.specs.Str.{chars};
ghost use Rattle.esc_values.specs.Clear.{parts_of};
ghost use Rattle.esc_frame.specs.Bodies.{hook_by};
ghost use Rattle.esc_frame.specs.Events.{Event, MayGet};
ghost use Rattle.esc_frame.specs.Limits.{has_few_parts};
ghost use Rattle.esc_frame.specs.Scans.{IsRun, IsClearRun, is_text_byte, is_data_byte};
ghost use Rattle.esc_frame.specs.Takers.{MayGetOne, TakesAll, TakesOne};
ghost use Rattle.fallible_alloc.specs.Refusals.{Refused};
ghost use Rattle.esc_frame.specs.Events.Event.{Print, Execute, EscDispatch, CsiDispatch, OscDispatch, DcsPut, DcsUnhook, ApcDispatch};

use crate::actor::VTActor;
use crate::utf8::texts::first_of;
use esc_values::csi_param::CsiParam;
use std::alloc::{AllocError, Allocator};

/// Receives the events of a machine, by the calls of a [`VTActor`]. Every `VTActor` is an event
/// sink. A type that takes the texts of strings as they are, and asks for no memory, can say so by
/// `stops`; a `VTActor` cannot, since its default methods make lists. Apart from that each method
/// requires and promises what the one of `VTActor` does.
pub trait EventSink {
    // says what an event may make of a value
    ghost takes: { Self → Event → Self → Type 0 };

    // says what a refused call may leave
    ghost refuses: { Self → Event → Self → Type 0 };

    // says that any call may be made, and after each one any other
    ghost is_ready: { Self → Type 0 };

    // says that the next call may be that of this event
    ghost may: { Self → Event → Type 0 };

    // says why a call that was given this text and an allocator may stop by itself; the first
    // argument says that the allocator refused a request
    ghost stops: { Type 0 → List ℕ → Type 0 };

    /// Receives a character.
    fn print(&mut self, c: char) -> Result<(), AllocError>
        requires { MayGetOne is_ready may self.old (Print c) }
        ensures { TakesOne takes refuses is_ready result self.old (Print c) self.new };

    /// Receives a run of characters 20 to 7F, one byte each, never empty.
    #[inline(always)]
    fn print_text(&mut self, text: &[u8]) -> Result<(), AllocError>
        requires ready { MayGet is_ready may takes self.old (map Print text.now) }
        requires run { IsRun is_text_byte text.now }
        ensures { TakesAll ⊥ takes refuses is_ready result self.old (map Print text.now) self.new }
    {
        for b in text {
            self.print(*b as char)?;
        }
        Ok(())
    }

    /// Receives a run of characters as UTF-8, never empty: none is a control.
    #[inline(always)]
    fn print_str(&mut self, text: &str) -> Result<(), AllocError>
        requires ready { MayGet is_ready may takes self.old (map Print (chars text.now)) }
        requires run { IsClearRun text.now }
        ensures { TakesAll ⊥ takes refuses is_ready result self.old
            (map Print (chars text.now)) self.new }
    {
        let bytes = text.as_bytes();
        let mut at = 0;
        while at < bytes.len() {
            let (c, n) = first_of(&bytes[at..]);
            self.print(c)?;
            at += n;
        }
        Ok(())
    }

    /// Receives a control of C0 or C1.
    fn execute_c0_or_c1(&mut self, control: u8) -> Result<(), AllocError>
        requires { MayGetOne is_ready may self.old (Execute control) }
        ensures { TakesOne takes refuses is_ready result self.old (Execute control) self.new };

    /// Begins a device control string, with its parameter bytes as they came.
    fn dcs_header<A: Allocator + Copy>(
        &mut self,
        alloc: A,
        byte: u8,
        parameters: &[u8],
        intermediates: &[u8],
        ignored_extra_intermediates: bool,
    ) -> Result<(), AllocError>
        requires { MayGetOne is_ready may self.old
            (hook_by byte parameters.now intermediates.now ignored_extra_intermediates) }
        ensures { TakesAll (stops (Refused A) parameters.now) takes refuses is_ready result self.old
            (hook_by byte parameters.now intermediates.now ignored_extra_intermediates ∷ [])
            self.new };

    /// Receives a byte of its data.
    fn dcs_put(&mut self, byte: u8) -> Result<(), AllocError>
        requires { MayGetOne is_ready may self.old (DcsPut byte) }
        ensures { TakesOne takes refuses is_ready result self.old (DcsPut byte) self.new };

    /// Receives a run of its data, bytes 20 to 7E, never empty.
    #[inline(always)]
    fn dcs_put_text(&mut self, bytes: &[u8]) -> Result<(), AllocError>
        requires ready { MayGet is_ready may takes self.old (map DcsPut bytes.now) }
        requires run { IsRun is_data_byte bytes.now }
        ensures { TakesAll ⊥ takes refuses is_ready result self.old
            (map DcsPut bytes.now) self.new }
    {
        for b in bytes {
            self.dcs_put(*b)?;
        }
        Ok(())
    }

    /// Ends the device control string.
    fn dcs_unhook(&mut self) -> Result<(), AllocError>
        requires { MayGetOne is_ready may self.old DcsUnhook }
        ensures { TakesOne takes refuses is_ready result self.old DcsUnhook self.new };

    /// Receives an escape sequence.
    fn esc_dispatch(
        &mut self,
        params: &[i64],
        intermediates: &[u8],
        ignored_extra_intermediates: bool,
        byte: u8,
    ) -> Result<(), AllocError>
        requires ready { MayGetOne is_ready may self.old
            (EscDispatch intermediates.now ignored_extra_intermediates byte) }
        requires no_params { params.now ≡ [] }
        ensures { TakesOne takes refuses is_ready result self.old
            (EscDispatch intermediates.now ignored_extra_intermediates byte) self.new };

    /// Receives a control sequence.
    fn csi_dispatch(
        &mut self,
        params: &[CsiParam],
        parameters_truncated: bool,
        byte: u8,
    ) -> Result<(), AllocError>
        requires { MayGetOne is_ready may self.old
            (CsiDispatch params.now parameters_truncated byte) }
        ensures { TakesOne takes refuses is_ready result self.old
            (CsiDispatch params.now parameters_truncated byte) self.new };

    /// Receives the whole text of an operating system command.
    fn osc_text<A: Allocator>(&mut self, alloc: A, text: &[u8]) -> Result<(), AllocError>
        requires { MayGetOne is_ready may self.old (OscDispatch (parts_of text.now)) }
        ensures { TakesAll ((not (has_few_parts text.now) ≡ true) × stops (Refused A) text.now)
            takes refuses is_ready result self.old
            (OscDispatch (parts_of text.now) ∷ []) self.new };

    /// Receives the text of an application program command.
    fn apc_dispatch(&mut self, text: &[u8]) -> Result<(), AllocError>
        requires { MayGetOne is_ready may self.old (ApcDispatch text.now) }
        ensures { TakesOne takes refuses is_ready result self.old (ApcDispatch text.now) self.new };
}

impl<V: VTActor> EventSink for V {
    ghost takes = { V.takes };

    ghost refuses = { V.refuses };

    ghost is_ready = { V.is_ready };

    ghost may = { V.may };

    ghost stops = { λ refused _. refused };

    #[inline(always)]
    fn print(&mut self, c: char) -> Result<(), AllocError> {
        VTActor::print(self, c)
    }

    #[inline(always)]
    fn print_text(&mut self, text: &[u8]) -> Result<(), AllocError> {
        VTActor::print_text(self, text)
    }

    #[inline(always)]
    fn print_str(&mut self, text: &str) -> Result<(), AllocError> {
        VTActor::print_str(self, text)
    }

    #[inline(always)]
    fn execute_c0_or_c1(&mut self, control: u8) -> Result<(), AllocError> {
        VTActor::execute_c0_or_c1(self, control)
    }

    #[inline(always)]
    fn dcs_header<A: Allocator + Copy>(
        &mut self,
        alloc: A,
        byte: u8,
        parameters: &[u8],
        intermediates: &[u8],
        ignored_extra_intermediates: bool,
    ) -> Result<(), AllocError> {
        VTActor::dcs_header(
            self,
            alloc,
            byte,
            parameters,
            intermediates,
            ignored_extra_intermediates,
        )
    }

    #[inline(always)]
    fn dcs_put(&mut self, byte: u8) -> Result<(), AllocError> {
        VTActor::dcs_put(self, byte)
    }

    #[inline(always)]
    fn dcs_put_text(&mut self, bytes: &[u8]) -> Result<(), AllocError> {
        VTActor::dcs_put_text(self, bytes)
    }

    #[inline(always)]
    fn dcs_unhook(&mut self) -> Result<(), AllocError> {
        VTActor::dcs_unhook(self)
    }

    #[inline(always)]
    fn esc_dispatch(
        &mut self,
        params: &[i64],
        intermediates: &[u8],
        ignored_extra_intermediates: bool,
        byte: u8,
    ) -> Result<(), AllocError> {
        VTActor::esc_dispatch(
            self,
            params,
            intermediates,
            ignored_extra_intermediates,
            byte,
        )
    }

    #[inline(always)]
    fn csi_dispatch(
        &mut self,
        params: &[CsiParam],
        parameters_truncated: bool,
        byte: u8,
    ) -> Result<(), AllocError> {
        VTActor::csi_dispatch(self, params, parameters_truncated, byte)
    }

    #[inline(always)]
    fn osc_text<A: Allocator>(&mut self, alloc: A, text: &[u8]) -> Result<(), AllocError> {
        VTActor::osc_text(self, alloc, text)
    }

    #[inline(always)]
    fn apc_dispatch(&mut self, text: &[u8]) -> Result<(), AllocError> {
        VTActor::apc_dispatch(self, text)
    }
}
