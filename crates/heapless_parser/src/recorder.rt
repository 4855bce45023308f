//! The sink that notes the events of a call.
#![tactic(auto)]

ghost use Rattle.std.specs.Prelude.{◌≡◌, ◌≢◌, ◌≤◌, ◌<◌, true, false, length, IsTrue};
ghost use Rattle.esc_values.specs.Clear.{parts_of};
ghost use Rattle.esc_frame.specs.Events.Event.{Print, Execute, OscDispatch, DcsHook};
ghost use Rattle.heapless_parser.specs.Noted.{Adds};
ghost use Rattle.heapless_parser.specs.Emitted.{text_of, intermediates_of, parameters_of};
ghost use Rattle.heapless_parser.specs.Puts.{PutsCsi, PutsEscape};
ghost use Rattle.heapless_parser.specs.Takes.{IsCountedAs};

use crate::csi_params::put_csi_params;
use crate::event::{
    APC, CHARACTER, CONTROL, CSI, DATA_BYTE, DCS, DCS_END, ESCAPE, EscEvent, NONE, OSC,
};
use crate::named::Named;
use esc_frame::taker::EventSink;
use esc_values::csi_param::CsiParam;
use std::alloc::{AllocError, Allocator};
use std::marker::PhantomData;

/// A sink that notes the first event, and queues the second if that is a character or a control. It
/// copies a text to `out`. If there is no place for an event, it notes that one was lost.
#[derive(Drop)]
pub struct Recorder<'b, 'c, N: Named> {
    pub event: &'c mut EscEvent,
    pub out: &'b mut [u8],
    pub queued_kind: u32,
    pub queued_value: u32,
    pub is_lost: bool,
    pub of: PhantomData<N>,
    ghost same_event: { event.ghost_name ≡ N.event },
    ghost same_out: { out.ghost_name ≡ N.out },
    ghost place: { length out.now ≡ N.place },
}

/// Notes a control sequence.
pub fn put_csi(event: &mut EscEvent, params: &[CsiParam], parameters_truncated: bool, byte: u8)
    requires { length params.now ≤ 256 }
    ensures { PutsCsi params.now parameters_truncated byte event }
{
    put_csi_params(&mut event.csi_params, params);
    event.count = params.len();
    event.has_more = parameters_truncated;
    event.byte = byte as u32;
    event.kind = CSI;
}

// Notes the intermediates, and the final byte after them.
fn put_intermediates(event: &mut EscEvent, intermediates: &[u8], has_more: bool, byte: u8)
    requires { length intermediates.now ≤ 2 }
    ensures shown { (intermediates_of event.new ≡ intermediates.now)
        × (event.new.kept ≡ length intermediates.now) }
    ensures byte { (event.new.has_more ≡ has_more) × (event.new.byte ≡ byte) }
    ensures same { (event.new.kind ≡ event.old.kind) × (event.new.length ≡ event.old.length)
        × (event.new.count ≡ event.old.count) }
{
    event.intermediates[..intermediates.len()].copy_from_slice(intermediates);
    event.kept = intermediates.len();
    event.has_more = has_more;
    event.byte = byte as u32;
}

// Notes an escape sequence.
fn put_escape(event: &mut EscEvent, intermediates: &[u8], has_more: bool, byte: u8)
    requires { length intermediates.now ≤ 2 }
    ensures { PutsEscape intermediates.now has_more byte event }
{
    event.kind = ESCAPE;
    put_intermediates(event, intermediates, has_more, byte);
}

impl<'b, 'c, N: Named> Recorder<'b, 'c, N> {
    // Returns whether nothing was noted.
    fn is_new(&self) -> bool
        ensures kind { IsTrue result → self.now.event.now.kind ≡ NONE }
        ensures queued { IsTrue result → self.now.queued_kind ≡ NONE }
        ensures some { result ≡ false → self.now.event.now.kind ≡ NONE
            → self.now.queued_kind ≢ NONE }
    {
        self.event.kind == NONE && self.queued_kind == NONE
    }

    // Notes a character or a control.
    fn note(&mut self, kind: u32, value: u32)
        ensures character { kind ≡ CHARACTER → Adds N.place self.old.event.now self.old.out.now
            self.old.queued_kind self.old.queued_value self.old.is_lost (Print value)
            self.new.event.now
            self.new.out.now self.new.queued_kind self.new.queued_value self.new.is_lost }
        ensures control { kind ≡ CONTROL → Adds N.place self.old.event.now self.old.out.now
            self.old.queued_kind self.old.queued_value self.old.is_lost (Execute value)
            self.new.event.now
            self.new.out.now self.new.queued_kind self.new.queued_value self.new.is_lost }
    {
        if self.queued_kind != NONE {
            self.is_lost = true;
        } else if self.event.kind == NONE {
            self.event.kind = kind;
            self.event.byte = value;
        } else {
            self.queued_kind = kind;
            self.queued_value = value;
        }
    }

    // Notes a text, or that it was lost, since there is no place or another event was noted.
    fn put(&mut self, kind: u32, text: &[u8]) -> bool
        ensures noted { result ≡ true → (self.new.event.now.kind ≡ kind)
            × (text_of self.new.event.now self.new.out.now ≡ text.now)
            × (self.new.event.now.length ≤ N.place) }
        ensures first { result ≡ true → (self.old.event.now.kind ≡ NONE)
            × (self.old.queued_kind ≡ NONE) × (self.new.queued_kind ≡ NONE)
            × (self.new.is_lost ≡ self.old.is_lost) }
        ensures counts { IsCountedAs self.new.event.now self.old.event.now }
        ensures lost { result ≡ false → (self.new.is_lost ≡ true)
            × (self.new.event.now ≡ self.old.event.now)
            × (self.new.queued_kind ≡ self.old.queued_kind)
            × (self.old.event.now.kind ≡ NONE → self.old.queued_kind ≡ NONE
            → N.place < length text.now) }
    {
        if !self.is_new() || text.len() > self.out.len() {
            self.is_lost = true;
            return false;
        }
        self.out[..text.len()].copy_from_slice(text);
        self.event.length = text.len();
        self.event.kind = kind;
        true
    }

    // Notes a command.
    #[tactic(auto, using(crate::proofs::EventNotes::EventsAreNoted::parts_room))]
    fn note_osc(&mut self, text: &[u8])
        ensures { Adds N.place self.old.event.now self.old.out.now self.old.queued_kind
            self.old.queued_value self.old.is_lost (OscDispatch (parts_of text.now))
            self.new.event.now self.new.out.now self.new.queued_kind self.new.queued_value
            self.new.is_lost }
    {
        self.put(OSC, text);
    }

    // Notes a header, whose parameter bytes have a place.
    fn note_header(&mut self, byte: u8, parameters: &[u8], intermediates: &[u8], has_more: bool)
        requires { length parameters.now ≤ N.place }
        ensures { Adds N.place self.old.event.now self.old.out.now self.old.queued_kind
            self.old.queued_value self.old.is_lost
            (DcsHook byte (parameters_of parameters.now) intermediates.now has_more)
            self.new.event.now self.new.out.now self.new.queued_kind self.new.queued_value
            self.new.is_lost }
    {
        if intermediates.len() > 2 {
            self.is_lost = true;
        } else if self.put(DCS, parameters) {
            let event = &mut *self.event;
            put_intermediates(event, intermediates, has_more, byte);
        }
    }
}

impl<'b, 'c, N: Named> EventSink for Recorder<'b, 'c, N> {
    ghost takes = { λ p e q.
        Adds N.place p.event.now p.out.now p.queued_kind p.queued_value p.is_lost e
        q.event.now q.out.now q.queued_kind q.queued_value q.is_lost };

    ghost refuses = { λ _ _ _. ⊥ };

    ghost is_ready = { λ _. Unit {0} };

    ghost may = { λ _ _. Unit {0} };

    // It stops by itself if there is no place for the text.
    ghost stops = { λ _ t. N.place < length t };

    fn print(&mut self, c: char) -> Result<(), AllocError> {
        self.note(CHARACTER, c as u32);
        Ok(())
    }

    fn execute_c0_or_c1(&mut self, control: u8) -> Result<(), AllocError> {
        self.note(CONTROL, control as u32);
        Ok(())
    }

    #[tactic(auto, using(crate::proofs::EventNotes::EventsAreNoted::stops_first, crate::proofs::EventNotes::EventsAreNoted::takes_first))]
    fn dcs_header<A: Allocator + Copy>(
        &mut self,
        _alloc: A,
        byte: u8,
        parameters: &[u8],
        intermediates: &[u8],
        ignored_extra_intermediates: bool,
    ) -> Result<(), AllocError> {
        if parameters.len() > self.out.len() {
            return Err(AllocError);
        }
        self.note_header(byte, parameters, intermediates, ignored_extra_intermediates);
        Ok(())
    }

    fn dcs_put(&mut self, byte: u8) -> Result<(), AllocError> {
        if self.is_new() {
            self.event.kind = DATA_BYTE;
            self.event.byte = byte as u32;
        } else {
            self.is_lost = true;
        }
        Ok(())
    }

    fn dcs_unhook(&mut self) -> Result<(), AllocError> {
        if self.is_new() {
            self.event.kind = DCS_END;
        } else {
            self.is_lost = true;
        }
        Ok(())
    }

    fn esc_dispatch(
        &mut self,
        _params: &[i64],
        intermediates: &[u8],
        ignored_extra_intermediates: bool,
        byte: u8,
    ) -> Result<(), AllocError> {
        if self.is_new() && intermediates.len() <= 2 {
            let event = &mut *self.event;
            put_escape(event, intermediates, ignored_extra_intermediates, byte);
        } else {
            self.is_lost = true;
        }
        Ok(())
    }

    fn csi_dispatch(
        &mut self,
        params: &[CsiParam],
        parameters_truncated: bool,
        byte: u8,
    ) -> Result<(), AllocError> {
        if self.is_new() && params.len() <= 256 {
            let event = &mut *self.event;
            put_csi(event, params, parameters_truncated, byte);
        } else {
            self.is_lost = true;
        }
        Ok(())
    }

    #[tactic(auto, using(crate::proofs::EventNotes::EventsAreNoted::takes_first))]
    fn osc_text<A: Allocator>(&mut self, _alloc: A, text: &[u8]) -> Result<(), AllocError> {
        self.note_osc(text);
        Ok(())
    }

    fn apc_dispatch(&mut self, text: &[u8]) -> Result<(), AllocError> {
        self.put(APC, text);
        Ok(())
    }
}
