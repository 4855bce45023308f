//! A log of events, in which a run of characters or of data is the same as each by itself.
ghost use Rattle.esc_frame.specs.Events.{Event, Receives};

use esc_frame::VTActor;
use esc_values::csi_param::CsiParam;
use heapless_parser::event::{
    APC, CHARACTER, CONTROL, CSI, DATA, DATA_BYTE, DCS, DCS_END, ESCAPE, EscEvent, OSC, TEXT,
};
use std::alloc::{AllocError, Allocator, Global};

/// The notes of each event, and whether memory was refused for some of it.
#[derive(Drop)]
pub struct Log {
    pub items: Vec<i64>,
    pub is_refused: bool,
}

impl Log {
    /// Returns an empty log.
    pub fn new(alloc: Global) -> Log {
        Log {
            items: Vec::new(alloc),
            is_refused: false,
        }
    }

    fn add(&mut self, item: i64) {
        if self.items.push(item).is_err() {
            self.is_refused = true;
        }
    }

    fn put(&mut self, kind: u32, value: u32) {
        self.add(i64::from(kind));
        self.add(i64::from(value));
    }

    fn put_bytes(&mut self, bytes: &[u8]) {
        for b in bytes {
            self.add(i64::from(*b));
        }
        self.add(-1);
    }

    // Writes an escape sequence or a string: its final byte, its text or its parameters, its
    // intermediates, and whether there were more of these.
    fn put_string(&mut self, kind: u32, byte: u32, text: &[u8], others: &[u8], has_more: bool) {
        self.put(kind, byte);
        self.put_bytes(text);
        self.put_bytes(others);
        self.add(i64::from(has_more));
    }

    /// Notes an event of a call, if its text and its run are these.
    pub fn note(&mut self, event: &EscEvent, text: &[u8], run: &[u8]) {
        match event.kind {
            TEXT => self.note_text(run),
            DATA => self.note_data(run),
            DCS_END => self.put(DCS_END, 0),
            OSC | APC => self.put_string(event.kind, 0, text, &[], false),
            DCS | ESCAPE => {
                self.put_string(event.kind, event.byte, text, kept(event), event.has_more)
            }
            CSI => self.note_sequence(event),
            kind => self.put(kind, event.byte),
        }
    }

    fn note_text(&mut self, run: &[u8]) {
        match std::str::from_utf8(run) {
            Ok(text) => {
                for c in text.chars() {
                    self.put(CHARACTER, c as u32);
                }
            }
            Err(_) => self.add(-3),
        }
    }

    fn note_data(&mut self, run: &[u8]) {
        for b in run {
            self.put(DATA_BYTE, u32::from(*b));
        }
    }

    fn note_sequence(&mut self, event: &EscEvent) {
        self.put(CSI, event.byte);
        for entry in &event.csi_params[..event.count.min(256)] {
            if entry.is_byte {
                self.put(1, entry.byte as u32);
            } else {
                self.note_number(entry.number);
            }
        }
        self.add(i64::from(event.has_more));
    }

    fn note_number(&mut self, number: i64) {
        self.add(-2);
        self.add(number);
    }
}

// Returns the intermediates of an event.
fn kept(event: &EscEvent) -> &[u8] {
    &event.intermediates[..event.kept.min(2)]
}

// The note of an event of a parser. Memory that is refused ends no call: the log says at its end
// whether it has all.
impl Log {
    fn take_command(&mut self, text: &[u8]) -> Result<(), AllocError>
        ensures { (e : Event)
            → Receives (λ _ _ _. Unit {0}) (λ _ _ _. Unit {0}) result self.old e self.new }
    {
        self.put_string(OSC, 0, text, &[], false);
        Ok(())
    }

    fn take_header(
        &mut self,
        byte: u8,
        parameters: &[u8],
        intermediates: &[u8],
        has_more: bool,
    ) -> Result<(), AllocError>
        ensures { (e : Event)
            → Receives (λ _ _ _. Unit {0}) (λ _ _ _. Unit {0}) result self.old e self.new }
    {
        self.put_string(DCS, u32::from(byte), parameters, intermediates, has_more);
        Ok(())
    }
}

impl VTActor for Log {
    ghost takes = { λ _ _ _. Unit {0} };

    ghost refuses = { λ _ _ _. Unit {0} };

    ghost is_ready = { λ _. Unit {0} };

    ghost may = { λ _ _. Unit {0} };

    fn print(&mut self, c: char) -> Result<(), AllocError> {
        self.put(CHARACTER, c as u32);
        Ok(())
    }

    fn execute_c0_or_c1(&mut self, control: u8) -> Result<(), AllocError> {
        self.put(CONTROL, u32::from(control));
        Ok(())
    }

    fn dcs_hook(
        &mut self,
        _byte: u8,
        _params: &[i64],
        _intermediates: &[u8],
        _ignored_extra_intermediates: bool,
    ) -> Result<(), AllocError> {
        Ok(())
    }

    #[tactic(auto, using(heapless_parser::proofs::EventNotes::NotesFold::receives_both))]
    fn dcs_header<A: Allocator + Copy>(
        &mut self,
        _alloc: A,
        byte: u8,
        parameters: &[u8],
        intermediates: &[u8],
        ignored_extra_intermediates: bool,
    ) -> Result<(), AllocError> {
        self.take_header(byte, parameters, intermediates, ignored_extra_intermediates)
    }

    fn dcs_put(&mut self, byte: u8) -> Result<(), AllocError> {
        self.put(DATA_BYTE, u32::from(byte));
        Ok(())
    }

    fn dcs_unhook(&mut self) -> Result<(), AllocError> {
        self.put(DCS_END, 0);
        Ok(())
    }

    fn esc_dispatch(
        &mut self,
        _params: &[i64],
        intermediates: &[u8],
        ignored_extra_intermediates: bool,
        byte: u8,
    ) -> Result<(), AllocError> {
        let has_more = ignored_extra_intermediates;
        self.put_string(ESCAPE, u32::from(byte), &[], intermediates, has_more);
        Ok(())
    }

    fn csi_dispatch(
        &mut self,
        params: &[CsiParam],
        parameters_truncated: bool,
        byte: u8,
    ) -> Result<(), AllocError> {
        self.put(CSI, u32::from(byte));
        for param in params {
            match *param {
                CsiParam::Integer(number) => self.note_number(number),
                CsiParam::P(b) => self.put(1, u32::from(b)),
            }
        }
        self.add(i64::from(parameters_truncated));
        Ok(())
    }

    #[tactic(auto, using(heapless_parser::proofs::EventNotes::NotesFold::receives_both))]
    fn osc_text<A: Allocator>(&mut self, _alloc: A, text: &[u8]) -> Result<(), AllocError> {
        self.take_command(text)
    }

    fn osc_dispatch(&mut self, _params: &[&[u8]]) -> Result<(), AllocError> {
        Ok(())
    }

    fn apc_dispatch(&mut self, text: &[u8]) -> Result<(), AllocError> {
        self.put_string(APC, 0, text, &[], false);
        Ok(())
    }
}
