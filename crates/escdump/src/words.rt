//! The words of a segment.

use crate::controls::{Count, add_controls};
use crate::csi_words::add_sequence;
use dump_page::{Name, Phrase};
use esc_frame::VTActor;
use esc_values::CsiParam;
use std::alloc::{AllocError, Global};

/// The words of a segment, as far as its events say them: those of the controls that come inside
/// it, and of a control sequence. Those of anything else are made of its bytes.
#[derive(Drop)]
pub struct Words {
    /// The words.
    pub phrase: Phrase,
    /// Room for a text that is written into another.
    pub scratch: Phrase,
    /// Says whether a cancel comes now that is not the stream's, and has no words.
    pub is_ending: bool,
    /// Says whether the words of the segment are said, as far as its events say them.
    pub has_said: bool,
    /// Says whether the stream ends inside it.
    pub is_unfinished: bool,
    /// Says whether all of them are.
    pub is_whole: bool,
    /// Says whether tmux passes on their segment.
    pub is_carried: bool,
    /// The name of a string in whose words a control sequence may be named after it.
    pub string: Option<Name>,
    /// Says whether they are of a terminal in its VT52 mode.
    pub is_vt52: bool,
    // Says how many bytes the words may have.
    room: usize,
    controls: Vec<Count>,
}

impl Words {
    /// Returns no words, with room for so many bytes. Takes no memory.
    pub fn new(alloc: Global, room: usize) -> Words {
        let mut phrase = Phrase::new(alloc);
        phrase.restart(room);
        Words {
            phrase,
            scratch: Phrase::new(alloc),
            is_ending: false,
            has_said: false,
            is_unfinished: false,
            is_whole: false,
            is_carried: false,
            string: None,
            is_vt52: false,
            room,
            controls: Vec::new(alloc),
        }
    }

    /// Clears the words, for the next segment.
    pub fn clear(&mut self) {
        self.phrase.restart(self.room);
        self.is_ending = false;
        self.has_said = false;
        self.is_unfinished = false;
        self.is_whole = false;
        self.is_carried = false;
        self.string = None;
        self.controls.clear();
    }

    /// Returns the name of the segment.
    pub fn name(&self) -> Name {
        match self.string {
            Some(name) => name,
            None => self.phrase.name(),
        }
    }

    /// Returns how many bytes the words may have.
    pub fn room(&self) -> usize {
        self.room
    }

    /// Adds the words of the controls that were counted.
    pub fn add_counted(&mut self) {
        if !self.controls.is_empty() {
            add_controls(&self.controls, &mut self.phrase);
            self.controls.clear();
        }
    }

    // Counts a control of C0.
    fn add_control(&mut self, code: u8) {
        for count in &mut self.controls {
            if count.code == code {
                count.times = count.times.saturating_add(1);
                return;
            }
        }
        if self.controls.push(Count { code, times: 1 }).is_err() {
            self.phrase.refuse();
        }
    }
}

impl VTActor for Words {
    ghost takes = { λ _ _ _. Unit {0} };

    ghost refuses = { λ _ _ _. Unit {0} };

    ghost is_ready = { λ _. Unit {0} };

    ghost may = { λ _ _. Unit {0} };

    // Characters have no words.
    fn print(&mut self, _c: char) -> Result<(), AllocError> {
        Ok(())
    }

    fn execute_c0_or_c1(&mut self, control: u8) -> Result<(), AllocError> {
        if !self.is_ending || control != 0x18 {
            self.add_control(control);
        }
        Ok(())
    }

    // Those of strings and of escape sequences are made of their bytes.
    fn dcs_hook(
        &mut self,
        _byte: u8,
        _params: &[i64],
        _intermediates: &[u8],
        _ignored_extra_intermediates: bool,
    ) -> Result<(), AllocError> {
        Ok(())
    }

    fn dcs_put(&mut self, _byte: u8) -> Result<(), AllocError> {
        Ok(())
    }

    fn dcs_unhook(&mut self) -> Result<(), AllocError> {
        Ok(())
    }

    fn esc_dispatch(
        &mut self,
        _params: &[i64],
        _intermediates: &[u8],
        _ignored_extra_intermediates: bool,
        _byte: u8,
    ) -> Result<(), AllocError> {
        Ok(())
    }

    // The controls inside a control sequence come before its words.
    fn csi_dispatch(
        &mut self,
        params: &[CsiParam],
        parameters_truncated: bool,
        byte: u8,
    ) -> Result<(), AllocError> {
        self.add_counted();
        add_sequence(params, parameters_truncated, byte, &mut self.phrase);
        self.has_said = true;
        Ok(())
    }

    fn osc_dispatch(&mut self, _params: &[&[u8]]) -> Result<(), AllocError> {
        Ok(())
    }

    fn apc_dispatch(&mut self, _text: &[u8]) -> Result<(), AllocError> {
        Ok(())
    }
}
