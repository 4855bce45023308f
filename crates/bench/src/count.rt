//! An actor that counts.

use esc_frame::actor::VTActor;
use esc_values::csi_param::CsiParam;
use std::alloc::AllocError;
use std::fmt;

/// Counts the events that it is given, and adds up their contents, so that no part of the work can
/// be left out.
#[derive(Clone, Copy)]
pub struct Count {
    characters: u64,
    controls: u64,
    escapes: u64,
    control_sequences: u64,
    csi_params: u64,
    commands: u64,
    parts: u64,
    device_strings: u64,
    device_bytes: u64,
    program_commands: u64,
    program_bytes: u64,
    total: u64,
}

/// Returns the sum of these bytes.
#[inline(always)]
pub(crate) fn sum_of(text: &[u8]) -> u64 {
    let mut sum = 0u64;
    for b in text {
        sum = sum.wrapping_add(*b as u64);
    }
    sum
}

impl Count {
    /// Returns an empty count.
    pub fn new() -> Count {
        Count {
            characters: 0,
            controls: 0,
            escapes: 0,
            control_sequences: 0,
            csi_params: 0,
            commands: 0,
            parts: 0,
            device_strings: 0,
            device_bytes: 0,
            program_commands: 0,
            program_bytes: 0,
            total: 0,
        }
    }

    #[inline]
    fn add(&mut self, number: u64) {
        self.total = self.total.wrapping_add(number);
    }
}

impl fmt::Display for Count {
    fn fmt<W: fmt::Write>(&self, f: &mut fmt::Formatter<W>) -> fmt::Result {
        let numbers = [
            (self.characters, " characters, "),
            (self.controls, " controls, "),
            (self.escapes, " escapes, "),
            (self.control_sequences, " CSI of "),
            (self.csi_params, " entries, "),
            (self.commands, " OSC of "),
            (self.parts, " parts, "),
            (self.device_strings, " DCS of "),
            (self.device_bytes, " bytes, "),
            (self.program_commands, " APC of "),
            (self.program_bytes, " bytes, total "),
        ];
        for (number, words) in numbers {
            write!(f, "{number}{words}")?;
        }
        self.total.fmt(f)
    }
}

impl VTActor for Count {
    ghost takes = { λ _ _ _. Unit {0} };

    ghost refuses = { λ _ _ _. ⊥ };

    ghost is_ready = { λ _. Unit {0} };

    ghost may = { λ _ _. Unit {0} };

    #[inline]
    fn print(&mut self, c: char) -> Result<(), AllocError> {
        self.characters = self.characters.wrapping_add(1);
        self.add(c as u64);
        Ok(())
    }

    #[inline]
    fn print_text(&mut self, text: &[u8]) -> Result<(), AllocError> {
        self.characters = self.characters.wrapping_add(text.len() as u64);
        self.add(sum_of(text));
        Ok(())
    }

    #[inline]
    fn print_str(&mut self, text: &str) -> Result<(), AllocError> {
        let mut count = 0u64;
        let mut sum = 0u64;
        for c in text.chars() {
            count = count.wrapping_add(1);
            sum = sum.wrapping_add(c as u64);
        }
        self.characters = self.characters.wrapping_add(count);
        self.add(sum);
        Ok(())
    }

    #[inline]
    fn execute_c0_or_c1(&mut self, control: u8) -> Result<(), AllocError> {
        self.controls = self.controls.wrapping_add(1);
        self.add(control as u64);
        Ok(())
    }

    #[inline]
    fn dcs_hook(
        &mut self,
        byte: u8,
        params: &[i64],
        intermediates: &[u8],
        _ignored_extra_intermediates: bool,
    ) -> Result<(), AllocError> {
        self.device_strings = self.device_strings.wrapping_add(1);
        self.add(byte as u64);
        self.add(params.len() as u64);
        self.add(intermediates.len() as u64);
        Ok(())
    }

    #[inline]
    fn dcs_put(&mut self, byte: u8) -> Result<(), AllocError> {
        self.device_bytes = self.device_bytes.wrapping_add(1);
        self.add(byte as u64);
        Ok(())
    }

    #[inline]
    fn dcs_put_text(&mut self, bytes: &[u8]) -> Result<(), AllocError> {
        self.device_bytes = self.device_bytes.wrapping_add(bytes.len() as u64);
        self.add(sum_of(bytes));
        Ok(())
    }

    #[inline]
    fn dcs_unhook(&mut self) -> Result<(), AllocError> {
        Ok(())
    }

    #[inline]
    fn esc_dispatch(
        &mut self,
        _params: &[i64],
        intermediates: &[u8],
        _ignored_extra_intermediates: bool,
        byte: u8,
    ) -> Result<(), AllocError> {
        self.escapes = self.escapes.wrapping_add(1);
        self.add(byte as u64);
        self.add(intermediates.len() as u64);
        Ok(())
    }

    #[inline]
    fn csi_dispatch(
        &mut self,
        params: &[CsiParam],
        _parameters_truncated: bool,
        byte: u8,
    ) -> Result<(), AllocError> {
        self.control_sequences = self.control_sequences.wrapping_add(1);
        self.csi_params = self.csi_params.wrapping_add(params.len() as u64);
        self.add(byte as u64);
        Ok(())
    }

    #[inline]
    fn osc_dispatch(&mut self, params: &[&[u8]]) -> Result<(), AllocError> {
        self.commands = self.commands.wrapping_add(1);
        self.parts = self.parts.wrapping_add(params.len() as u64);
        Ok(())
    }

    #[inline]
    fn apc_dispatch(&mut self, data: &[u8]) -> Result<(), AllocError> {
        self.program_commands = self.program_commands.wrapping_add(1);
        self.program_bytes = self.program_bytes.wrapping_add(data.len() as u64);
        Ok(())
    }
}
