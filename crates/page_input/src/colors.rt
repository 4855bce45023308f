//! The colours of an image of sixels.

use esc_values::RgbColor;
use std::alloc::{AllocError, Global};

/// A colour: red, green and blue.
pub(crate) type Rgb = (u8, u8, u8);

// Says how many registers there are.
const REGISTERS: usize = 1024;

// Says how many colours an image has at most, each one as often as it is defined.
const MOST: usize = 65_535;

// The registers at the beginning, in percent: those of the VT340 (VT330/VT340 Programmer Reference
// Manual, volume 2, table 2-3), again and again.
const VT340: [(u8, u8, u8); 16] = [
    (0, 0, 0),
    (20, 20, 80),
    (80, 13, 13),
    (20, 80, 20),
    (80, 20, 80),
    (20, 80, 80),
    (80, 80, 20),
    (53, 53, 53),
    (26, 26, 26),
    (33, 33, 60),
    (60, 26, 26),
    (33, 60, 33),
    (60, 33, 60),
    (33, 60, 60),
    (60, 60, 33),
    (80, 80, 80),
];

// The register that is selected at the beginning.
const FIRST: u16 = 15;

/// The registers of colours, and each colour that one of them had.
#[derive(Drop)]
pub(crate) struct Colors {
    // the number of the colour of each register
    registers: Vec<u16>,
    // the colours, the first of which is that of no pixel
    found: Vec<Rgb>,
    selected: u16,
}

impl Colors {
    /// Returns the registers as they are at the beginning.
    pub fn new(alloc: Global) -> Result<Colors, AllocError> {
        let mut found = fallible_alloc::copied(alloc, &[(0, 0, 0)])?;
        for percent in VT340 {
            fallible_alloc::extend(&mut found, &[of_percent(percent)])?;
        }
        let mut registers = Vec::new(alloc);
        for _ in 0..REGISTERS / 16 {
            let numbers = [1, 2, 3, 4, 5, 6, 7, 8, 9, 10, 11, 12, 13, 14, 15, 16];
            fallible_alloc::extend(&mut registers, &numbers)?;
        }
        Ok(Colors {
            registers,
            found,
            selected: FIRST,
        })
    }

    /// Selects a register, which there always is room for.
    pub fn select(&mut self, register: u16) -> bool {
        self.selected = register;
        true
    }

    /// Gives a register a colour, and selects it. False if there are too many colours.
    pub fn define(&mut self, register: u16, color: Rgb) -> Result<bool, AllocError> {
        self.selected = register;
        if self.color(self.of_register(register)) == color {
            return Ok(true);
        }
        let Ok(number) = u16::try_from(self.found.len()) else {
            return Ok(false);
        };
        if MOST <= self.found.len() {
            return Ok(false);
        }
        fallible_alloc::extend(&mut self.found, &[color])?;
        if let Some(place) = self.registers.get_mut(usize::from(register) % REGISTERS) {
            *place = number;
        }
        Ok(true)
    }

    /// Returns the number of the colour that is drawn with.
    pub fn current(&self) -> u16 {
        self.of_register(self.selected)
    }

    /// Returns the number of the colour of the background, if that is drawn.
    pub fn background(&self) -> u16 {
        self.of_register(0)
    }

    /// Returns the colour of this number.
    pub fn color(&self, number: u16) -> Rgb {
        match self.found.get(usize::from(number)) {
            Some(color) => *color,
            None => (0, 0, 0),
        }
    }

    /// Returns how many numbers there are.
    pub fn len(&self) -> usize {
        self.found.len()
    }

    fn of_register(&self, register: u16) -> u16 {
        match self.registers.get(usize::from(register) % REGISTERS) {
            Some(number) => *number,
            None => 0,
        }
    }
}

/// Returns a colour by its channels.
pub(crate) fn rgb_of(color: RgbColor) -> Rgb {
    color.to_tuple_rgb8()
}

/// Returns a colour by its hue, with 0 for blue, 120 for red and 240 for green, and its lightness
/// and saturation in percent (VT330/VT340 Programmer Reference Manual, volume 2, chapter 14).
pub(crate) fn hls(hue: u16, lightness: u8, saturation: u8) -> Rgb {
    let light = u32::from(lightness.min(100));
    let full = u32::from(saturation.min(100));
    let chroma = (100u32.saturating_sub(light.saturating_mul(2).abs_diff(100))).saturating_mul(
        full,
    );
    let low = light.saturating_mul(200).saturating_sub(chroma);
    let hue = u32::from(hue).saturating_add(240) % 360;
    let part = 60u32.saturating_sub((hue % 120).abs_diff(60));
    let most = byte_of(chroma.saturating_mul(2).saturating_add(low));
    let some = byte_of((chroma.saturating_mul(2).saturating_mul(part) / 60).saturating_add(low));
    let least = byte_of(low);
    match hue / 60 {
        0 => (most, some, least),
        1 => (some, most, least),
        2 => (least, most, some),
        3 => (least, some, most),
        4 => (some, least, most),
        _ => (most, least, some),
    }
}

// Returns a channel from 0 to 20,000 as a byte, to the nearest.
fn byte_of(channel: u32) -> u8 {
    let nearest = channel.saturating_mul(255).saturating_add(10_000) / 20_000;
    u8::try_from(nearest).unwrap_or(u8::MAX)
}

fn of_percent(percent: (u8, u8, u8)) -> Rgb {
    (full_of(percent.0), full_of(percent.1), full_of(percent.2))
}

// Returns a percentage as a byte.
fn full_of(percent: u8) -> u8 {
    u8::try_from(u32::from(percent).saturating_mul(255) / 100).unwrap_or(u8::MAX)
}
