//! A stream of UTF-16 as UTF-8.
ghost use Rattle.std.specs.Prelude.{◌≡◌, ◌++◌, ◌∷◌, [], OnErr, OnOk};
ghost use Rattle.fallible_alloc.specs.Refusals.{Refused};
ghost use Rattle.esc_decode.specs.Spellings.{spell_all};
ghost use Rattle.esc_decode.specs.Units.{unit_text, after, fresh_units, cut_short, unit_utf8, given_alone, is_high, is_low, unit_left, left_alone, pair, unit};

use std::alloc::{AllocError, Allocator};

// A surrogate, in place of a character that is not there.
const NO_CHARACTER: u32 = 0xd800;

/// Makes UTF-8 of a stream of UTF-16, chunk by chunk. It keeps the first byte of a unit, and the
/// first unit of a pair.
#[derive(Clone, Copy)]
pub struct Utf16 {
    is_little: bool,
    pub(crate) odd: Option<u8>,
    high: Option<u16>,
}

impl Utf16 {
    /// At the beginning of a stream, of whose units the lower byte comes first, or the higher.
    pub fn new(is_little: bool) -> Utf16
        ensures { result ≡ fresh_units is_little }
    {
        Utf16 {
            is_little,
            odd: None,
            high: None,
        }
    }

    /// Appends the characters that these bytes end, and FF for a unit that is no part of a pair.
    pub fn push<A: Allocator>(
        &mut self,
        bytes: &[u8],
        text: &mut Vec<u8, A>,
    ) -> Result<(), AllocError>
        ensures state { OnOk result (self.new ≡ after self.old bytes.now) }
        ensures text { OnOk result
            (text.new.items ≡ text.old.items ++ unit_text self.old bytes.now) }
        ensures refused { OnErr result (Refused A) }
    {
        for byte in bytes {
            self.take(*byte, text)?;
        }
        Ok(())
    }

    /// Appends FF if the stream ends within a unit or a pair.
    pub fn end<A: Allocator>(&mut self, text: &mut Vec<u8, A>) -> Result<(), AllocError>
        ensures text { OnOk result (text.new.items
            ≡ text.old.items ++ spell_all (cut_short self.old.odd self.old.high)) }
        ensures refused { OnErr result (Refused A) }
    {
        match (self.odd, self.high) {
            (None, None) => Ok(()),
            _ => {
                self.odd = None;
                self.high = None;
                push_point(text, NO_CHARACTER)
            }
        }
    }

    // Takes a byte more.
    fn take<A: Allocator>(&mut self, byte: u8, text: &mut Vec<u8, A>) -> Result<(), AllocError>
        ensures state { self.new ≡ after self.old (byte ∷ []) }
        ensures text { OnOk result
            (text.new.items ≡ text.old.items ++ unit_text self.old (byte ∷ [])) }
        ensures refused { OnErr result (Refused A) }
    {
        match self.odd {
            None => {
                self.odd = Some(byte);
                Ok(())
            }
            Some(first) => {
                let unit = unit(self.is_little, first, byte);
                let high = self.high;
                self.odd = None;
                self.high = left(high, unit);
                push_given(text, high, unit)
            }
        }
    }
}

// A unit of two bytes.
fn unit(is_little: bool, first: u8, second: u8) -> u16
    ensures { result ≡ unit is_little first second }
{
    if is_little {
        first as u16 + 0x100 * (second as u16)
    } else {
        second as u16 + 0x100 * (first as u16)
    }
}

// Whether it is the first one of a pair.
fn is_high(unit: u16) -> bool
    ensures { result ≡ is_high unit }
{
    0xd800 <= unit && unit < 0xdc00
}

// Whether it is the second one of a pair.
fn is_low(unit: u16) -> bool
    ensures { result ≡ is_low unit }
{
    0xdc00 <= unit && unit < 0xe000
}

// The character of a pair.
fn pair(high: u16, low: u16) -> u32
    ensures { result ≡ pair high low }
{
    0x1_0000 + 0x400 * (high as u32 % 0x400) + low as u32 % 0x400
}

// The first one of a pair that is left after a unit, if this has come before it.
fn left(high: Option<u16>, unit: u16) -> Option<u16>
    ensures { result ≡ unit_left high unit }
{
    match high {
        None => left_alone(unit),
        Some(_) => { if is_low(unit) { None } else { left_alone(unit) } }
    }
}

// The same if nothing has.
fn left_alone(unit: u16) -> Option<u16>
    ensures { result ≡ left_alone unit }
{
    if is_high(unit) { Some(unit) } else { None }
}

// Appends the code points that a unit ends, if this first one of a pair has come before it.
fn push_given<A: Allocator>(
    text: &mut Vec<u8, A>,
    high: Option<u16>,
    unit: u16,
) -> Result<(), AllocError>
    ensures text { OnOk result
        (text.new.items ≡ text.old.items ++ spell_all (unit_utf8 high unit)) }
    ensures refused { OnErr result (Refused A) }
{
    match high {
        None => push_alone(text, unit),
        Some(high) => {
            if is_low(unit) {
                push_point(text, pair(high, unit))
            } else {
                push_point(text, high as u32)?;
                push_alone(text, unit)
            }
        }
    }
}

// The same if nothing has.
fn push_alone<A: Allocator>(text: &mut Vec<u8, A>, unit: u16) -> Result<(), AllocError>
    ensures text { OnOk result
        (text.new.items ≡ text.old.items ++ spell_all (given_alone unit)) }
    ensures refused { OnErr result (Refused A) }
{
    if is_high(unit) {
        Ok(())
    } else {
        push_point(text, unit as u32)
    }
}

// Appends the UTF-8 of a code point, and FF for a surrogate.
fn push_point<A: Allocator>(text: &mut Vec<u8, A>, point: u32) -> Result<(), AllocError>
    ensures text { OnOk result
        (text.new.items ≡ text.old.items ++ spell_all (point ∷ [])) }
    ensures refused { OnErr result (Refused A) }
{
    match char::from_u32(point) {
        Some(c) => {
            let mut bytes = [0; 4];
            fallible_alloc::extend(text, c.encode_utf8(&mut bytes).as_bytes())
        }
        None => fallible_alloc::extend(text, &[0xff]),
    }
}
