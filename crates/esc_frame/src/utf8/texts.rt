//! This module finds the first character of a text, by how many bytes it takes.
#![tactic(auto)]

ghost use Rattle.std.specs.Prelude.{◌<◌, ◌≤◌, length, slice_index};
ghost use Rattle.esc_frame.specs.Machine.Texts.{IsClearText, IsNext};
ghost use Rattle.esc_frame.specs.Scans.{StartsFrom};

/// Returns the character that comes first, and how many bytes it takes.
#[inline(always)]
pub fn first_of(text: &[u8]) -> (char, usize)
    requires some { 0 < length text.now }
    requires clear { IsClearText text.now }
    ensures next { IsNext text.now result.0 result.1 }
    ensures some { 0 < result.1 }
{
    if text[0] < 0x80 {
        (text[0] as char, 1)
    } else if text[0] < 0xe0 {
        (two_of(text), 2)
    } else if text[0] < 0xf0 {
        (three_of(text), 3)
    } else {
        (four_of(text), 4)
    }
}

// Returns the character of two bytes that comes first.
#[inline(always)]
fn two_of(text: &[u8]) -> char
    requires starts { StartsFrom 0x80 0xdf text.now }
    requires clear { IsClearText text.now }
    ensures { IsNext text.now result 2 }
{
    let n = (text[0] as u32 - 0xc0) * 64 + (text[1] as u32 - 0x80);
    unsafe { char::from_u32_unchecked(n) }
}

// Returns the character of three bytes that comes first.
#[inline(always)]
fn three_of(text: &[u8]) -> char
    requires starts { StartsFrom 0xe0 0xef text.now }
    requires clear { IsClearText text.now }
    ensures { IsNext text.now result 3 }
{
    let n = (text[0] as u32 - 0xe0) * 4096 + (text[1] as u32 - 0x80) * 64 + (text[2] as u32 - 0x80);
    unsafe { char::from_u32_unchecked(n) }
}

// Returns the character of four bytes that comes first.
#[inline(always)]
fn four_of(text: &[u8]) -> char
    requires some { 0 < length text.now }
    requires low { 0xf0 ≤ slice_index text.now 0 }
    requires clear { IsClearText text.now }
    ensures { IsNext text.now result 4 }
{
    let n = (text[0] as u32 - 0xf0) * 262144
        + (text[1] as u32 - 0x80) * 4096
        + (text[2] as u32 - 0x80) * 64
        + (text[3] as u32 - 0x80);
    unsafe { char::from_u32_unchecked(n) }
}
